// What SSK and RRB write: the key of a page's block, and its swap word. Both were read before, and what read them
// answered only because they are there. So each function here requires that, and tests nothing (document 02, R-10). It
// is a fact of the lent storage too, so no type of a page could hold it.
ghost use Rattle.std.specs.Prelude.{◌≡◌, ℕ, ◌<◌, true, List, [], ◌∷◌, length};
ghost use Rattle.rules.specs.Machine.{has, stored};
ghost use Rattle.rules.specs.Writes.{perform, store, set_key};
ghost use Rattle.storage.specs.Answers.{machine};

use storage::Access;

// A key that was consulted is set. That is no access to its block, and is not recorded.
pub(crate) fn put_key(keys: &mut [u8], block: u32, key: u8)
    requires { block < length keys.old }
    ensures { (s : List ℕ) →
        machine s keys.new
        ≡ perform (machine s keys.old) (set_key block key) }
{
    let i = block as usize;
    keys[i] = key;
}

// The four bytes of a word, each at its own address: round the top too, so no slice. In one block the compiler makes
// one store of them (docs/DECISIONS.md).
fn put_bytes(
    storage: &mut [u8],
    first: usize,
    second: usize,
    third: usize,
    fourth: usize,
    value: u32,
)
    requires { (first < length storage.old)
        × (second < length storage.old)
        × (third < length storage.old)
        × (fourth < length storage.old) }
    ensures { storage.new
        ≡ stored storage.old (first ∷ second ∷ third ∷ fourth ∷ []) value }
{
    let bytes = value.to_be_bytes();
    storage[first] = bytes[0];
    storage[second] = bytes[1];
    storage[third] = bytes[2];
    storage[fourth] = bytes[3];
}

// A swap word that was fetched. It may go round the top of storage, or stand across a block boundary.
pub(crate) fn put_swap_word(storage: &mut [u8], keys: &mut [u8], at: u32, value: u32)
    requires { has (length storage.old) at 4 ≡ true }
    ensures { machine storage.new keys.new
        ≡ perform (machine storage.old keys.old) (store at 4 value) }
{
    let first = at as usize;
    if 16777212 < at {
        let second = rules::sum(at, 1);
        let third = rules::sum(second, 1);
        let fourth = rules::sum(third, 1);
        put_bytes(
            storage,
            first,
            second as usize,
            third as usize,
            fourth as usize,
            value,
        );
        storage::record_word(keys, Access::Store, at);
        return;
    }
    put_bytes(storage, first, first + 1, first + 2, first + 3, value);
    if storage::is_across(at) {
        storage::record_word(keys, Access::Store, at);
        return;
    }
    storage::record_byte(keys, Access::Store, at);
}
