// Step 5, the stores: each word at the real address found for it, in rising order.
ghost use Rattle.std.specs.Prelude.{◌≤◌, ◌≡◌, take};
ghost use Rattle.rules.specs.Writes.{perform_all};
ghost use Rattle.rules.specs.StoreControl.{word_stores};
ghost use Rattle.storage.specs.Answers.{machine};

#[inline(always)]
pub(crate) fn store_words(storage: &mut [u8], keys: &mut [u8], reals: &[u32], values: &[u32])
    ensures { machine storage.new keys.new
        ≡ perform_all (machine storage.old keys.old) (word_stores reals.now values.now) }
{
    for (real, value) in reals.iter().zip(values.iter()) {
        storage::store_word(storage, keys, *real, *value);
    }
}
