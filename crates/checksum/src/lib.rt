// CRC-32 (ISO-HDLC, as in zlib), byte by byte: a register that starts at START, goes over bytes, and is finished.
#![tactic(auto)]

ghost use Rattle.std.specs.Prelude.{◌-◌, ◌≡◌};
ghost use Rattle.checksum.specs.Register.{steps, after_byte, over_bytes, bytes_of};

// The register before the first byte.
pub const START: u32 = 0xffffffff;

// The register after eight steps, with the polynomial 0xedb88320: from each value of a byte's right four bits with the
// left four zero, then from each of the left with the right zero. From a whole byte it is the exclusive or of the two.
const STEPS: [u32; 32] = [
    0x00000000, 0x77073096, 0xee0e612c, 0x990951ba, 0x076dc419, 0x706af48f, 0xe963a535, 0x9e6495a3,
    0x0edb8832, 0x79dcb8a4, 0xe0d5e91e, 0x97d2d988, 0x09b64c2b, 0x7eb17cbd, 0xe7b82d07, 0x90bf1d91,
    0x00000000, 0x1db71064, 0x3b6e20c8, 0x26d930ac, 0x76dc4190, 0x6b6b51f4, 0x4db26158, 0x5005713c,
    0xedb88320, 0xf00f9344, 0xd6d6a3e8, 0xcb61b38c, 0x9b64c2b0, 0x86d3d2d4, 0xa00ae278, 0xbdbdf21c,
];

// The register after these bytes.
pub fn over(register: u32, bytes: &[u8]) -> u32
    ensures { result ≡ over_bytes register bytes.now }
{
    // the constant is copied where it is named: once here, and not for each byte
    let table = STEPS;
    bytes
        .iter()
        .fold(register, |now, &byte| after(&table, now, byte))
}

// The register after a word, big-endian.
pub fn over_word(register: u32, word: u32) -> u32
    ensures { result ≡ over_bytes register (bytes_of word) }
{
    over(register, &word.to_be_bytes())
}

// The checksum itself.
pub fn finish(register: u32) -> u32
    ensures { result ≡ 4294967295 - register }
{
    !register
}

fn after(table: &[u32; 32], register: u32, byte: u8) -> u32
    requires { table.now ≡ steps }
    ensures { result ≡ after_byte register byte }
{
    // by `%` and `/`, as in `after_byte`: masks and shifts say the same, and are no plainer
    let next = (register % 256) as u8 ^ byte;
    let right = usize::from(next % 16);
    let left = usize::from(next / 16 % 16);
    table[right] ^ table[16 + left] ^ register / 256
}
