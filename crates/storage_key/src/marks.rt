// Reference and change bits.
ghost use Rattle.std.specs.Prelude.{◌≡◌, ◌<◌, bit_or};
ghost use Rattle.rules.specs.Bits.{bits};

// A number: 2 times the reference bit, plus the change bit.
#[derive(Clone, Copy)]
pub(crate) struct Marks {
    pub(crate) bits: u8,
    ghost small: { bits < 4 },
}

impl Marks {
    // Where no key is consulted.
    pub(crate) fn none() -> Marks
        ensures { result.bits ≡ 0 }
    {
        Marks { bits: 0 }
    }

    // Those of a key.
    pub(crate) fn of(key: u32) -> Marks
        ensures { result.bits ≡ bits 8 5 6 key }
    {
        Marks {
            bits: (key / 2 % 4) as u8,
        }
    }

    // Each ORed with the other's.
    pub(crate) fn or(self, others: Marks) -> Marks
        ensures { result.bits ≡ bit_or self.bits others.bits }
    {
        Marks {
            bits: self.bits | others.bits,
        }
    }
}
