// A guest's record: the real PSW, the general registers, and real control registers 0, 1 and 6.
// `as` stands where no `From` is: it narrows, or makes an index, and the check proves that no bit is lost. Fields of a
// word are taken by division, here and in the crates that follow document 01's steps, since the definitions take them
// so (specs/Bits.antt).
ghost use Rattle.std.specs.Prelude.{◌≡◌, ◌<◌};
ghost use Rattle.rules.specs.Bits.{bit};
ghost use Rattle.rules.specs.Guest.{instruction_address, dat_on, psw_key, extended_control, problem_state};
ghost use Rattle.rules.specs.Guest.{advance, register, base, effective, indexed, protects_low, assists_control};
ghost use Rattle.rules.specs.Guest.{micblok, with_register, with_byte, with_address, with_code};

#[derive(Clone, Copy)]
pub struct Guest {
    pub psw: u64,
    pub general: [u32; 16],
    pub cr0: u32,
    pub cr1: u32,
    pub cr6: u32,
}

impl Guest {
    pub fn instruction_address(self) -> u32
        ensures { result ≡ instruction_address self }
    {
        (self.psw % 16777216) as u32
    }

    // Is this bit of the PSW one? Bit 0 is leftmost. A mask of 8 bits has a function of its own (masks/src/bits.rt):
    // one for both would be public, and a public function has no `requires`, so it would have to say what a place past
    // the width gives.
    #[tactic(auto, using(crate::proofs::Bits::bit_shifted))]
    fn psw_bit(self, place: u32) -> bool
        requires { place < 64 }
        ensures { result ≡ bit 64 place self.psw }
    {
        (self.psw >> (63 - place)) % 2 == 1
    }

    pub fn dat_on(self) -> bool
        ensures { result ≡ dat_on self }
    {
        self.psw_bit(5)
    }

    pub fn psw_key(self) -> u32
        ensures { result ≡ psw_key self }
    {
        (self.psw / 4503599627370496 % 16) as u32
    }

    pub fn extended_control(self) -> bool
        ensures { result ≡ extended_control self }
    {
        self.psw_bit(12)
    }

    pub fn problem_state(self) -> bool
        ensures { result ≡ problem_state self }
    {
        self.psw_bit(15)
    }

    // The record with the instruction address moved on.
    pub fn advance(self, n: u32) -> Guest
        ensures { result ≡ advance self n }
    {
        let address = crate::sum(self.instruction_address(), n);
        Guest {
            psw: self.psw / 16777216 * 16777216 + u64::from(address),
            ..self
        }
    }

    // General register r; there is none after 15.
    pub fn register(self, r: u32) -> u32
        ensures { result ≡ register self r }
    {
        self.general.get(r as usize).copied().unwrap_or(0)
    }

    // The record with another word in general register r; there is none after 15.
    // By index: with `get_mut` the check doesn't find the proof.
    #[tactic(auto, using(std::proofs::lemmas::List::set_past))]
    fn with_register(self, r: u32, word: u32) -> Guest
        ensures { result ≡ with_register self r word }
    {
        let place = r as usize;
        let mut next = self;
        if place < 16 {
            next.general[place] = word;
        }
        next
    }

    // The record with bits 24-31 of general register r replaced; there is none after 15.
    pub fn with_byte(self, r: u32, byte: u8) -> Guest
        ensures { result ≡ with_byte self r byte }
    {
        self.with_register(r, self.register(r) / 256 * 256 + u32::from(byte))
    }

    // The record with another address in general register r; there is none after 15.
    pub fn with_address(self, r: u32, address: u32) -> Guest
        ensures { result ≡ with_address self r address }
    {
        self.with_register(r, address % 16777216)
    }

    // The record with another condition code.
    pub fn with_code(self, code: u32) -> Guest
        ensures { result ≡ with_code self code }
    {
        let left = self.psw / 70368744177664 * 70368744177664;
        Guest {
            psw: left + u64::from(code % 4) * 17592186044416 + self.psw % 17592186044416,
            ..self
        }
    }

    // Base 0 means zero.
    pub fn base(self, r: u32) -> u32
        ensures { result ≡ base self r }
    {
        if r == 0 {
            return 0;
        }
        self.register(r) % 16777216
    }

    // The address that a second halfword names.
    pub fn effective(self, second: u32) -> u32
        ensures { result ≡ effective self second }
    {
        crate::sum(second % 4096, self.base(second / 4096 % 16))
    }

    // The same in the RX format: an index register is added as a second base.
    pub fn indexed(self, index: u32, second: u32) -> u32
        ensures { result ≡ indexed self index second }
    {
        crate::sum(self.effective(second), self.base(index))
    }

    // With bit 3 of control register 0 one, logical addresses 0 to 511 are protected from operand stores.
    pub fn protects_low(self, address: u32) -> bool
        ensures { result ≡ protects_low self address }
    {
        (self.cr0 / 268435456 % 2 == 1) & (address < 512)
    }

    // Control register 6 bits 0-3 are 10X0: step 1 of STCTL, STNSM, STOSM, RRB and LRA.
    pub fn assists_control(self) -> bool
        ensures { result ≡ assists_control self }
    {
        (self.cr6 / 1073741824 % 4 == 2) & (self.cr6 / 268435456 % 2 != 1)
    }

    // The address of MICBLOK: control register 6 bits 8-28, then three zeros.
    pub fn micblok(self) -> u32
        ensures { result ≡ micblok self }
    {
        self.cr6 / 8 % 2097152 * 8
    }
}
