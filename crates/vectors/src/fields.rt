// Fields of a line: a space, then a number in lower-case hexadecimal digits.
ghost use Rattle.std.specs.Prelude.{IfSome, ◌<◌, ◌≤◌};

use crate::trouble::Trouble;

// What is left of a line.
#[derive(Drop)]
pub(crate) struct Fields<'a> {
    rest: &'a [u8],
}

impl<'a> Fields<'a> {
    pub(crate) fn new(rest: &'a [u8]) -> Fields<'a> {
        Fields { rest }
    }

    // The number of the next field: with more digits than eight it would lose the first.
    pub(crate) fn number(&mut self, digits: usize) -> Result<u32, Trouble>
        requires { digits ≤ 8 }
    {
        let text = self.rest.strip_prefix(b" ").ok_or(Trouble::Form)?;
        let (number, rest) = text.split_at_checked(digits).ok_or(Trouble::Form)?;
        self.rest = rest;
        number
            .iter()
            .try_fold(0, |value, &c| Some(value << 4 | digit(c)?))
            .ok_or(Trouble::Form)
    }
}

// The value of a digit's character. `char::to_digit` takes capitals too.
fn digit(c: u8) -> Option<u32>
    ensures { IfSome result (λ d. d < 16) }
{
    match c {
        b'0'..=b'9' => Some(u32::from(c - b'0')),
        b'a'..=b'f' => Some(u32::from(c - b'a' + 10)),
        _ => None,
    }
}
