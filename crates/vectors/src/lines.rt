// The lines of the input: docs/VECTORS.md, "A file of calls".
ghost use Rattle.std.specs.Prelude.{◌≤◌};

use crate::fields::Fields;
use crate::trouble::Trouble;
use rules::Guest;

// What follows the first character of the longest line.
pub(crate) const LONGEST: usize = 190;

// A line's kind.
#[derive(Clone, Copy)]
pub(crate) enum Kind {
    Comment,
    Storage,
    Word,
    Byte,
    Keys,
    Key,
    Record,
    Call,
    End,
}

// By the first character.
impl TryFrom<u8> for Kind {
    type Error = Trouble;

    fn try_from(first: u8) -> Result<Kind, Trouble> {
        match first {
            b'#' => Ok(Kind::Comment),
            b's' => Ok(Kind::Storage),
            b'w' => Ok(Kind::Word),
            b'b' => Ok(Kind::Byte),
            b'q' => Ok(Kind::Keys),
            b'k' => Ok(Kind::Key),
            b'r' => Ok(Kind::Record),
            b'a' => Ok(Kind::Call),
            b'e' => Ok(Kind::End),
            _ => Err(Trouble::Kind),
        }
    }
}

impl Kind {
    // How many characters follow the first.
    pub(crate) fn length(self) -> usize
        ensures { result ≤ 190 }
    {
        match self {
            Kind::Comment => 79,
            Kind::Storage | Kind::End => 19,
            Kind::Word | Kind::Keys | Kind::Call => 17,
            Kind::Byte | Kind::Key => 11,
            Kind::Record => LONGEST,
        }
    }

    // How many of them the checksum covers: all but the checksum itself.
    pub(crate) fn covered(self) -> usize {
        match self {
            Kind::Call => 7,
            Kind::End => 9,
            _ => LONGEST,
        }
    }
}

// What a line says.
pub(crate) enum Line<'a> {
    // the text after the `#`
    Comment(&'a [u8]),
    // a new storage, of so many bytes and keys
    Storage {
        size: u32,
        keys: u32,
    },
    // four bytes of storage from the address on, or the one there
    Word {
        address: u32,
        word: u32,
    },
    Byte {
        address: u32,
        byte: u8,
    },
    // four keys from this number on, or the one with it
    Keys {
        number: u32,
        keys: u32,
    },
    Key {
        number: u32,
        key: u8,
    },
    Record(Guest),
    Call {
        first: u16,
        installed: bool,
        sum: u32,
    },
    End {
        calls: u32,
        sum: u32,
    },
}

// The line of this kind, by what follows its first character.
pub(crate) fn parse(kind: Kind, text: &[u8]) -> Result<Line<'_>, Trouble> {
    let mut rest = Fields::new(text.strip_suffix(b"\n").ok_or(Trouble::Form)?);
    match kind {
        Kind::Comment => Ok(Line::Comment(text)),
        Kind::Storage => Ok(Line::Storage {
            size: rest.number(8)?,
            keys: rest.number(8)?,
        }),
        Kind::Word => Ok(Line::Word {
            address: rest.number(6)?,
            word: rest.number(8)?,
        }),
        Kind::Byte => Ok(Line::Byte {
            address: rest.number(6)?,
            byte: u8::try_from(rest.number(2)?)?,
        }),
        Kind::Keys => Ok(Line::Keys {
            number: rest.number(6)?,
            keys: rest.number(8)?,
        }),
        Kind::Key => Ok(Line::Key {
            number: rest.number(6)?,
            key: u8::try_from(rest.number(2)?)?,
        }),
        Kind::Record => Ok(Line::Record(record(&mut rest)?)),
        Kind::Call => call(&mut rest),
        Kind::End => Ok(Line::End {
            calls: rest.number(8)?,
            sum: rest.number(8)?,
        }),
    }
}

// The first halfword, whether the expanded assist is installed, and the checksum.
fn call<'a>(rest: &mut Fields<'_>) -> Result<Line<'a>, Trouble> {
    let first = u16::try_from(rest.number(4)?)?;
    let installed = match rest.number(1)? {
        0 => false,
        1 => true,
        _ => return Err(Trouble::Form),
    };
    Ok(Line::Call {
        first,
        installed,
        sum: rest.number(8)?,
    })
}

// PSW bits 0-31, PSW bits 32-63, general registers 0 to 15, control registers 0, 1 and 6.
fn record(rest: &mut Fields<'_>) -> Result<Guest, Trouble> {
    let high = u64::from(rest.number(8)?);
    let low = u64::from(rest.number(8)?);
    let mut general = [0u32; 16];
    for register in general.iter_mut() {
        *register = rest.number(8)?;
    }
    Ok(Guest {
        psw: high << 32 | low,
        general,
        cr0: rest.number(8)?,
        cr1: rest.number(8)?,
        cr6: rest.number(8)?,
    })
}
