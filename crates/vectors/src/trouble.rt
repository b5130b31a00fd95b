// Why a run stops before its input has ended well.
use std::io;
use std::num::TryFromIntError;
use thiserror::Error;

// What is wrong with the input: docs/VECTORS.md, "What is printed".
#[derive(Clone, Copy, Debug, Error)]
pub(crate) enum Trouble {
    #[error("unknown kind of line")]
    Kind,
    #[error("the input ends here")]
    Ends,
    #[error("not of the form that its kind has")]
    Form,
    #[error("more storage or keys than this program holds")]
    Room,
    #[error("an address or key number that is not there")]
    Place,
    #[error("a call before its storage and record")]
    Early,
    #[error("wrong checksum: the text is damaged")]
    Checksum,
    #[error("wrong number of calls at the end")]
    Calls,
    #[error("text after the end")]
    After,
}

// A number that its field has no room for. None comes: two digits fit a byte, and four a halfword.
impl From<TryFromIntError> for Trouble {
    fn from(_e: TryFromIntError) -> Trouble {
        Trouble::Form
    }
}

// The input is not of its form, or reading or printing failed.
#[derive(Debug, Drop, Error)]
#[error(transparent)]
pub(crate) enum Stop {
    Trouble(#[from] Trouble),
    Io(#[from] io::Error),
}
