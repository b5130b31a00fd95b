// The types that the rules of document 01 speak of, and their fields. The rules themselves are definitions, in specs/.
#![tactic(auto)]

mod addresses;
mod answer;
mod call;
mod endings;
mod guest;
mod keys;
mod mask_change;
mod record_change;
mod tables;

pub use addresses::{difference, sum};
pub use answer::Answer;
pub use call::Call;
pub use endings::{Ending, Exception};
pub use guest::Guest;
pub use keys::KeyUse;
pub use mask_change::MaskChange;
pub use record_change::RecordChange;
pub use tables::{FieldNumbers, Format, FoundPage, PageSize, SegmentSize, TableFault};
