//! Literals, lists of them that lie flat, and literals as they are kept.
#![tactic(auto)]

mod literal;
mod literal_lists;
mod literals;
mod narrow_lists;
mod sets;
mod short_set;
mod wide_lists;

pub use literal::{Literal, LiteralList, all_hold};
pub use literal_lists::LiteralLists;
pub use literals::Literals;
pub use narrow_lists::{append_codes, code_of};
pub use sets::{clashes, make_set};
pub use short_set::ShortSet;
pub use wide_lists::WideLists;
