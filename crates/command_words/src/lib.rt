//! What a list of words asks for: a notice, or a command, its format, target and keys, and the
//! files' names.
#![tactic(auto)]

mod commands;
mod keys;
mod laws;
mod name;
mod names;
mod notices;
mod words;

pub use commands::{
    Ask, Board, Bound, ChainStrength, Command, Format, Ground, Make, NodeModel, Notice, OfState,
    Origin, Request, Slack, Target, most_of,
};
pub use laws::{laws_of_words, positions_tell_the_first};
pub use name::Name;
pub use names::{Which, name_of, named};
pub use notices::notice_text;
pub use words::request;
