//! The tokens of a text, the numbers in it, and the steps that readers are made of.
//!
//! A text goes in as bytes, and out come its tokens, each with its place and its line. Or it goes in
//! piece by piece, and out come its words alone, packed. A reader takes them one by one, by steps
//! that give a value or the first fault.
#![tactic(auto)]

mod cutting;
mod faults;
mod laws;
mod lexing;
mod numbers;
mod packed;
mod putting;
mod steps;
mod token;
mod token_text;
mod words;

pub use cutting::{blank_len, is_blank, line_len, push_line, tokens, word_len};
pub use faults::{TextAnswer, TextFault, TextKind};
pub use laws::laws_of_numbers;
pub use lexing::{Lexer, cut_words};
pub use numbers::{digits, number, push_number};
pub use packed::TokenList;
pub use putting::put_number;
pub use steps::{fault, integer_word, kind_of_digits, natural_word, next_word};
pub use token::{Style, Token};
pub use token_text::{ByteList, TokenText};
pub use words::{WordRef, Words};
