//! A token, and the styles of text that are cut into tokens.

/// How the lines of a text are cut.
///
/// In each style a blank is a space, a tab or a carriage return, and a comment is a whole line.
/// `Plain`: each word between blanks is a token, and a line whose first byte that is no blank is
/// `c` is a comment. `Opb`: a line whose first byte that is no blank is `*` is a comment, and a word
/// is cut further. Each `;` is a token of its own, and so is each longest run of `<`, `=` and `>`. A
/// `:` ends its token and belongs to it. `Wbo`: as `Opb`, and each `[` and each `]` is a token of its
/// own.
#[derive(Clone, Copy, Debug, PartialEq, Eq)]
pub enum Style {
    Plain,
    Opb,
    Wbo,
}

/// A token of a text: the place of its first byte, the place after its last, and its line.
#[derive(Clone, Copy, Debug, PartialEq, Eq)]
pub struct Token {
    pub start: usize,
    pub end: usize,
    pub line: u64,
}
