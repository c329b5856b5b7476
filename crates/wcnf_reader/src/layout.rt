//! The layouts of weighted CNF.

/// Which layout a text has, and what makes a clause of it hard.
#[derive(Clone, Copy, Debug, PartialEq, Eq)]
pub enum ClauseLayout {
    /// The older one, with a header. A clause is hard where there is a TOP, this number, and its
    /// weight is at least TOP.
    Older(Option<u64>),
    /// That of 2022, without a header. A clause is hard where it begins with `h`.
    WithoutHeader,
}
