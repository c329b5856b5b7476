//! The two layouts, and what stands in a text.

/// Which text it is. `Qubo` has a topology word after its name, and weights of bits. `Ising` has
/// none, and fields and couplings of spins.
#[derive(Clone, Copy, Debug, PartialEq, Eq)]
pub enum Layout {
    Qubo,
    Ising,
}

/// How many nodes there are, and how many node entries and couplers are to come.
#[derive(Clone, Copy, Debug, PartialEq, Eq)]
pub struct Counts {
    pub nodes: u64,
    pub entries: u64,
    pub couplers: u64,
}

/// An entry as written: of a node where both numbers are one, and of a coupler elsewhere.
#[derive(Clone, Copy, Debug, PartialEq, Eq)]
pub struct Listed {
    pub first: u64,
    pub second: u64,
    pub weight: i128,
}
