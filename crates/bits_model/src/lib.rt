//! The model that is written: its entries and chains, its energy, how a state of it is read, and what
//! it promises of a source. What base and form_steps have of costs and steps is passed on.
#![tactic(auto)]

mod chains;
mod coupler_entries;
mod couplers;
mod energy;
mod entries;
mod laws;
mod nodes;
mod output;
mod pair_numbers;
mod reading_off;
mod row;
mod row_energies;
mod weights;

pub use base::{Cost, Costed, Figures, Items, NoMemory, UnitChoice};
pub use chains::ChainList;
pub use coupler_entries::CouplerEntries;
pub use couplers::CouplerList;
pub use energy::{bit_at, bits_energy, couplers_energy, times_spin, total_energy};
pub use entries::{Counts, Entries, EntryList};
pub use form_steps::{
    BitsLink, Guard, Guarded, Layer, Lowered, Reduced, Then, ThenLink, relations_compose,
};
pub use laws::{laws_of_pairs, laws_of_rows};
pub use nodes::{NodeEntries, NodeWeights};
pub use output::{Entry, Graph, Kind, OutputModel};
pub use pair_numbers::pair_number;
pub use reading_off::majority;
pub use row::Row;
pub use row_energies::energy_of;
pub use weights::{WeightList, divide_weights};
