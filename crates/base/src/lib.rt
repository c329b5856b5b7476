//! What every crate speaks of: costs, forms that have them, figures, lists and lists of lists, the
//! want of memory, and the laws of whole numbers and of sums.
#![tactic(auto)]

mod costed;
mod costs;
mod items;
mod laws;
mod lists;
mod unit;

pub use costed::Costed;
pub use costs::{Cost, Figures, NoMemory};
pub use items::Items;
pub use laws::{laws_of_products, laws_of_totals};
pub use lists::Lists;
pub use unit::UnitChoice;
