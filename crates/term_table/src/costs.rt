//! What an assignment costs.
//!
//! No run of the program comes here: it asks for costs of the source.
ghost use Rattle.term_table.specs.Terms.{terms_total};
ghost use Rattle.term_table.specs.Tables.{form_of, table_size};

use crate::table::Table;
use base::{Cost, Costed};
use literal_lists::all_hold;

impl Costed for Table {
    ghost form = { λ t. form_of t.content };

    ghost total = { λ t. terms_total t.content.terms };

    ghost size = { λ t. table_size t.content };

    fn width(&self) -> usize {
        self.width
    }

    /// The sum of the coefficients whose literals are all true. It is never infinite.
    fn cost(&self, x: &[bool]) -> Cost {
        let mut sum: i128 = 0;
        for (literals, coefficient) in self.terms() {
            if all_hold(literals, x) {
                sum += coefficient;
            }
        }
        Cost::Whole(sum)
    }
}
