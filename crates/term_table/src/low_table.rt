//! Tables of terms that have at most two literals.
//!
//! No run of the program has one: quadratization makes the form of a table at once.
ghost use Rattle.std.specs.Prelude.{◌≡◌, ◌<◌, length, Any, IfOk, IfErr, OnOk, OnErr};
ghost use Rattle.std.specs.Bool.{OnTrue, OnFalse};
ghost use Rattle.term_table.specs.Terms.{terms_total};
ghost use Rattle.term_table.specs.Tables.{form_of, table_size, IsLow, IsTable};

use crate::table::Table;
use crate::terms::Terms;
use base::{Cost, Costed};
use std::marker::Model;

/// A table without terms of degree 3 or more.
#[derive(Drop)]
pub struct LowTable {
    pub table: Table,
}

impl Model for LowTable {
    ghost use Rattle.term_table.specs.Tables.{KeptTable, IsLow};

    ghost Value = { KeptTable };

    ghost view = { λ t. t.table };

    ghost invariant = { λ t. IsLow t.table.content };
}

/// Whether no term has more than two literals.
fn is_low(table: &Table) -> bool
    ensures low { OnTrue result (IsLow table.now.content) }
    ensures high { OnFalse result (Any (λ u. 2 < length u.0) table.now.content.terms) }
{
    for (literals, _) in table.terms() {
        if literals.len() > 2 {
            return false;
        }
    }
    true
}

/// The table where it is low, and the table as an error elsewhere. Takes no memory.
pub fn low(table: Table) -> Result<LowTable, Table>
    ensures low { IfOk result (λ t. t ≡ table) }
    ensures within { OnOk result (IsLow table.content) }

    ensures high { IfErr result (λ t. t ≡ table) }
    ensures above { OnErr result (Any (λ u. 2 < length u.0) table.content.terms) }
{
    if is_low(&table) {
        Ok(LowTable { table })
    } else {
        Err(table)
    }
}

impl LowTable {
    /// The terms in order. Takes no memory.
    pub fn terms(&self) -> Terms<'_>
        ensures terms { result ≡ self.now.content.terms }
        ensures kept { IsTable self.now.content }
        ensures low { IsLow self.now.content }
    {
        self.table.terms()
    }
}

impl Costed for LowTable {
    ghost form = { λ t. form_of t.content };

    ghost total = { λ t. terms_total t.content.terms };

    ghost size = { λ t. table_size t.content };

    fn width(&self) -> usize {
        self.table.width()
    }

    fn cost(&self, x: &[bool]) -> Cost {
        self.table.cost(x)
    }
}
