//! Products of three, four and five variables at all states, through new nodes, bits and spins.
ghost use Rattle.std.specs.Prelude.{◌≤◌, length};
ghost use Rattle.term_table.specs.Terms.{terms_size, terms_total};

use crate::given::{A, B, C, D, E, NOT_B, table_of};
use crate::layers::keeps_costs;
use base::NoMemory;
use form_steps::{Layer, Then};
use ising_form::ToSpins;
use literal_lists::Literal;
use monomial_layer::Monomials;
use quad_form::Flatten;
use std::alloc::Global;
use std::test::Fail;
use term_table::Table;

/// New nodes, multiplying out and spins.
type Layers = Then<Then<Monomials, Flatten>, ToSpins>;

fn layers() -> Layers {
    Then {
        first: Then {
            first: Monomials,
            second: Flatten,
        },
        second: ToSpins,
    }
}

/// Whether these layers keep the costs of a table.
fn is_kept(alloc: Global, source: &Table) -> Result<bool, NoMemory>
    requires width { source.now.content.width ≤ 5 }
    requires total { terms_total source.now.content.terms ≤ 100000 }
    requires size { terms_size source.now.content.terms ≤ 2500 }
{
    let made = layers().lower(alloc, source)?;
    // the nodes of a form of spins are numbered in 32 bits
    let _fields = made.target.fields.as_slice();
    keeps_costs(alloc, &layers(), source, &made)
}

/// The same of a product of all variables of its table.
fn is_product_kept(alloc: Global, literals: &[Literal], coefficient: i128) -> Result<bool, NoMemory>
    requires { length literals.now ≤ 5 }
{
    let source = table_of(alloc, literals.len(), &[(literals, coefficient)])?;
    is_kept(alloc, &source)
}

const PRODUCTS: [(&[Literal], i128); 7] = [
    (&[A, NOT_B], 7),
    (&[A, B, C], -5),
    (&[A, B, C], 5),
    (&[A, NOT_B, C], 5),
    (&[A, B, C, D], -2),
    (&[A, B, C, D], 1),
    (&[A, B, C, D, E], 1),
];

#[test]
fn all_states_keep_the_cost(rt: HostRuntime) -> Result<(), Fail> {
    for (literals, coefficient) in PRODUCTS {
        assert!(rt; literals.len() <= 5);
        let kept = is_product_kept(rt.alloc(), literals, coefficient)?;
        assert!(rt; kept, "{literals:?} {coefficient}");
    }
    Ok(())
}
