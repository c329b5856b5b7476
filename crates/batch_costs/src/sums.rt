//! The sums of products, one for each assignment.
ghost use Rattle.std.specs.Prelude.{ℕ, ◌≡◌, ◌+◌, ◌+ℤ◌, ◌<◌, ◌^◌, length, pos, replicate, unsigned_abs};
ghost use Rattle.std.specs.List.{slice_index_or};
ghost use Rattle.base.specs.Sums.{if_so};
ghost use Rattle.problem_form.specs.Problems.{products_total, sum_of};
ghost use Rattle.batch_costs.specs.Assigned.{assignment, is_marked};

use crate::marks::marks_of_all;
use problem_form::{ProductRef, Products};

/// Adds a number to the sums of the assignments that are marked.
#[inline]
pub(crate) fn add_marked(sums: &mut [i128], marks: u64, number: i128)
    requires places { length sums.old ≡ 64 }
    requires small { (k : ℕ) → k < 64
        → unsigned_abs (slice_index_or sums.old k (pos 0)) + unsigned_abs number < 2 ^ 126 }
    ensures { (k : ℕ) → k < 64 → slice_index_or sums.new k (pos 0)
        ≡ slice_index_or sums.old k (pos 0) +ℤ if_so (is_marked marks k) number }
{
    let mut rest = marks;
    while rest != 0 {
        let place = rest.trailing_zeros() as usize;
        sums[place] += number;
        rest &= rest - 1;
    }
}

/// Adds each product to the sums of the assignments that it is true under.
pub(crate) fn add_products(sums: &mut [i128], products: Products<'_>, words: &[u64])
    requires zero { sums.old ≡ replicate 64 (pos 0) }
    requires small { products_total products < 2 ^ 100 }
    ensures { (k : ℕ) → k < 64 → slice_index_or sums.new k (pos 0)
        ≡ sum_of (assignment words.now k) products.entry }
{
    for product in products {
        let ProductRef {
            literals,
            coefficient,
        } = product;
        add_marked(sums, marks_of_all(literals, words), coefficient);
    }
}
