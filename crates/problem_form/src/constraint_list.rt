//! Constraints that lie flat.
ghost use Rattle.std.specs.Prelude.{◌≡◌, ◌<◌, ◌^◌, ◌++◌, ◌∷◌, [], OnOk, OnErr, length, slice_get, Some};
ghost use Rattle.problem_form.specs.NormalForm.{normal_constraint};
ghost use Rattle.problem_form.specs.Problems.{constraint_total};
ghost use Rattle.problem_form.specs.WeighedLists.{marked};

use crate::product_list::{ProductList, Products};
use crate::products::{keep_products, normal_bound};
use crate::terms::Constraint;
use base::NoMemory;
use literal_lists::Literal;
use std::alloc::Global;
use std::marker::Model;

/// A constraint that is lent from a list. Contracts see the constraint.
#[derive(Drop)]
pub struct ConstraintRef<'a> {
    pub products: Products<'a>,
    pub bound: i128,
    pub exact: bool,
}

impl<'a> Model for ConstraintRef<'a> {
    ghost use Rattle.problem_form.specs.declared.terms.Constraint.{Constraint};

    ghost Value = { Constraint };

    ghost view = { λ a. record { products = a.products; bound = a.bound; exact = a.exact } };
}

/// A constraint whose products lie among those of others, from a place to before another.
#[derive(Clone, Copy)]
pub(crate) struct Row {
    pub(crate) start: usize,
    pub(crate) end: usize,
    pub(crate) bound: i128,
    pub(crate) exact: bool,
}

/// Leaves the rows that are marked, in their places' order. It needs no memory.
fn keep_rows(rows: &mut Vec<Row>, kept: &[bool])
    requires { length kept.now ≡ length rows.old.items }
    ensures { rows.new.items ≡ marked kept.now rows.old.items }
{
    let mut left = 0;
    for i in 0..rows.len() {
        if kept[i] {
            rows[left] = rows[i];
            left += 1;
        }
    }
    rows.truncate(left);
}

/// Constraints in normal form, which contracts see as a list. A constraint takes no memory of its
/// own. Where memory was refused for one, some of its products may stay between those of others,
/// and no constraint has them.
#[derive(Drop)]
pub struct ConstraintList {
    products: ProductList,
    rows: Vec<Row>,
    /// The literals that are being put in order.
    literals: Vec<Literal>,
}

impl Model for ConstraintList {
    ghost use Rattle.std.specs.Prelude.{All, List, length, map};
    ghost use Rattle.problem_form.specs.declared.terms.Constraint.{Constraint};

    ghost Value = { List Constraint };

    ghost use Rattle.problem_form.specs.ConstraintRows.{constraint_of, LiesWithin};

    ghost view = { λ a. map (constraint_of a.products) a.rows.items };

    ghost invariant = { λ a. All (LiesWithin (length a.products)) a.rows.items };
}

impl ConstraintList {
    /// No constraints. It takes no memory.
    pub fn empty(alloc: Global) -> ConstraintList
        ensures { result ≡ [] }
    {
        ConstraintList {
            products: ProductList::empty(alloc),
            rows: Vec::new(alloc),
            literals: Vec::new(alloc),
        }
    }

    /// How many constraints there are.
    pub fn len(&self) -> usize
        ensures { result ≡ length self.now }
    {
        self.rows.len()
    }

    /// The constraint at a place.
    pub fn at(&self, i: usize) -> ConstraintRef<'_>
        requires { i < length self.now }
        ensures { slice_get self.now i ≡ Some result }
    {
        let row = self.rows[i];
        ConstraintRef {
            products: self.products.part(row.start, row.end),
            bound: row.bound,
            exact: row.exact,
        }
    }

    /// All constraints, one after another.
    pub fn iter(&self) -> Constraints<'_>
        ensures { result ≡ self.now }
    {
        Constraints {
            list: self,
            next: 0,
        }
    }

    /// Leaves the constraints that are marked, in their order. It needs no memory, and gives none of
    /// their products back.
    pub fn keep_marked(&mut self, kept: &[bool])
        requires { length kept.now ≡ length self.old }
        ensures { self.new ≡ marked kept.now self.old }
    {
        keep_rows(&mut self.rows, kept);
    }

    /// Appends a constraint as written in normal form. Where memory is refused the list stays as it
    /// was.
    #[inline(always)]
    pub fn push_normal(&mut self, constraint: &Constraint) -> Result<(), NoMemory>
        requires { constraint_total constraint.now < 2 ^ 100 }
        ensures pushed { OnOk result
            (self.new ≡ self.old ++ normal_constraint constraint.now ∷ []) }
        ensures unchanged { OnErr result (self.new ≡ self.old) }
    {
        let start = self.products.len();
        keep_products(&mut self.products, &constraint.products, &mut self.literals)?;
        let row = Row {
            start,
            end: self.products.len(),
            bound: normal_bound(constraint),
            exact: constraint.exact,
        };
        self.rows.push(row)?;
        Ok(())
    }
}

/// Constraints of a list, one after another. Contracts see the list of those that are left.
#[derive(Drop)]
pub struct Constraints<'a> {
    list: &'a ConstraintList,
    next: usize,
}

impl<'a> Model for Constraints<'a> {
    ghost use Rattle.std.specs.Prelude.{List, drop};
    ghost use Rattle.problem_form.specs.declared.terms.Constraint.{Constraint};

    ghost Value = { List Constraint };

    ghost view = { λ a. drop a.next a.list.now };
}

impl<'a> Iterator for Constraints<'a> {
    type Item = ConstraintRef<'a>;

    ghost use Rattle.std.specs.Iterator.{YieldsFirst, item_count};

    ghost next_gives = { YieldsFirst (λ s. s) };

    ghost remaining = { item_count (λ s. s) };

    fn next(&mut self) -> Option<ConstraintRef<'a>> {
        if self.next >= self.list.len() {
            return None;
        }
        let constraint = self.list.at(self.next);
        self.next += 1;
        Some(constraint)
    }
}
