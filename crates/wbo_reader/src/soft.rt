//! Soft constraints that lie flat.
ghost use Rattle.std.specs.Prelude.{◌≡◌, ◌<◌, ◌^◌, ◌++◌, ◌∷◌, [], length, slice_get, Some, OnOk, OnErr};
ghost use Rattle.problem_form.specs.NormalForm.{normal_constraint};
ghost use Rattle.problem_form.specs.Problems.{constraint_total};
ghost use Rattle.wbo_reader.specs.SoftLists.{soft_of};

use base::{Items, NoMemory};
use problem_form::{Constraint, ConstraintList, ConstraintRef};
use std::alloc::Global;
use std::marker::Model;

/// A constraint that costs its weight where it fails.
#[derive(Drop)]
pub struct Soft {
    pub weight: u64,
    pub constraint: Constraint,
}

/// A soft constraint that is lent from a list. Contracts see the soft constraint.
#[derive(Drop)]
pub struct SoftRef<'a> {
    pub weight: u64,
    pub constraint: ConstraintRef<'a>,
}

impl<'a> Model for SoftRef<'a> {
    ghost use Rattle.wbo_reader.specs.declared.soft.Soft.{Soft};

    ghost Value = { Soft };

    ghost view = { λ a. record { weight = a.weight; constraint = a.constraint } };
}

/// Soft constraints, which contracts see as a list. A constraint takes no memory of its own.
#[derive(Drop)]
pub struct SoftList {
    constraints: ConstraintList,
    weights: Vec<u64>,
}

impl Model for SoftList {
    ghost use Rattle.std.specs.Prelude.{◌≡◌, List, length};
    ghost use Rattle.wbo_reader.specs.declared.soft.Soft.{Soft};

    ghost Value = { List Soft };

    ghost use Rattle.problem_form.specs.WeighedLists.{zip_with};
    ghost use Rattle.wbo_reader.specs.SoftLists.{soft_of};

    ghost view = { λ a. zip_with soft_of a.constraints a.weights.items };

    ghost invariant = { λ a. length a.constraints ≡ length a.weights.items };
}

impl SoftList {
    /// No soft constraints. It takes no memory.
    pub fn empty(alloc: Global) -> SoftList
        ensures { result ≡ [] }
    {
        SoftList {
            constraints: ConstraintList::empty(alloc),
            weights: Vec::new(alloc),
        }
    }

    /// How many soft constraints there are.
    pub fn len(&self) -> usize
        ensures { result ≡ length self.now }
    {
        self.weights.len()
    }

    /// The soft constraint at a place.
    pub fn at(&self, i: usize) -> SoftRef<'_>
        requires { i < length self.now }
        ensures { slice_get self.now i ≡ Some result }
    {
        SoftRef {
            weight: self.weights[i],
            constraint: self.constraints.at(i),
        }
    }

    /// Appends a constraint as written, in normal form, with its weight. Where memory is refused
    /// the list stays as it was.
    pub fn push(&mut self, constraint: &Constraint, weight: u64) -> Result<(), NoMemory>
        requires { constraint_total constraint.now < 2 ^ 100 }
        ensures pushed { OnOk result (self.new
            ≡ self.old ++ soft_of (normal_constraint constraint.now) weight ∷ []) }
        ensures unchanged { OnErr result (self.new ≡ self.old) }
    {
        let count = self.weights.len();
        self.weights.push(weight)?;
        if self.constraints.push_normal(constraint).is_err() {
            self.weights.truncate(count);
            return Err(NoMemory);
        }
        Ok(())
    }
}

/// For each constraint of a text whether it is soft, which contracts see as a list.
pub type OrderList = Items<bool>;
