//! Lines of certificates, which lie flat.
ghost use Rattle.std.specs.Prelude.{◌≡◌, ◌<◌, ◌++◌, ◌∷◌, [], OnOk, OnErr, length, slice_get, Some};

use base::NoMemory;
use literal_lists::{Literal, LiteralList, Literals};
use problem_form::{ProductList, ProductRef};
use std::alloc::Global;
use std::marker::Model;

/// A product of literals with its coefficient, and the line of the text that it stands on.
#[derive(Drop)]
pub struct Line {
    pub literals: LiteralList,
    pub coefficient: i128,
    pub line: u64,
}

/// A line that is lent from a list. Contracts see the line.
#[derive(Drop)]
pub struct LineRef<'a> {
    pub literals: Literals<'a>,
    pub coefficient: i128,
    pub line: u64,
}

impl<'a> Model for LineRef<'a> {
    ghost use Rattle.posiform_check.specs.declared.lines.Line.{Line};

    ghost Value = { Line };

    ghost view = { λ a. record {
      literals = a.literals;
      coefficient = a.coefficient;
      line = a.line;
    } };
}

/// Lines, which contracts see as a list. A line takes no memory of its own.
#[derive(Drop)]
pub struct LineList {
    products: ProductList,
    numbers: Vec<u64>,
}

impl Model for LineList {
    ghost use Rattle.std.specs.Prelude.{◌≡◌, List, length};
    ghost use Rattle.problem_form.specs.WeighedLists.{zip_with};
    ghost use Rattle.posiform_check.specs.declared.lines.Line.{Line};
    ghost use Rattle.posiform_check.specs.Lines.{line_of};

    ghost Value = { List Line };

    ghost view = { λ a. zip_with line_of a.products a.numbers.items };

    ghost invariant = { λ a. length a.products ≡ length a.numbers.items };
}

impl LineList {
    /// No lines. It takes no memory.
    pub fn empty(alloc: Global) -> LineList
        ensures { result ≡ [] }
    {
        LineList {
            products: ProductList::empty(alloc),
            numbers: Vec::new(alloc),
        }
    }

    /// How many lines there are.
    pub fn len(&self) -> usize
        ensures { result ≡ length self.now }
    {
        self.numbers.len()
    }

    /// The line at a place.
    pub fn at(&self, i: usize) -> LineRef<'_>
        requires { i < length self.now }
        ensures { slice_get self.now i ≡ Some result }
    {
        let ProductRef {
            literals,
            coefficient,
        } = self.products.at(i);
        LineRef {
            literals,
            coefficient,
            line: self.numbers[i],
        }
    }

    /// All lines, one after another.
    pub fn iter(&self) -> Lines<'_>
        ensures { result ≡ self.now }
    {
        Lines {
            list: self,
            next: 0,
        }
    }

    /// Appends a line. Where memory is refused the list stays as it was.
    pub fn push(
        &mut self,
        literals: &[Literal],
        coefficient: i128,
        line: u64,
    ) -> Result<(), NoMemory>
        ensures pushed { OnOk result (self.new ≡ self.old
            ++ record { literals = literals.now; coefficient = coefficient; line = line } ∷ []) }
        ensures unchanged { OnErr result (self.new ≡ self.old) }
    {
        let count = self.numbers.len();
        self.numbers.push(line)?;
        if self.products.push(literals, coefficient).is_err() {
            self.numbers.truncate(count);
            return Err(NoMemory);
        }
        Ok(())
    }
}

/// Lines of a list, one after another. Contracts see the list of those that are left.
#[derive(Drop)]
pub struct Lines<'a> {
    list: &'a LineList,
    next: usize,
}

impl<'a> Model for Lines<'a> {
    ghost use Rattle.std.specs.Prelude.{List, drop};
    ghost use Rattle.posiform_check.specs.declared.lines.Line.{Line};

    ghost Value = { List Line };

    ghost view = { λ a. drop a.next a.list.now };
}

impl<'a> Iterator for Lines<'a> {
    type Item = LineRef<'a>;

    ghost use Rattle.std.specs.Iterator.{YieldsFirst, item_count};

    ghost next_gives = { YieldsFirst (λ s. s) };

    ghost remaining = { item_count (λ s. s) };

    fn next(&mut self) -> Option<LineRef<'a>> {
        if self.next >= self.list.len() {
            return None;
        }
        let line = self.list.at(self.next);
        self.next += 1;
        Some(line)
    }
}
