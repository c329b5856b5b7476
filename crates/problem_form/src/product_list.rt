//! Products that lie flat.
ghost use Rattle.std.specs.Prelude.{◌≡◌, ◌<◌, ◌≤◌, ◌^◌, ◌++◌, ◌∷◌, [], All, OnOk, OnErr, length, map, neg_ℤ, unsigned_abs, slice_get, slice_range, Some};
ghost use Rattle.problem_form.specs.Problems.{negated};

use base::NoMemory;
use literal_lists::{Literal, LiteralLists, Literals};
use std::alloc::Global;
use std::marker::Model;

/// A product that is lent from a list. Contracts see the product.
#[derive(Drop)]
pub struct ProductRef<'a> {
    pub literals: Literals<'a>,
    pub coefficient: i128,
}

impl<'a> Model for ProductRef<'a> {
    ghost use Rattle.problem_form.specs.declared.terms.Product.{Product};

    ghost Value = { Product };

    ghost view = { λ a. record { literals = a.literals; coefficient = a.coefficient } };
}

fn negative(number: i128) -> i128
    requires { unsigned_abs number < 2 ^ 127 }
    ensures { result ≡ neg_ℤ number }
{
    -number
}

/// Turns the sign of each number.
fn negate_all(numbers: &mut Vec<i128>)
    requires { All (λ z. unsigned_abs z < 2 ^ 127) numbers.old.items }
    ensures { numbers.new.items ≡ map neg_ℤ numbers.old.items }
{
    for number in numbers.iter_mut() {
        *number = negative(*number);
    }
}

/// The numbers from a place to before another.
#[inline(always)]
fn lent_numbers(numbers: &[i128], start: usize, end: usize) -> &[i128]
    requires ordered { start ≤ end }
    requires within { end ≤ length numbers.now }
    ensures { result.now ≡ slice_range numbers.now start end }
{
    &numbers[start..end]
}

/// Products, which contracts see as a list. A product takes no memory of its own.
#[derive(Drop)]
pub struct ProductList {
    lists: LiteralLists,
    coefficients: Vec<i128>,
}

impl Model for ProductList {
    ghost use Rattle.std.specs.Prelude.{◌≡◌, List, length};
    ghost use Rattle.problem_form.specs.declared.terms.Product.{Product};

    ghost Value = { List Product };

    ghost use Rattle.problem_form.specs.WeighedLists.{product_of, zip_with};

    ghost view = { λ a. zip_with product_of a.lists a.coefficients.items };

    ghost invariant = { λ a. length a.lists ≡ length a.coefficients.items };
}

impl ProductList {
    /// No products. It takes no memory.
    pub fn empty(alloc: Global) -> ProductList
        ensures { result ≡ [] }
    {
        ProductList {
            lists: LiteralLists::empty(alloc),
            coefficients: Vec::new(alloc),
        }
    }

    /// How many products there are.
    pub fn len(&self) -> usize
        ensures { result ≡ length self.now }
    {
        self.coefficients.len()
    }

    /// The product at a place.
    pub fn at(&self, i: usize) -> ProductRef<'_>
        requires { i < length self.now }
        ensures { slice_get self.now i ≡ Some result }
    {
        ProductRef {
            literals: self.lists.at(i),
            coefficient: self.coefficients[i],
        }
    }

    /// All products, one after another.
    pub fn iter(&self) -> Products<'_>
        ensures { result ≡ self.now }
    {
        self.part(0, self.len())
    }

    /// The products from a place to before another.
    pub(crate) fn part(&self, start: usize, end: usize) -> Products<'_>
        requires ordered { start ≤ end }
        requires within { end ≤ length self.now }
        ensures { result ≡ slice_range self.now start end }
    {
        Products {
            list: self,
            next: start,
            end,
        }
    }

    /// The coefficients of the products from a place to before another.
    #[inline(always)]
    fn lent_coefficients(&self, start: usize, end: usize) -> &[i128]
        requires ordered { start ≤ end }
        requires within { end ≤ length self.now }
        ensures { result.now ≡ map (λ t. t.coefficient) (slice_range self.now start end) }
    {
        lent_numbers(&self.coefficients, start, end)
    }

    /// Takes all products out. The memory is kept for others.
    pub fn clear(&mut self)
        ensures { self.new ≡ [] }
    {
        self.lists.clear();
        self.coefficients.clear();
    }

    /// Turns the sign of each coefficient.
    pub fn negate(&mut self)
        requires { All (λ t. unsigned_abs t.coefficient < 2 ^ 127) self.old }
        ensures { self.new ≡ map negated self.old }
    {
        negate_all(&mut self.coefficients);
    }

    /// Appends a product. Where memory is refused the list stays as it was.
    #[inline(always)]
    pub fn push(&mut self, literals: &[Literal], coefficient: i128) -> Result<(), NoMemory>
        ensures pushed { OnOk result (self.new
            ≡ self.old ++ record { literals = literals.now; coefficient = coefficient } ∷ []) }
        ensures unchanged { OnErr result (self.new ≡ self.old) }
    {
        let count = self.coefficients.len();
        self.coefficients.push(coefficient)?;
        if self.lists.push(literals).is_err() {
            self.coefficients.truncate(count);
            return Err(NoMemory);
        }
        Ok(())
    }
}

/// Products of a list, one after another. Contracts see the list of those that are left.
#[derive(Drop)]
pub struct Products<'a> {
    list: &'a ProductList,
    next: usize,
    end: usize,
}

impl<'a> Model for Products<'a> {
    ghost use Rattle.std.specs.Prelude.{◌≤◌, List, length, slice_range};
    ghost use Rattle.problem_form.specs.declared.terms.Product.{Product};

    ghost Value = { List Product };

    ghost view = { λ a. slice_range a.list.now a.next a.end };

    ghost invariant = { λ a. (a.next ≤ a.end) × (a.end ≤ length a.list.now) };
}

impl<'a> Products<'a> {
    /// How many are left.
    pub fn len(&self) -> usize
        ensures { result ≡ length self.now }
    {
        self.end - self.next
    }

    /// The coefficients of those that are left.
    #[inline(always)]
    pub fn coefficients(&self) -> &'a [i128]
        ensures { result.now ≡ map (λ t. t.coefficient) self.now }
    {
        self.list.lent_coefficients(self.next, self.end)
    }

    /// Those that are left, for a walk of their own.
    pub fn again(&self) -> Products<'a>
        ensures { result ≡ self.now }
    {
        Products {
            list: self.list,
            next: self.next,
            end: self.end,
        }
    }
}

impl<'a> Iterator for Products<'a> {
    type Item = ProductRef<'a>;

    ghost use Rattle.std.specs.Iterator.{YieldsFirst, item_count};

    ghost next_gives = { YieldsFirst (λ s. s) };

    ghost remaining = { item_count (λ s. s) };

    fn next(&mut self) -> Option<ProductRef<'a>> {
        if self.next >= self.end {
            return None;
        }
        let product = self.list.at(self.next);
        self.next += 1;
        Some(product)
    }
}
