//! Numbers and marks of literals, which lie at the places of their codes.
ghost use Rattle.std.specs.Prelude.{◌≡◌, ◌+◌, ◌-◌, ◌*◌, ◌<◌, ◌≤◌, ◌^◌, ◌&&◌, ◌||◌, length, not, true, false, if◌then◌else◌};
ghost use Rattle.literal_lists.specs.declared.literal.Literal.{Literal};
ghost use Rattle.literal_lists.specs.Codes.{code_of};
ghost use Rattle.local_penalties.specs.Hurting.{meets};
ghost use Rattle.local_penalties.specs.Tallies.{AreWithin, each_once, is_marked, number_of};
ghost use Rattle.problem_form.specs.Wanted.{turned_literal};

use problem_form::{Literal, Literals};

/// The place of a literal or, where it is turned, of its complement.
#[inline(always)]
pub(crate) fn place_of(literal: Literal, turned: bool) -> usize
    requires { literal.variable < 2 ^ 62 }
    ensures { result ≡ code_of (turned_literal turned literal) }
{
    let variable = literal.variable as usize;
    if literal.negated == turned {
        2 * variable
    } else {
        2 * variable + 1
    }
}

/// Adds a number to those of literals, and takes another from them.
pub(crate) fn change_each(
    numbers: &mut [u128],
    literals: Literals<'_>,
    turned: bool,
    plus: u128,
    minus: u128,
)
    requires within { AreWithin (length numbers.old) literals }
    requires apart { each_once literals ≡ true }
    requires room { (l : Literal) → meets turned literals l ≡ true
        → (minus ≤ number_of numbers.old l) × (number_of numbers.old l + plus < 2 ^ 128) }
    ensures { (l : Literal) → number_of numbers.new l
        ≡ (if meets turned literals.entry l then number_of numbers.old l - minus + plus
        else number_of numbers.old l) }
{
    for literal in literals {
        let place = place_of(literal, turned);
        numbers[place] = numbers[place] - minus + plus;
    }
}

/// Marks literals.
pub(crate) fn mark_each(marks: &mut [bool], literals: Literals<'_>, turned: bool)
    requires { AreWithin (length marks.old) literals }
    ensures { (l : Literal) → is_marked marks.new l
        ≡ (is_marked marks.old l || meets turned literals.entry l) }
{
    for literal in literals {
        let place = place_of(literal, turned);
        marks[place] = true;
    }
}

/// Adds a number to those of literals that are marked, takes another from them, and takes the marks
/// away.
pub(crate) fn change_marked(
    numbers: &mut [u128],
    marks: &mut [bool],
    literals: Literals<'_>,
    turned: bool,
    plus: u128,
    minus: u128,
)
    requires lengths { length marks.old ≡ length numbers.old }
    requires within { AreWithin (length numbers.old) literals }
    requires room { (l : Literal) → is_marked marks.old l ≡ true
        → (minus ≤ number_of numbers.old l) × (number_of numbers.old l + plus < 2 ^ 128) }
    ensures numbers { (l : Literal) → number_of numbers.new l
        ≡ (if is_marked marks.old l && meets turned literals.entry l
        then number_of numbers.old l - minus + plus else number_of numbers.old l) }
    ensures marks { (l : Literal) → is_marked marks.new l
        ≡ (is_marked marks.old l && not (meets turned literals.entry l)) }
{
    for literal in literals {
        let place = place_of(literal, turned);
        if marks[place] {
            marks[place] = false;
            numbers[place] = numbers[place] - minus + plus;
        }
    }
}
