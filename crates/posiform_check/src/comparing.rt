//! The first difference of two forms, in table order.
ghost use Rattle.std.specs.Prelude.{◌≡◌, ◌≢◌, ◌∷◌, [], List, option_map, pos};
ghost use Rattle.term_table.specs.Terms.{Term, in_front};
ghost use Rattle.posiform_check.specs.Differences.{behind_next, difference, found_or, lent_term};

use literal_lists::Literal;
use std::cmp::Ordering;
use term_table::Table;

/// What a term and the next one of another form differ in.
fn differing(
    set: &[Literal],
    coefficient: i128,
    next: Option<(&[Literal], i128)>,
) -> Option<(i128, i128)>
    ensures { (ts us : List Term) → difference ((set.now, coefficient) ∷ ts)
        (behind_next (option_map lent_term next.entry) us)
        ≡ found_or result (difference ts us) }
{
    match next {
        None => Some((coefficient, 0)),
        Some((other, value)) => match set.cmp(other) {
            Ordering::Less => Some((coefficient, 0)),
            Ordering::Greater => Some((0, value)),
            Ordering::Equal => {
                if coefficient == value {
                    None
                } else {
                    Some((coefficient, value))
                }
            }
        },
    }
}

/// The first difference of a form, whose constant and whose other sets are given, from another: the
/// coefficients of the first set in table order that differs.
pub(crate) fn first_difference(constant: i128, form: &Table, other: &Table) -> Option<(i128, i128)>
    ensures { result
        ≡ difference (in_front [] constant form.now.content.terms) other.now.content.terms }
{
    let mut others = other.terms();
    let mut next = others.next();
    if constant != 0 {
        let found = differing(&[], constant, next);
        if found.is_some() {
            return found;
        }
        next = others.next();
    }
    for (set, coefficient) in form.terms() {
        let found = differing(set, coefficient, next);
        if found.is_some() {
            return found;
        }
        next = others.next();
    }
    match next {
        None => None,
        Some((_, value)) => Some((0, value)),
    }
}
