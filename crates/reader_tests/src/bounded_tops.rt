//! The top of soft constraints as a bound of the costs, beside its constraint.
ghost use Rattle.std.specs.Prelude.{◌≤◌, ◌^◌, length};

use base::Cost;
use problem_form::Problem;
use std::alloc::Global;
use wbo_reader::{Wbo, read_wbo};
use whole_text::TextAnswer;

/// The last four binary digits of a number.
fn bits_of(number: u16) -> [bool; 4] {
    [
        number & 1 == 1,
        number & 2 == 2,
        number & 4 == 4,
        number & 8 == 8,
    ]
}

/// A cost that is infinite above the most that is given.
fn cut_off(cost: Cost, most: Option<i128>) -> Cost {
    match (cost, most) {
        (Cost::Whole(number), Some(most)) if number > most => Cost::Infinite,
        _ => cost,
    }
}

/// Whether each assignment costs the same within the bound as with the constraint.
fn cost_alike(within: &Problem, beside: &Problem) -> bool {
    for number in 0..16 {
        let x = bits_of(number);
        if cut_off(within.own_cost(&x), within.most) != beside.own_cost(&x) {
            return false;
        }
    }
    true
}

/// Whether a source has this bound, as a constraint too, and its assignments cost alike.
fn is_bounded(alloc: Global, wbo: &Wbo, most: Option<i128>) -> Result<bool, TextAnswer> {
    let within = wbo.rewrite_within(alloc)?;
    let beside = wbo.rewrite(alloc)?;
    let rows = within.constraints.len();
    let more = beside.constraints.len();
    let last = if most.is_some() { 1 } else { 0 };
    let so = within.most == most
        && beside.most.is_none()
        && more >= rows
        && more - rows == last
        && cost_alike(&within, &beside);
    Ok(so)
}

/// The same of the source of a text.
fn is_bounded_in(alloc: Global, text: &[u8], most: Option<i128>) -> Result<bool, TextAnswer>
    requires { length text.now ≤ 2 ^ 24 }
{
    is_bounded(alloc, &read_wbo(alloc, text)?, most)
}

/// Sources of at most two variables and two soft constraints, and the most that they may cost.
const TEXTS: &[(&[u8], Option<i128>)] = &[
    // no top, one above the weights, the weights, one below, and the least
    (b"soft: ;\n[2] +1 x1 >= 1 ;\n[1] +1 ~x1 >= 1 ;\n", None),
    (b"soft: 4 ;\n[2] +1 x1 >= 1 ;\n[1] +1 ~x1 >= 1 ;\n", None),
    (b"soft: 3 ;\n[2] +1 x1 >= 1 ;\n[1] +1 ~x1 >= 1 ;\n", Some(2)),
    (b"soft: 2 ;\n[2] +1 x1 >= 1 ;\n[1] +1 ~x1 >= 1 ;\n", Some(1)),
    (b"soft: 1 ;\n[2] +1 x1 >= 1 ;\n[1] +1 ~x1 >= 1 ;\n", Some(0)),
    // an equation, and hard constraints beside it
    (
        b"soft: 5 ;\n[5] +1 x1 +1 x2 = 1 ;\n+1 x1 -1 x2 >= 0 ;\n",
        Some(4),
    ),
    (
        b"soft: 6 ;\n[5] +1 x1 +1 x2 = 1 ;\n+1 x1 -1 x2 >= 0 ;\n",
        None,
    ),
    // no soft constraint
    (b"soft: 1 ;\n+1 x1 +1 x2 >= 1 ;\n", None),
    // the greatest top
    (
        b"soft: 18446744073709551615 ;\n[9223372036854775808] +1 x1 >= 1 ;\n[9223372036854775807] +1 ~x1 >= 1 ;\n",
        Some(18_446_744_073_709_551_614),
    ),
];

#[test]
fn a_top_is_a_bound(rt: HostRuntime) {
    for (text, most) in TEXTS {
        let so = text.len() <= 1 << 24
            && matches!(is_bounded_in(rt.alloc(), text, *most), Ok(true));
        assert!(rt; so, "{text:?}");
    }
}
