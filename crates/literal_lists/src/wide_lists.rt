//! Lists of literals of any variables, as many as memory holds: sixteen bytes a literal.
ghost use Rattle.std.specs.Prelude.{◌≡◌, ◌<◌, length, slice_get, Some};

use crate::literal::Literal;
use crate::literals::{HeldLiterals, Literals};
use base::Lists;

/// Lists of literals, which contracts see as a list of lists.
pub type WideLists = Lists<Literal>;

/// The literals of the list at a place.
pub(crate) fn literals_at(lists: &WideLists, i: usize) -> Literals<'_>
    requires { i < length lists.now }
    ensures { slice_get lists.now i ≡ Some result }
{
    Literals {
        held: HeldLiterals::Listed(lists.list(i).iter()),
    }
}
