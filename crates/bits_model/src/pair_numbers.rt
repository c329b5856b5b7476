//! The number of a pair of nodes: a pair in one word, by which couplers are sorted.
ghost use Rattle.std.specs.Prelude.{◌≡◌};
ghost use Rattle.bits_model.specs.PairNumbers.{pair_number};

use crate::output::Entry;

/// Each node is below it.
const NODE_LIMIT: u64 = 1 << 32;

/// The number of an entry's pair: pairs are ordered by their first nodes, and then by their second
/// ones.
#[inline(always)]
pub fn pair_number(entry: &Entry) -> u64
    ensures { result ≡ pair_number entry.now }
{
    u64::from(entry.first) * NODE_LIMIT + u64::from(entry.second)
}
