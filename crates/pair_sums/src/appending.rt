//! One more coupler behind others.
ghost use Rattle.std.specs.Prelude.{◌≡◌, ◌++◌, [], OnOk};
ghost use Rattle.pair_sums.specs.Pairs.{entry_in_front};

use base::NoMemory;
use bits_model::CouplerList;

/// Appends a coupler, unless its weight is 0.
pub fn push_some(
    couplers: &mut CouplerList,
    first: u32,
    second: u32,
    weight: i128,
) -> Result<(), NoMemory>
    ensures { OnOk result (couplers.new ≡ couplers.old
        ++ entry_in_front (record { first = first; second = second; weight = weight }) []) }
{
    if weight == 0 {
        return Ok(());
    }
    couplers.push(first, second, weight)
}
