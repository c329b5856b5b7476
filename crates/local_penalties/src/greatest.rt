//! The greatest of numbers.
ghost use Rattle.std.specs.Prelude.{◌≡◌, ◌≤◌};
ghost use Rattle.local_penalties.specs.Prices.{far};
ghost use Rattle.local_penalties.specs.Rounds.{count_past, descending, greatest};

use crate::opening::FAR;

/// Puts numbers into descending order.
pub(crate) fn sort_down(numbers: &mut Vec<u128>)
    ensures { numbers.new.items ≡ descending numbers.old.items }
{
    numbers.sort_unstable_by(|left, right| right.cmp(left));
}

/// The j-th greatest of prices, which are put into descending order.
pub(crate) fn greatest(prices: &mut Vec<u128>, j: u128) -> u128
    ensures value { result ≡ greatest j prices.old.items }
    ensures small { result ≤ far }
{
    sort_down(prices);
    let place = j.saturating_sub(1);
    if place < prices.len() as u128 {
        prices[place as usize].min(FAR)
    } else {
        FAR
    }
}

/// How many of the numbers, from the first on, sum to more than a room.
pub(crate) fn count_past(numbers: &[u128], room: u128) -> usize
    ensures { result ≡ count_past room numbers.now }
{
    let mut left = room;
    for i in 0..numbers.len() {
        if left < numbers[i] {
            return i + 1;
        }
        left -= numbers[i];
    }
    numbers.len()
}
