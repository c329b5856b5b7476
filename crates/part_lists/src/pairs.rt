//! Pairs of qubits as numbers, and the search for one among such numbers in order.
ghost use Rattle.std.specs.Prelude.{◌≡◌, ◌==◌};
ghost use Rattle.std.specs.List.{list_any};
ghost use Rattle.part_lists.specs.Pairs.{pair_number, AreRising};

/// The number of a pair.
pub fn pair_number(a: u32, b: u32) -> u64
    ensures { result ≡ pair_number a b }
{
    u64::from(a) * (1 << 32) + u64::from(b)
}

/// Whether a number is one of numbers in order.
pub fn has_number(numbers: &[u64], number: u64) -> bool
    requires { AreRising numbers.now }
    ensures { result ≡ list_any (λ n. n == number) numbers.now }
{
    if numbers.is_empty() {
        return false;
    }
    match numbers.binary_search(&number) {
        Ok(_) => true,
        Err(_) => false,
    }
}
