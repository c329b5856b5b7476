//! The numbers of tables: of 64 bits where all sums fit, and of 128 bits else.
ghost use Rattle.std.specs.Prelude.{◌≡◌, ◌+◌, ◌+ℤ◌, ◌≤◌, ◌^◌, ℕ, ℤ, int_lt, unsigned_abs};

/// A whole number in so many bits, which contracts see as its value.
pub(crate) trait Number: Copy + Drop {
    ghost value: { Self → ℤ };

    // the greatest size of a sum
    ghost room: { ℕ };

    /// A number in as many bits.
    fn of(number: &i128) -> Self
        requires { unsigned_abs number.now ≤ room }
        ensures { value result ≡ number.now };

    /// The sum of two numbers.
    fn plus(self, other: Self) -> Self
        requires { unsigned_abs (value self) + unsigned_abs (value other) ≤ room }
        ensures { value result ≡ value self +ℤ value other };

    /// Whether it is less than another number.
    fn is_less(self, other: Self) -> bool
        ensures { result ≡ int_lt (value self) (value other) };
}

impl Number for i64 {
    ghost value = { λ number. number };

    ghost room = { 2 ^ 62 };

    #[inline(always)]
    fn of(number: &i128) -> i64 {
        *number as i64
    }

    #[inline(always)]
    fn plus(self, other: i64) -> i64 {
        self + other
    }

    #[inline(always)]
    fn is_less(self, other: i64) -> bool {
        self < other
    }
}

impl Number for i128 {
    ghost value = { λ number. number };

    ghost room = { 2 ^ 126 };

    #[inline(always)]
    fn of(number: &i128) -> i128 {
        *number
    }

    #[inline(always)]
    fn plus(self, other: i128) -> i128 {
        self + other
    }

    #[inline(always)]
    fn is_less(self, other: i128) -> bool {
        self < other
    }
}
