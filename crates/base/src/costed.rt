//! Forms that give each assignment a cost.
ghost use Rattle.std.specs.Prelude.{◌≡◌, ◌<◌, ◌^◌, ℕ};
ghost use Rattle.base.specs.Costs.{Form, IsOf};

use crate::costs::Cost;

/// A form that gives each assignment a cost: a list of `width` bits, one for each variable or node.
pub trait Costed {
    /// How many bits an assignment has, and the cost of each.
    ghost form: { Self → Form };

    /// The sum of the sizes of its coefficients and its constant.
    ghost total: { Self → ℕ };

    /// Its width, and for each term that is not 0 the square of its degree (1 for a constant).
    ghost size: { Self → ℕ };

    /// How many bits an assignment has.
    fn width(&self) -> usize
        requires { (form self.now).bits < 2 ^ 32 }
        ensures { result ≡ (form self.now).bits };

    /// What an assignment costs.
    fn cost(&self, x: &[bool]) -> Cost
        requires narrow { (form self.now).bits < 2 ^ 32 }
        requires width { IsOf (form self.now) x.now }
        ensures { result ≡ (form self.now).cost x.now };
}
