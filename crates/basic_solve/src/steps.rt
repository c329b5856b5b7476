//! Steps of a table, one for each of its nodes.
ghost use Rattle.std.specs.Prelude.{◌≡◌, ◌≤◌, ◌^◌, ◌+◌, ◌+ℤ◌, List, Bool, true, length, unsigned_abs};
ghost use Rattle.std.specs.List.{sum_by};
ghost use Rattle.base.specs.Sums.{if_so};
ghost use Rattle.bits_model.specs.Output.{bit_at};
ghost use Rattle.bits_model.specs.Walks.{is_in};
ghost use Rattle.basic_solve.specs.Tables.{sum_where};

/// The sum of two numbers.
fn plus(first: &i128, second: &i128) -> i128
    requires { unsigned_abs first.now + unsigned_abs second.now ≤ 2 ^ 126 }
    ensures { result ≡ first.now +ℤ second.now }
{
    *first + *second
}

/// Adds a number to the step of a node.
pub(crate) fn add_for(nodes: &[u32], steps: &mut [i128], node: u32, number: &i128)
    requires inside { is_in nodes.now node ≡ true }
    requires count { length steps.old ≡ length nodes.now }
    requires small { sum_by unsigned_abs steps.old + unsigned_abs number.now ≤ 2 ^ 126 }
    ensures sums { (y : List Bool) → sum_where y nodes.now steps.new
        ≡ sum_where y nodes.now steps.old +ℤ if_so (bit_at y node) number.now }
    ensures size { sum_by unsigned_abs steps.new
        ≤ sum_by unsigned_abs steps.old + unsigned_abs number.now }
{
    for at in 0..nodes.len() {
        if nodes[at] == node {
            steps[at] = plus(&steps[at], number);
            return;
        }
    }
}
