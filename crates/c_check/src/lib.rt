// The check setting that the C calls are lent: every number of it is a u64, and is judged.
#![tactic(auto)]

ghost use Rattle.std.specs.Prelude.{◌≡◌};
ghost use Rattle.c_check.specs.Setting.{is_setting, order_of, check_setting_of};

use register::{BitOrder, Check};

// Whether five numbers say a check setting: the last two are 0 or 1.
pub fn is_setting(check: &[u64; 5]) -> bool
    ensures { result ≡ is_setting check.now }
{
    if check[3] >= 2 {
        return false;
    }
    check[4] < 2
}

// The order that a number of the C interface says: 0 is low bit first. `part_next::solid_of` is only of the same form.
fn order_of(n: u64) -> BitOrder
    ensures { result ≡ order_of n }
{
    if n == 0 {
        BitOrder::LowFirst
    } else {
        BitOrder::HighFirst
    }
}

// The check setting of five numbers: generator, start, first bit, 1 where checks are compared, and 1 where they are sent high bit first.
pub fn check_setting_of(check: &[u64; 5]) -> Check
    ensures { result ≡ check_setting_of check.now }
{
    let order = order_of(check[4]);
    Check {
        generator: check[0],
        start: check[1],
        first: check[2],
        compare: check[3] == 1,
        order,
    }
}
