// The plain total in an i64, tested against both of its limits.
ghost use Rattle.std.specs.Prelude.{◌≡◌, pos};
ghost use Rattle.field.specs.Total.{limit, in_limits, plus};

use super::integer;

// The largest total; its negative is the least.
pub fn limit(p: u32) -> i64
    ensures { result ≡ pos (limit p) }
{
    if p == 0 {
        return 0;
    }
    ((p - 1) / 2) as i64
}

// Whether the total is within both limits.
#[tactic(auto, unfolding(crate::specs::Total::in_limits))]
pub fn within(p: u32, total: i64) -> bool
    ensures { result ≡ in_limits p total }
{
    let most = limit(p);
    if most < total {
        return false;
    }
    if total < 0 - most {
        return false;
    }
    true
}

// The total with the worth of one more item.
pub fn plus(total: i64, worth: i64) -> i64
    ensures { result ≡ plus total worth }
{
    if 4611686018427387904 < integer::magnitude(total) {
        return total;
    }
    if 2305843009213693952 < integer::magnitude(worth) {
        return total;
    }
    total + worth
}
