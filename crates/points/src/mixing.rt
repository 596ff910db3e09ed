ghost use Rattle.std.specs.Prelude.{◌≡◌, ℕ, ◌+◌, ◌-◌, ◌*◌, ◌/◌, ◌<◌, ◌≤◌, pos, ◌+ℤ◌};
ghost use Rattle.points.specs.Points.{mixed};

use crate::weight::Weight;

// An axis value counted from the least one, so that nothing below is negative.
fn shifted(p: i32) -> u64
    ensures { (pos result ≡ p +ℤ pos 2147483648) × (result < 4294967296) }
{
    // `p.abs_diff(i32::MIN)` is the same number, and with it flattening takes a fifth longer.
    (i64::from(p) + 2147483648) as u64
}

fn shifted_back(n: u64) -> i32
    requires { n < 4294967296 }
    ensures { result +ℤ pos 2147483648 ≡ pos n }
{
    // Both casts keep the number under the bound above; `try_from` would want an answer for a refusal that never comes.
    (n as i64 - 2147483648) as i32
}

// The sum that mixing divides, 2·N + d.
fn weighed(u: u64, v: u64, w: Weight) -> u64
    requires { (u < 4294967296) × (v < 4294967296) }
    ensures { result ≡ 2 * ((w.den - w.num) * u + w.num * v) + w.den }
{
    let num = u64::from(w.num);
    let den = u64::from(w.den);
    2 * ((den - num) * u + num * v) + den
}

// The sum divided by 2·d. It is not negative, so the quotient is the floor.
fn divided(sum: u64, w: Weight) -> u64
    ensures { result ≡ sum / (2 * w.den) }
{
    sum / (2 * u64::from(w.den))
}

// One axis value mixed: the floor of (2·N + d) / (2·d), where N = (d − w)·p + w·q.
pub fn mix_axis(p: i32, q: i32, w: Weight) -> i32
    ensures { result ≡ mixed w.num w.den p q }
{
    shifted_back(divided(weighed(shifted(p), shifted(q), w), w))
}
