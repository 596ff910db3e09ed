ghost use Rattle.std.specs.Prelude.{◌≡◌, ◌*◌, ◌^◌, Decides};
ghost use Rattle.samepath.specs.Same.{SameNumber, SameWorking};

use points::parameter::Parameter;
use workings::working::Working;

// The bits of a number.
const BITS: u8 = 16;

// Whether a is b·2^d. From d = 16 on the product is past 16 bits, unless it is 0.
fn is_shifted(a: u16, b: u16, d: u8) -> bool
    ensures { Decides result (a ≡ b * 2 ^ d) }
{
    if d >= BITS {
        return a == 0 && b == 0;
    }
    let scale = 1u32 << d;
    u32::from(a) == u32::from(b) * scale
}

// Whether two parameters are the same number, as 1/2 and 2/4 are. Any numbers may stand in them.
pub fn same_number(s: Parameter, t: Parameter) -> bool
    ensures { Decides result (SameNumber s t) }
{
    if s.k >= t.k {
        is_shifted(s.a, t.a, s.k - t.k)
    } else {
        is_shifted(t.a, s.a, t.k - s.k)
    }
}

// Whether two workings are the same, their parameters compared as numbers.
pub fn same_working(v: Working, w: Working) -> bool
    ensures { Decides result (SameWorking v w) }
{
    match (v, w) {
        (Working::Left(s), Working::Left(t)) | (Working::Right(s), Working::Right(t)) => {
            same_number(s, t)
        }
        (Working::Raise, Working::Raise) | (Working::Turn, Working::Turn) => true,
        _ => false,
    }
}
