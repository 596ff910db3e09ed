ghost use Rattle.std.specs.Prelude.{◌≡◌};
ghost use Rattle.polygons.specs.Buffers.{ranged, sized};

use points::fault::{Fault, Refusal};

// A number of points, or a degree, has to be from `least` to `most`; else refusal 3. Contracts speak of the two ends, so they are two numbers.
pub fn test_range(n: usize, least: usize, most: usize) -> Result<(), Fault>
    ensures { result ≡ ranged least most n }
{
    if !(least..=most).contains(&n) {
        return Err(Fault::new(Refusal::Degree, n));
    }
    Ok(())
}

// A polygon has 2 to 17 points; else refusal 3.
pub fn test_size(points: usize) -> Result<(), Fault>
    ensures { result ≡ sized points }
{
    test_range(points, 2, 17)
}
