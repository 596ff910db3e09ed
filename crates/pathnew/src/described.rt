// Points by the numbers that describe them.
use crate::trouble::Trouble;
use pathwriting::point::EncodePoint;
use points::height::Height;
use points::planar::Planar;
use points::sample::Sample;

// A kind of point that a description can give. Each kind has its own numbers, and its own words where they are wrong.
pub trait Described: EncodePoint {
    // The point of these numbers, one for each axis.
    fn from_numbers(numbers: &[i32]) -> Result<Self, Trouble>;
}

impl Described for Height {
    fn from_numbers(numbers: &[i32]) -> Result<Height, Trouble> {
        match numbers {
            [z] => Ok(Height { z: *z }),
            _ => Err(Trouble::Text("a height has one number")),
        }
    }
}

impl Described for Planar {
    fn from_numbers(numbers: &[i32]) -> Result<Planar, Trouble> {
        match numbers {
            [x, y] => Ok(Planar { x: *x, y: *y }),
            _ => Err(Trouble::Text("a planar point has two numbers, x and y")),
        }
    }
}

impl Described for Sample {
    fn from_numbers(numbers: &[i32]) -> Result<Sample, Trouble> {
        let [x, y, press] = numbers else {
            return Err(Trouble::Text("a sample has three numbers, x, y and press"));
        };
        let Ok(press) = u16::try_from(*press) else {
            return Err(Trouble::Text("a press is not negative, and at most 4095"));
        };
        Ok(Sample::new(*x, *y, press)?)
    }
}
