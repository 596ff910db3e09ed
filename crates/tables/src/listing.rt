ghost use Rattle.std.specs.Prelude.{Some};
ghost use Rattle.tables.specs.Listing.{placed_text, storeyed_text};

use points::fault::Fault;
use points::kind::Kind;
use std::fmt;

// A point as it is printed: the value on each axis, a space before each.
#[derive(Clone, Copy)]
pub struct Axes<'a, K>(pub &'a K);

impl<K: Kind> fmt::Display for Axes<'_, K> {
    fn fmt<W: fmt::Write>(&self, f: &mut fmt::Formatter<W>) -> fmt::Result {
        // A point tells the value on one axis at a time.
        for a in 0..K::axes() {
            write!(f, " {}", self.0.axis(a))?;
        }
        Ok(())
    }
}

// Points as they are printed, one after another.
#[derive(Clone, Copy)]
pub struct Listed<'a, K>(pub &'a [K]);

impl<K: Kind> fmt::Display for Listed<'_, K> {
    fn fmt<W: fmt::Write>(&self, f: &mut fmt::Formatter<W>) -> fmt::Result {
        for p in self.0 {
            write!(f, "{}", Axes(p))?;
        }
        Ok(())
    }
}

// A refusal with its number and its place.
#[derive(Clone, Copy)]
pub struct Placed(pub Fault);

impl fmt::Display for Placed {
    ghost output = { λ p. Some (placed_text p.0) };

    fn fmt<W: fmt::Write>(&self, f: &mut fmt::Formatter<W>) -> fmt::Result {
        let Placed(fault) = self;
        write!(
            f,
            "refused {} place {}",
            u8::from(fault.refusal),
            fault.place
        )
    }
}

// A refusal with its number, its storey and its place.
#[derive(Clone, Copy)]
pub struct Storeyed(pub Fault);

impl fmt::Display for Storeyed {
    ghost output = { λ p. Some (storeyed_text p.0) };

    fn fmt<W: fmt::Write>(&self, f: &mut fmt::Formatter<W>) -> fmt::Result {
        let Storeyed(fault) = self;
        let number = u8::from(fault.refusal);
        write!(
            f,
            "refused {number} storey {} place {}",
            fault.storey, fault.place
        )
    }
}
