ghost use Rattle.std.specs.Prelude.{◌≡◌, length, IfOk};
ghost use Rattle.std.specs.Option.{option_map};
ghost use Rattle.pathformat.specs.Reading.{counted, values};
ghost use Rattle.pathformat.specs.File.{within};
ghost use Rattle.pathreading.specs.Outcomes.{Skips, placing, Placed};
ghost use Rattle.pathreading.specs.Sections.{items_of, item_at, Starts, HoldsBytes};

use crate::fields::Unread;
use crate::item::Item;
use points::fault::{Fault, Refusal, test_places};

// Items that follow one another in a file: how many they are, and what is left to read where they start.
// The type says neither which items they are nor that they read: points are items by one impl for all kinds, and a field of a generic struct cannot have a type whose fact rests on such an impl.
#[derive(Clone, Copy)]
pub struct Section<'a> {
    pub count: u16,
    items: Unread<'a>,
}

impl<'a> Section<'a> {
    // The section that stands next, and what is left after it; a count that is not `least` to `most`, two numbers as contracts have them, is refused.
    pub fn read<I: Item>(
        least: u16,
        most: u16,
        refusal: Refusal,
        file: Unread<'a>,
    ) -> Result<(Section<'a>, Unread<'a>), Fault>
        ensures starts { Starts I.reads (counted (within least most) refusal I.reads) file.entry result }
        ensures bytes { IfOk result (λ v. HoldsBytes file.entry v.0) }
    {
        let (count, items) = file.two_bytes()?;
        if !(least..=most).contains(&count) {
            return Err(file.fault(refusal));
        }
        let section = Section { count, items };
        let rest = section.skip::<I>()?;
        Ok((section, rest))
    }

    // What is left after the items.
    pub fn skip<I: Item>(self) -> Result<Unread<'a>, Fault>
        ensures { Skips (items_of I.reads self.entry) self.entry.items result }
    {
        // `try_fold` over the count would say the same behind a closure.
        let mut rest = self.items;
        for _ in 0..self.count {
            (_, rest) = I::read(rest)?;
        }
        Ok(rest)
    }

    // The item at an index, if there is one.
    pub fn item<I: Item>(self, i: u16) -> Option<I>
        ensures { option_map I.value result ≡ item_at I.reads self.entry i }
    {
        if i >= self.count {
            return None;
        }
        let before = Section { count: i, ..self };
        let rest = before.skip::<I>().ok()?;
        let (item, _) = I::read(rest).ok()?;
        Some(item)
    }

    // Puts the items first on a buffer. They are passed over before that, so that a refused call writes nothing.
    pub fn read_onto<I: Item>(self, buffer: &mut [I]) -> Result<usize, Fault>
        ensures answer { result ≡ placing (items_of I.reads self.entry) self.entry.count (length buffer.old) }
        ensures buffer { Placed I.value (values (items_of I.reads self.entry)) buffer.old buffer.new result }
    {
        let n = usize::from(self.count);
        test_places(n, buffer.len())?;
        self.skip::<I>()?;
        let mut rest = self.items;
        for place in &mut buffer[0..n] {
            (*place, rest) = I::read(rest)?;
        }
        Ok(n)
    }
}
