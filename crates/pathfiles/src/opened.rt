ghost use Rattle.std.specs.Prelude.{◌≡◌, length, MatchResult};
ghost use Rattle.std.specs.Option.{option_map};
ghost use Rattle.std.specs.List.{slice_get};
ghost use Rattle.pathformat.specs.Reading.{bad, values};
ghost use Rattle.pathformat.specs.File.{listed, point_at, working_at};
ghost use Rattle.pathreading.specs.Outcomes.{placing, Placed};
ghost use Rattle.pathreading.specs.Sections.{item_at};
ghost use Rattle.pathfiles.specs.Opened.{points_of, workings_of, says, Said, Says};

use pathreading::filed::Filed;
use pathreading::section::Section;
use points::fault::Fault;
use std::alloc::AllocError;
use std::marker::PhantomData;
use workings::working::Working;

// A path file opened as the kind K: its numbers, and its other parts where they stand in the file.
// The type does not say that these read: how points read is said by `Filed`, and a type that cites it asks for that bound wherever it is named.
#[derive(Copy)]
pub struct Opened<'a, K> {
    pub(crate) allowance: u16,
    pub(crate) name: &'a [u8],
    pub(crate) points: Section<'a>,
    pub(crate) workings: Section<'a>,
    pub(crate) kind: PhantomData<K>,
}

// Written out, so that it says by itself that a clone is the same and never fails.
impl<'a, K: Copy> Clone for Opened<'a, K> {
    ghost is_clone = { λ x y. y ≡ x };

    ghost is_infallible = { λ _. Unit {0} };

    fn clone(&self) -> Result<Opened<'a, K>, AllocError> {
        Ok(*self)
    }
}

// Points and workings have calls of their own: one for both would have to pick the section by the type of its items, and be no shorter.
impl<'a, K: Filed> Opened<'a, K> {
    // Reads the points and the workings again: Ok for a file that was opened, and the fault of reading for any other value.
    pub fn check(&self) -> Result<(), Fault>
        ensures { MatchResult result (λ _. Said K.kind self.now) (λ e. says K.kind self.now ≡ bad e) }
    {
        self.points.skip::<K>()?;
        self.workings.skip::<Working>()?;
        Ok(())
    }

    // The name, 0 to 64 bytes of any value, as a part of the file.
    pub fn name(&self) -> &'a [u8]
        ensures answer { result.now ≡ self.now.name.now }
        ensures said { Says K.kind self.now (λ f. result.now ≡ f.name) }
    {
        self.name
    }

    // The allowance of the points.
    pub fn allowance(&self) -> u16
        ensures answer { result ≡ self.now.allowance }
        ensures said { Says K.kind self.now (λ f. result ≡ f.allowance) }
    {
        self.allowance
    }

    // How many points there are, 2 to 17.
    pub fn point_count(&self) -> u16
        ensures answer { result ≡ self.now.points.count }
        ensures said { Says K.kind self.now (λ f. result ≡ length f.points) }
    {
        self.points.count
    }

    // How many workings there are, 0 to 256.
    pub fn working_count(&self) -> u16
        ensures answer { result ≡ self.now.workings.count }
        ensures said { Says K.kind self.now (λ f. result ≡ length f.workings) }
    {
        self.workings.count
    }

    // The point at an index, if there is one.
    pub fn point(&self, i: u16) -> Option<K>
        ensures answer { option_map (λ p. listed K.Kind.width (K.Kind.coord p)) result ≡ item_at (point_at K.kind) self.now.points i }
        ensures said { Says K.kind self.now (λ f. option_map (λ p. listed K.Kind.width (K.Kind.coord p)) result ≡ slice_get f.points i) }
    {
        self.points.item(i)
    }

    // The working at an index, if there is one.
    pub fn working(&self, i: u16) -> Option<Working>
        ensures answer { result ≡ item_at working_at self.now.workings i }
        ensures said { Says K.kind self.now (λ f. result ≡ slice_get f.workings i) }
    {
        self.workings.item(i)
    }

    // Puts the points first on a buffer and answers how many they are; a buffer that is shorter is refused with 2.
    pub fn points(&self, buffer: &mut [K]) -> Result<usize, Fault>
        ensures answer { result ≡ placing (points_of K.kind self.now) self.now.points.count (length buffer.old) }
        ensures buffer { Placed (λ p. listed K.Kind.width (K.Kind.coord p)) (values (points_of K.kind self.now))
            buffer.old buffer.new result }
    {
        self.points.read_onto(buffer)
    }

    // Puts the workings first on a buffer and answers how many they are; a buffer that is shorter is refused with 2.
    pub fn workings(&self, buffer: &mut [Working]) -> Result<usize, Fault>
        ensures answer { result ≡ placing (workings_of self.now) self.now.workings.count (length buffer.old) }
        ensures buffer { Placed (λ w. w) (values (workings_of self.now))
            buffer.old buffer.new result }
    {
        self.workings.read_onto(buffer)
    }
}
