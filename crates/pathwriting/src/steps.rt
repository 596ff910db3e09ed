ghost use Rattle.std.specs.Prelude.{◌≡◌, ◌+◌, ◌≤◌, length, IfOk, OnOk};
ghost use Rattle.polygons.specs.Buffers.{sized};
ghost use Rattle.pathformat.specs.Writing.{bytes_each, Each};
ghost use Rattle.pathformat.specs.File.{fields, working_bytes, FieldsOk};
ghost use Rattle.pathwriting.specs.Puts.{put};
ghost use Rattle.pathwriting.specs.Steps.{begin_bytes, axis_values, bytes_of_points, most_test, name_test, parameters_test, workings_test, Step, SoFar, Continues};
ghost use Rattle.pathwriting.specs.Written.{Ends};

use crate::bytes::{put_parts, test_room};
use crate::point::EncodePoint;
use crate::section::{put_section, test_section};
use crate::states::{Begun, NewFile, Pointed};
use pathformat::kind::FileKind;
use points::fault::{Fault, Refusal};
use polygons::size::test_size;
use std::marker::PhantomData;
use workings::working::Working;

// The most bytes of a name, and the most workings.
pub(crate) const LONGEST_NAME: usize = 64;

pub(crate) const MOST_WORKINGS: usize = 256;

// There are at most so many items; else refusal 12.
pub(crate) fn test_most<T>(items: &[T], most: usize) -> Result<(), Fault>
    ensures { result ≡ most_test most items.now }
{
    if items.len() > most {
        return Err(Fault::new(Refusal::Overlong, items.len()));
    }
    Ok(())
}

pub(crate) fn test_parameters(workings: &[Working]) -> Result<(), Fault>
    ensures { result ≡ parameters_test workings.now }
{
    for w in workings {
        w.test_parameter()?;
    }
    Ok(())
}

fn test_workings(workings: &[Working]) -> Result<(), Fault>
    ensures { result ≡ workings_test workings.now }
{
    test_most(workings, MOST_WORKINGS)?;
    test_parameters(workings)
}

// The head and the name, at the front of a buffer that has room for them.
fn put_head(buffer: &mut [u8], kind: FileKind, allowance: u16, name: &[u8])
    requires few { length name.now ≤ 64 }
    requires room { 7 + length name.now ≤ length buffer.old }
    ensures { buffer.new ≡ put 0 (begin_bytes kind allowance name.now) buffer.old }
{
    // At most 64 bytes: `try_from` would want an answer for a refusal that never comes.
    put_parts(
        buffer,
        &[
            &3u16.to_be_bytes(),
            &[u8::from(kind)],
            &allowance.to_be_bytes(),
            &(name.len() as u16).to_be_bytes(),
            name,
        ],
    );
}

// Each step is a call of its own type, so each tests and puts its own part.
impl<K: EncodePoint> NewFile<K> {
    // A file that is yet to be begun. Nothing is written before its first step.
    pub fn new() -> NewFile<K> {
        NewFile { kind: PhantomData }
    }

    // Begins the file with its allowance and its name. It refuses 12 for a name over 64 bytes, then 2 with the length that the file has after this step.
    pub fn begin(
        self,
        buffer: &mut [u8],
        name: &[u8],
        allowance: u16,
    ) -> Result<Begun<K>, (NewFile<K>, Fault)>
        ensures step { Step (name_test name.now) 0 (begin_bytes K.Filed.kind allowance name.now) (λ t. t.end)
            self buffer.old buffer.new result }
        ensures begins { IfOk result (λ t. SoFar t.end (begin_bytes K.Filed.kind allowance name.now) buffer.new) }
    {
        let end = test_most(name, LONGEST_NAME)
            .and_then(|()| test_room(7 + name.len(), buffer.len()))
            .map_err(|f| (self, f))?;
        put_head(buffer, K::filed_as(), allowance, name);
        Ok(Begun {
            end,
            kind: PhantomData,
        })
    }
}

impl<K: EncodePoint> Begun<K> {
    // Gives the file its points. It refuses 3 unless there are 2 to 17, then 2 with the length that the file has after this step.
    pub fn points(self, buffer: &mut [u8], points: &[K]) -> Result<Pointed, (Begun<K>, Fault)>
        ensures step { Step (sized (length points.now)) self.end (bytes_of_points K.Filed.kind K.Kind.width K.Kind.coord points.now) (λ t. t.end)
            self buffer.old buffer.new result }
        ensures continues { Continues self.end (bytes_of_points K.Filed.kind K.Kind.width K.Kind.coord points.now) (λ t. t.end)
            buffer.old buffer.new result }
        ensures sound { OnOk result (Each (FieldsOk (fields K.Filed.kind)) (axis_values K.Kind.width K.Kind.coord points.now)) }
    {
        let at = self.end;
        let end = test_size(points.len())
            .and_then(|()| test_section(at, points, buffer.len()))
            .map_err(|f| (self, f))?;
        put_section(&mut buffer[at..], points);
        Ok(Pointed { end })
    }
}

impl Pointed {
    // Closes the file with its workings and answers its length. It refuses 12 for more than 256, 1 for a bad parameter, then 2 with the file's length.
    pub fn close(self, buffer: &mut [u8], workings: &[Working]) -> Result<usize, (Pointed, Fault)>
        ensures step { Step (workings_test workings.now) self.end (bytes_each working_bytes workings.now) (λ n. n)
            self buffer.old buffer.new result }
        ensures ends { Ends self.end workings.now buffer.old buffer.new result }
    {
        let at = self.end;
        let end = test_workings(workings)
            .and_then(|()| test_section(at, workings, buffer.len()))
            .map_err(|f| (self, f))?;
        put_section(&mut buffer[at..], workings);
        Ok(end)
    }
}
