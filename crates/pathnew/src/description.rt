// A description, line by line.
use crate::described::Described;
use crate::trouble::Trouble;
use crate::words::{axis_value, name, parameter, small_number};
use pathwriting::whole::write_file;
use std::alloc::Global;
use workings::working::Working;

// A line that says something: its number, its first word, and the rest.
#[derive(Clone, Copy)]
pub struct Line<'a> {
    pub number: usize,
    pub word: &'a str,
    pub rest: &'a str,
}

impl<'a> Line<'a> {
    // None for an empty line or a comment.
    pub fn read(number: usize, text: &'a str) -> Option<Line<'a>> {
        let text = text.trim();
        if text.is_empty() || text.starts_with('#') {
            return None;
        }
        let (word, rest) = match text.split_once(' ') {
            Some((word, rest)) => (word, rest.trim()),
            None => (text, ""),
        };
        Some(Line { number, word, rest })
    }
}

// What a description says, apart from the kind of its points.
#[derive(Drop)]
pub struct Description<K> {
    name: Option<Vec<u8>>,
    allowance: Option<u16>,
    points: Vec<K>,
    workings: Vec<Working>,
}

fn point<K: Described>(heap: Global, rest: &str) -> Result<K, Trouble> {
    let numbers: Vec<i32> = rest.split_whitespace().map(axis_value).try_collect(heap)?;
    K::from_numbers(numbers.as_slice())
}

// The working that a line names: its word becomes a working here.
fn working(line: &Line) -> Result<Working, Trouble> {
    match line.word {
        "left" => Ok(Working::Left(parameter(line.rest)?)),
        "right" => Ok(Working::Right(parameter(line.rest)?)),
        "raise" => Ok(Working::Raise),
        "turn" => Ok(Working::Turn),
        _ => Err(Trouble::Text("no such word")),
    }
}

impl<K: Described> Description<K> {
    pub fn new(heap: Global) -> Description<K> {
        Description {
            name: None,
            allowance: None,
            points: Vec::new(heap),
            workings: Vec::new(heap),
        }
    }

    // Takes in one line, whose word tells what it is about.
    pub fn take(&mut self, heap: Global, line: &Line) -> Result<(), Trouble> {
        match line.word {
            "name" => {
                if self.name.is_some() {
                    return Err(Trouble::Text("a second name"));
                }
                self.name = Some(name(heap, line.rest.as_bytes())?);
            }
            "allowance" => {
                if self.allowance.is_some() {
                    return Err(Trouble::Text("a second allowance"));
                }
                self.allowance = Some(small_number(line.rest)?);
            }
            "point" => {
                if !self.workings.is_empty() {
                    return Err(Trouble::Text("a point after a working"));
                }
                self.points.push(point(heap, line.rest)?)?;
            }
            _ => self.workings.push(working(line)?)?,
        }
        Ok(())
    }

    // Writes the file that is described onto a buffer, and answers its length.
    pub fn write(&self, buffer: &mut [u8]) -> Result<usize, Trouble> {
        let name = self.name.as_ref().ok_or(Trouble::Text("no name"))?;
        let allowance = self.allowance.ok_or(Trouble::Text("no allowance"))?;
        Ok(write_file(
            buffer,
            name.as_slice(),
            allowance,
            self.points.as_slice(),
            self.workings.as_slice(),
        )?)
    }
}
