ghost use Rattle.std.specs.Prelude.{◌≤◌};

use std::marker::PhantomData;

// A file of points of the kind K that is yet to be begun.
#[derive(Drop)]
pub struct NewFile<K> {
    pub(crate) kind: PhantomData<K>,
}

// A file that was begun, by where it ends so far: its points come next.
#[derive(Drop)]
pub struct Begun<K> {
    pub(crate) end: usize,
    pub(crate) kind: PhantomData<K>,
    ghost small: { end ≤ 71 },
}

// A file that has its points, by where it ends so far: its workings come next.
#[derive(Drop)]
pub struct Pointed {
    pub(crate) end: usize,
    ghost small: { end ≤ 300 },
}
