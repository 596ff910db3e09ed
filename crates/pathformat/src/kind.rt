ghost use Rattle.std.specs.Prelude.{◌≡◌};
ghost use Rattle.pathformat.specs.File.{code};

// The kinds of point that a path file can hold.
#[derive(Clone, Copy, PartialEq, Eq, Debug)]
pub enum FileKind {
    Height,
    Planar,
    Sample,
}

// The byte that names the kind in a file's head, 1 to 3.
impl From<FileKind> for u8 {
    ghost from_gives = { λ kind n. n ≡ code kind };

    fn from(kind: FileKind) -> u8 {
        match kind {
            FileKind::Height => 1,
            FileKind::Planar => 2,
            FileKind::Sample => 3,
        }
    }
}
