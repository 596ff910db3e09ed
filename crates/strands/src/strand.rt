ghost use Rattle.std.specs.Prelude.{◌≡◌, ◌≤◌};

// The degree and the allowance of a polygon that stands first on a buffer. The buffer comes with each call.
#[derive(Drop)]
pub struct Strand {
    pub(crate) degree: usize,
    pub(crate) allowance: u16,
    ghost fits: { (1 ≤ degree) × (degree ≤ 16) × (allowance ≤ 65535) },
}

impl Strand {
    // The degree, 1 to 16.
    pub fn degree(&self) -> usize
        ensures { result ≡ self.now.degree }
    {
        self.degree
    }

    // By how much its points may be off, in half units.
    pub fn allowance(&self) -> u16
        ensures { result ≡ self.now.allowance }
    {
        self.allowance
    }
}
