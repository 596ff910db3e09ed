ghost use Rattle.std.specs.Prelude.{◌≡◌};
ghost use Rattle.sources.specs.Piles.{climbing};

use points::fault::Fault;

// A fault from below climbs whole, one storey up; storeys stop at 255.
pub fn climb<T>(r: Result<T, Fault>) -> Result<T, Fault>
    ensures { result ≡ climbing r }
{
    r.map_err(|f| Fault {
        storey: f.storey.saturating_add(1),
        ..f
    })
}
