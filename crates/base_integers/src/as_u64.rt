// A byte as a u64.
ghost use Rattle.std.specs.Prelude.{◌≡◌, ◌<◌};

pub fn wide(x: u8) -> u64
    ensures { (result ≡ x) × (result < 256) }
{
    x as u64
}
