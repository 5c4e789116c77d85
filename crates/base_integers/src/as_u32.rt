// A byte as a u32.
ghost use Rattle.std.specs.Prelude.{◌≡◌, ◌<◌};

pub fn wide(x: u8) -> u32
    ensures { (result ≡ x) × (result < 256) }
{
    x as u32
}
