// The samples of the readings that a host lends: the name at a place, and its value as it is sent.
#![tactic(auto)]

ghost use Rattle.std.specs.Prelude.{◌≡◌, ◌+◌, ◌≤◌, ◌<◌, length};
ghost use Rattle.log_binary32.specs.Celsius.{sent_bits};
ghost use Rattle.log_readings.specs.Lent.{bits_at, place_at, sample_of};
ghost use Rattle.log_readings.specs.Places.{Placed};

use base_integers::as_usize::wide;

pub fn name_of(s: &[u8], place: usize) -> &[u8]
    requires { Placed s.now place }
    ensures { (result.now ≡ (place_at s.now place).name) × (1 ≤ length result.now) × (length result.now ≤ 16) }
{
    let start = 4 + place * 22;
    let end = start + wide(s[3 + place * 22]);
    &s[start..end]
}

// Four bytes, the highest first.
fn bits_at(s: &[u8], a: usize) -> u32
    requires { a + 4 ≤ length s.now }
    ensures { result ≡ bits_at s.now a }
{
    u32::from_be_bytes([s[a], s[a + 1], s[a + 2], s[a + 3]])
}

// What is sent of the value at a place: as a temperature, in Celsius; as a utilization, as it is.
pub fn value_at(s: &[u8], place: usize, temperature: bool) -> Option<u32>
    requires { Placed s.now place }
    ensures { sent_bits result ≡ (sample_of temperature (place_at s.now place)).value }
{
    let a = 2 + place * 22;
    let bits = bits_at(s, a + 18);
    if temperature {
        log_binary32::lent_celsius(s[a] != 0, bits)
    } else {
        log_binary32::finite_lent(bits)
    }
}
