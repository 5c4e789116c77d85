// The readings that a host lends, 134 bytes: up to four temperatures and two utilizations, each with its name.
#![tactic(auto)]

ghost use Rattle.std.specs.Prelude.{◌≡◌, true, ◌+◌, ◌≤◌, length, get_or};
ghost use Rattle.log_readings.specs.Lent.{places_from, all_named, readings_good};
ghost use Rattle.log_readings.specs.Places.{fits};

use base_integers::as_usize::wide;

fn name_fits(n: u8) -> bool
    ensures { result ≡ fits n }
{
    (1..=16).contains(&n)
}

// Has each of `n` places from `first` on a name of 1 to 16 bytes?
fn named(s: &[u8], first: usize, n: usize) -> bool
    requires { (length s.now ≡ 134) × (first + n ≤ 6) }
    ensures { result ≡ all_named (places_from s.now first n) }
{
    for i in first..first + n {
        if !name_fits(s[3 + i * 22]) {
            return false;
        }
    }
    true
}

// Are the counts, the names and the length as document 02 has them?
pub fn good(s: &[u8]) -> bool
    ensures { result ≡ readings_good s.now }
{
    if s.len() != 134 {
        return false;
    }
    let t = wide(s[0]);
    let u = wide(s[1]);
    t <= 4 && u <= 2 && named(s, 0, t) && named(s, 4, u)
}

// How many temperatures there are: the places from 0 on.
pub fn temperatures(s: &[u8]) -> usize
    requires { readings_good s.now ≡ true }
    ensures { (result ≡ get_or s.now 0 0) × (result ≤ 4) }
{
    wide(s[0])
}

// How many utilizations there are: the places from 4 on.
pub fn utilizations(s: &[u8]) -> usize
    requires { readings_good s.now ≡ true }
    ensures { (result ≡ get_or s.now 1 0) × (result ≤ 2) }
{
    wide(s[1])
}
