// Readings as they are sent: a temperature in Celsius, a portion of a whole, each an f32 by its 32 bits.
#![tactic(auto)]

ghost use Rattle.std.specs.Prelude.{◌≡◌, ◌≤◌, ◌<◌};
ghost use Rattle.std.specs.Float.{binary32};
ghost use Rattle.std.specs.Float.Ieee.{to_bits};
ghost use Rattle.log_binary32.specs.Binary32.{portion};
ghost use Rattle.log_binary32.specs.Celsius.{celsius_bits, celsius_of, sent_of};

#[derive(Drop)]
pub enum Temperature {
    Celsius(f32),
    Fahrenheit(f32),
}

// The temperature in Celsius, each step rounded to an f32.
pub fn in_celsius(t: Temperature) -> f32
    ensures { to_bits binary32 result ≡ celsius_bits t }
{
    match t {
        Temperature::Celsius(x) => x,
        Temperature::Fahrenheit(x) => (x - 32.0) * 5.0 / 9.0,
    }
}

// Bits that are lent, if they are a finite f32's.
pub fn finite_lent(bits: u32) -> Option<u32>
    ensures { result ≡ sent_of bits }
{
    (bits % 2147483648 < 2139095040).then_some(bits)
}

// The bits of an f32 that is finite.
pub fn finite_bits(x: f32) -> Option<u32>
    ensures { result ≡ sent_of (to_bits binary32 x) }
{
    if x.is_nan() {
        None
    } else {
        finite_lent(x.to_bits())
    }
}

pub fn celsius(t: Temperature) -> Option<u32>
    ensures { result ≡ sent_of (celsius_bits t) }
{
    finite_bits(in_celsius(t))
}

// used / all, rounded once.
pub fn portion_full(used: usize, all: usize) -> u32
    requires fact_1 { used ≤ all }
    requires fact_2 { 0 < all }
    requires fact_3 { all ≤ 128 }
    ensures { result ≡ portion used all }
{
    let part = (used as f32) / (all as f32);
    part.to_bits()
}

// A temperature that is lent as its 32 bits, a NaN's too.
pub fn lent_celsius(fahrenheit: bool, bits: u32) -> Option<u32>
    ensures { result ≡ sent_of (celsius_of fahrenheit bits) }
{
    if 2139095040 < bits % 2147483648 {
        return None;
    }
    let x = f32::from_bits(bits);
    if fahrenheit {
        celsius(Temperature::Fahrenheit(x))
    } else {
        celsius(Temperature::Celsius(x))
    }
}
