// Prints what is sent of f32s: of patterns (as Celsius, as Fahrenheit, as a utilization), of temperatures in decimal, of portions, and a sum over a sweep
// of patterns. Then reads lent readings, 134 bytes each, and prints the name and value of each that is sent, or 'refused'.
#![tactic(auto)]

ghost use Rattle.std.specs.Prelude.{◌<◌, ◌≤◌};
ghost use Rattle.log_readings.specs.Places.{Placed, Places};

use log_binary32::Temperature;
use std::io;

fn write(rt: &impl Print, b: &[u8]) -> io::Result<()> {
    rt.write_all(b)
}

fn show(rt: &impl Print, s: Option<u32>) -> io::Result<()> {
    match s {
        Some(b) => print!(rt; "{b:08x}"),
        None => write(rt, b"omitted"),
    }
}

fn pattern(rt: &impl Print, bits: u32) -> io::Result<()> {
    print!(rt; "{bits:08x} ")?;
    show(rt, log_binary32::lent_celsius(false, bits))?;
    write(rt, b" ")?;
    show(rt, log_binary32::lent_celsius(true, bits))?;
    write(rt, b" ")?;
    show(rt, log_binary32::finite_lent(bits))?;
    write(rt, b"\n")
}

// 0, -0.0, 32, 212, 98.6, -459.67, the largest and its negative; then subnormals and the least normal.
fn patterns(rt: &impl Print) -> io::Result<()> {
    pattern(rt, 0x00000000)?;
    pattern(rt, 0x80000000)?;
    pattern(rt, 0x42000000)?;
    pattern(rt, 0x43540000)?;
    pattern(rt, 0x42c53333)?;
    pattern(rt, 0xc3e5d5c3)?;
    pattern(rt, 0x7f7fffff)?;
    pattern(rt, 0xff7fffff)?;
    pattern(rt, 0x00000001)?;
    pattern(rt, 0x80000001)?;
    pattern(rt, 0x007fffff)?;
    pattern(rt, 0x00800000)
}

// NaNs, the infinities, the neighbours of 32, those where five times overflows, -40 and 0.1.
fn more_patterns(rt: &impl Print) -> io::Result<()> {
    pattern(rt, 0x7fc00000)?;
    pattern(rt, 0xff800001)?;
    pattern(rt, 0x7f800000)?;
    pattern(rt, 0xff800000)?;
    pattern(rt, 0x41ffffff)?;
    pattern(rt, 0x42000001)?;
    pattern(rt, 0x7e4ccccc)?;
    pattern(rt, 0x7e4ccccd)?;
    pattern(rt, 0xfe4ccccd)?;
    pattern(rt, 0xc2200000)?;
    pattern(rt, 0x3dcccccd)
}

fn degrees(rt: &impl Print, t: Temperature) -> io::Result<()> {
    show(rt, log_binary32::celsius(t))?;
    write(rt, b"\n")
}

fn decimal(rt: &impl Print) -> io::Result<()> {
    degrees(rt, Temperature::Fahrenheit(98.6))?;
    degrees(rt, Temperature::Fahrenheit(-459.67))?;
    degrees(rt, Temperature::Fahrenheit(-0.0))?;
    degrees(rt, Temperature::Celsius(-0.0))?;
    degrees(rt, Temperature::Celsius(37.0))?;
    let zero: f32 = 0.0;
    degrees(rt, Temperature::Celsius(zero / zero))?;
    degrees(rt, Temperature::Fahrenheit(1.0 / zero))
}

fn portion(rt: &impl Print, used: usize, all: usize) -> io::Result<()>
    requires { (used ≤ all) × ((0 < all) × (all ≤ 128)) }
{
    let full = log_binary32::portion_full(used, all);
    println!(rt; "{used}/{all} {full:08x}")
}

fn portions(rt: &impl Print) -> io::Result<()> {
    portion(rt, 0, 1)?;
    portion(rt, 1, 3)?;
    portion(rt, 2, 3)?;
    portion(rt, 127, 128)?;
    portion(rt, 128, 128)?;
    portion(rt, 1, 128)?;
    portion(rt, 0, 128)?;
    portion(rt, 1, 7)?;
    portion(rt, 5, 100)?;
    portion(rt, 99, 127)
}

fn added(sum: u32, s: Option<u32>) -> u32 {
    match s {
        Some(b) => sum.wrapping_add(b),
        None => sum.wrapping_add(1),
    }
}

// The sum, by 2 ^ 32, over `count` patterns from 0 on, `step` apart, of what is sent of each as Fahrenheit; 1 for one that is omitted.
fn sweep(step: u32, count: u32) -> u32 {
    let mut sum: u32 = 0;
    let mut bits: u32 = 0;
    for _ in 0..count {
        sum = added(sum, log_binary32::lent_celsius(true, bits));
        bits = bits.wrapping_add(step);
    }
    sum
}

fn reading(rt: &impl Print, s: &[u8], place: usize, temperature: bool) -> io::Result<()>
    requires { Placed s.now place }
{
    write(rt, log_sample::name_of(s, place))?;
    write(rt, b" ")?;
    show(rt, log_sample::value_at(s, place, temperature))?;
    write(rt, b"\n")
}

fn places(
    rt: &impl Print,
    s: &[u8],
    first: usize,
    count: usize,
    temperature: bool,
) -> io::Result<()>
    requires { Places s.now first count }
{
    for i in 0..count {
        reading(rt, s, first + i, temperature)?;
    }
    Ok(())
}

fn area(rt: &impl Print, s: &[u8]) -> io::Result<()> {
    if !log_readings::good(s) {
        return write(rt, b"refused\n");
    }
    write(rt, b"good\n")?;
    places(rt, s, 0, log_readings::temperatures(s), true)?;
    places(rt, s, 4, log_readings::utilizations(s), false)
}

fn areas(rt: &impl Print, b: &[u8]) -> io::Result<()> {
    for lent in b.chunks(134) {
        area(rt, lent)?;
    }
    Ok(())
}

fn main(rt: HostRuntime) -> io::Result<()> {
    patterns(&rt)?;
    more_patterns(&rt)?;
    decimal(&rt)?;
    portions(&rt)?;
    let sum = sweep(2654435769, 2000);
    println!(rt; "{sum:08x}")?;
    let mut input = [0u8; 4096];
    let n = program_words::read_full(&mut rt.reader(), &mut input)?;
    areas(&rt, &input[..n])
}
