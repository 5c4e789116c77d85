// The rescue, and what became of the blocks.
ghost use Rattle.std.specs.Prelude.{◌≡◌, ◌==◌, count_by};

use crate::{Host, row};
use program_reply::columns::newline;
use program_words::write;
use std::io;
use store_rescue::rule::RescueError;

// How often b stands in a report.
fn times(report: &[u8], b: u8) -> usize
    ensures { result ≡ count_by (λ x. x == b) report.now }
{
    report.iter().filter(|x| **x == b).count()
}

fn amount(rt: &impl Print, name: &[u8], report: &[u8], b: u8) -> io::Result<()> {
    write(rt, name)?;
    let n = times(report, b);
    print!(rt; "{n}")
}

fn amounts(rt: &impl Print, report: &[u8]) -> io::Result<()> {
    amount(rt, b"kept ", report, 1)?;
    amount(rt, b", blank ", report, 0)?;
    amount(rt, b", check wrong ", report, 2)?;
    amount(rt, b", rule broken ", report, 3)?;
    amount(rt, b", key twice ", report, 4)?;
    newline(rt)
}

fn rescued(rt: &impl Print, r: Result<(), RescueError>, report: &[u8]) -> io::Result<()> {
    match r {
        Ok(()) => amounts(rt, report),
        Err(RescueError::StoreBad) => write(rt, b"refusal 2 STORE_BAD\n"),
        Err(RescueError::ReportBad) => write(rt, b"refusal 8 REPORT_BAD\n"),
    }
}

fn rescue_lent(rt: &impl Print, store: &mut [u8], report: &mut [u8]) -> io::Result<()> {
    let r = store_rescue::rescue::rescue(store, report);
    rescued(rt, r, report)
}

pub fn rescue(rt: &impl Print, asked: &[u8], store: &mut [u8], host: Host) -> io::Result<Host> {
    let mut report = [0u8; 128];
    let next = row(rt, asked, host)?;
    let n = host.store;
    let blocks = n / 512;
    if n <= store.len() && blocks <= 128 {
        rescue_lent(rt, &mut store[0..n], &mut report[0..blocks])?;
    }
    Ok(next)
}
