// A day of a full store: 128 entries put in shuffled order, the 129th, deletes and refills. Each line shows the answer and the
// Adler-32 of the whole store; tests/store_expected.py computes the same from document 01's table alone.
#![tactic(auto)]

ghost use Rattle.std.specs.Prelude.{◌≡◌, length};

use std::io;
use store_layout::{EntryPart, PutError};
use store_local_read::StoreBad;

fn main(rt: HostRuntime) -> io::Result<()> {
    let mut lent = [0u8; 65536];
    store_write::write::blank(&mut lent);
    fill(&rt, &mut lent)?;
    show(&rt, b"full ", 128, put(&mut lent, 128), &lent)?;
    show(&rt, b"over ", 261, put(&mut lent, 261), &lent)?;
    thin(&rt, &mut lent)?;
    refill(&rt, &mut lent)?;
    read(&rt, &lent, 5)?;
    read(&rt, &lent, 4)?;
    read(&rt, &lent, 108)?;
    show(&rt, b"again", 300, put(&mut lent, 300), &lent)?;
    lent[512] = 2;
    read(&rt, &lent, 5)
}

// 128 entries, in the order of 37 times the place; every eighth is shown.
fn fill(rt: &impl Print, lent: &mut [u8]) -> io::Result<()> {
    for i in 0..128 {
        let n = i * 37 % 128;
        let r = put(lent, n);
        if i % 8 == 7 {
            show(rt, b"put  ", n, r, lent)?;
        }
    }
    Ok(())
}

// Every fifth entry deleted.
fn thin(rt: &impl Print, lent: &mut [u8]) -> io::Result<()> {
    for n in (4..130).step_by(5) {
        show(rt, b"del  ", n, delete(lent, n), lent)?;
    }
    Ok(())
}

// The room used again, by keys of other lengths.
fn refill(rt: &impl Print, lent: &mut [u8]) -> io::Result<()> {
    for n in 201..227 {
        show(rt, b"put  ", n, put(lent, n), lent)?;
    }
    Ok(())
}

// The key of entry n, with bytes behind it: 107 n % 64 times, and then n % 256.
fn key_of(n: usize) -> [u8; 64] {
    let mut key = [107u8; 64];
    key[n % 64] = (n % 256) as u8;
    key
}

// Entry n: its version, tag and value rise from n.
fn put(lent: &mut [u8], n: usize) -> u64 {
    let mut rising = [0u8; 384];
    rise(&mut rising, n);
    put_parts(lent, &key_of(n), &rising, n)
}

fn put_parts(lent: &mut [u8], key: &[u8], rising: &[u8], n: usize) -> u64
    requires { (length key.now ≡ 64) × (length rising.now ≡ 384) }
{
    if !store_check::check(lent) {
        return 9;
    }
    let k = n % 64 + 1;
    let v = n % 17;
    let t = n % 33;
    let w = n % 129 * 3;
    let g = (n % 7) as u8;
    match store_write::put::put(
        lent,
        &key[0..k],
        &rising[0..v],
        &rising[0..t],
        &rising[0..w],
        g,
    ) {
        Ok(()) => 0,
        Err(PutError::Full) => 1,
        Err(PutError::Unfit) => 2,
    }
}

fn delete(lent: &mut [u8], n: usize) -> u64 {
    delete_key(lent, &key_of(n), n)
}

fn delete_key(lent: &mut [u8], key: &[u8], n: usize) -> u64
    requires { length key.now ≡ 64 }
{
    if !store_check::check(lent) {
        return 9;
    }
    let k = n % 64 + 1;
    if store_write::delete::delete(lent, &key[0..k]) {
        0
    } else {
        1
    }
}

// What a local read of entry n's key finds, and the value's Adler-32.
fn read(rt: &impl Print, lent: &[u8], n: usize) -> io::Result<()> {
    read_key(rt, lent, &key_of(n), n)
}

fn read_key(rt: &impl Print, lent: &[u8], key: &[u8], n: usize) -> io::Result<()>
    requires { length key.now ≡ 64 }
{
    let k = n % 64 + 1;
    let r = number(store_local_read::local_find(lent, &key[0..k]));
    show(
        rt,
        b"read ",
        n,
        r,
        store_local_read::local_read(lent, &key[0..k]),
    )
}

fn number(r: Result<Option<EntryPart>, StoreBad>) -> u64 {
    match r {
        Ok(Some(_)) => 0,
        Ok(None) => 1,
        Err(StoreBad) => 2,
    }
}

fn rise(out: &mut [u8], n: usize) {
    for (j, x) in out.iter_mut().enumerate() {
        *x = ((n % 256 + j) % 256) as u8;
    }
}

fn show(rt: &impl Print, name: &[u8], n: usize, answer: u64, bytes: &[u8]) -> io::Result<()> {
    rt.write_all(name)?;
    let sum = adler(bytes);
    println!(rt; " {n} {answer} {sum:08x}")
}

fn adler(bytes: &[u8]) -> u64 {
    let mut a: u64 = 1;
    let mut b: u64 = 0;
    for x in bytes {
        a = (a + u64::from(*x)) % 65521;
        b = (b + a) % 65521;
    }
    b * 65536 + a
}
