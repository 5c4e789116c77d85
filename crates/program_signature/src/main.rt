// SHA-1, HMAC and verification of published and outside vectors, a line for each.
#![tactic(auto)]

use signature_hmac::MacError;
use signature_sha1_compression::State;
use std::io;

fn show(rt: &impl Print, s: State) -> io::Result<()> {
    for byte in &signature_sha1::bytes(s) {
        print!(rt; "{byte:02x}")?;
    }
    rt.write_all(b"\n")
}

fn sha1(rt: &impl Print, name: &[u8], text: &[u8]) -> io::Result<()> {
    rt.write_all(name)?;
    match signature_sha1::sha1(text) {
        Some(s) => show(rt, s),
        None => rt.write_all(b"text too long\n"),
    }
}

fn hmac(rt: &impl Print, name: &[u8], key: &[u8], text: &[u8]) -> io::Result<()> {
    rt.write_all(name)?;
    match signature_hmac::hmac(key, text) {
        Ok(s) => show(rt, s),
        Err(MacError::KeyTooLong) => rt.write_all(b"key too long\n"),
        Err(MacError::TextTooLong) => rt.write_all(b"text too long\n"),
    }
}

fn verify(rt: &impl Print, name: &[u8], key: &[u8], text: &[u8], sent: &[u8]) -> io::Result<()> {
    rt.write_all(name)?;
    if signature_hmac::verify(key, text, sent) {
        rt.write_all(b"yes\n")
    } else {
        rt.write_all(b"no\n")
    }
}

fn fips(rt: &impl Print) -> io::Result<()> {
    sha1(rt, b"SHA-1 empty: ", b"")?;
    sha1(rt, b"SHA-1 abc: ", b"abc")?;
    sha1(
        rt,
        b"SHA-1 448 bits: ",
        b"abcdbcdecdefdefgefghfghighijhijkijkljklmklmnlmnomnopnopq",
    )?;
    sha1(
        rt,
        b"SHA-1 896 bits: ",
        b"abcdefghbcdefghicdefghijdefghijkefghijklfghijklmghijklmnhijklmnoijklmnopjklmnopqklmnopqrlmnopqrsmnopqrstnopqrstu",
    )
}

fn lengths(rt: &impl Print) -> io::Result<()> {
    let a = [97u8; 120];
    sha1(rt, b"SHA-1 55 a: ", &a[..55])?;
    sha1(rt, b"SHA-1 56 a: ", &a[..56])?;
    sha1(rt, b"SHA-1 63 a: ", &a[..63])?;
    sha1(rt, b"SHA-1 64 a: ", &a[..64])?;
    sha1(rt, b"SHA-1 119 a: ", &a[..119])?;
    sha1(rt, b"SHA-1 120 a: ", &a)
}

fn rfc(rt: &impl Print) -> io::Result<()> {
    let b = [0x0bu8; 20];
    let a = [0xaau8; 80];
    let d = [0xddu8; 50];
    let k =
        b"\x01\x02\x03\x04\x05\x06\x07\x08\x09\x0a\x0b\x0c\x0d\x0e\x0f\x10\x11\x12\x13\x14\x15\x16\x17\x18\x19";
    let e = [0xcdu8; 50];
    let c = [0x0cu8; 20];
    hmac(rt, b"HMAC RFC 2202 1: ", &b, b"Hi There")?;
    hmac(
        rt,
        b"HMAC RFC 2202 2: ",
        b"Jefe",
        b"what do ya want for nothing?",
    )?;
    hmac(rt, b"HMAC RFC 2202 3: ", &a[..20], &d)?;
    hmac(rt, b"HMAC RFC 2202 4: ", k, &e)?;
    hmac(rt, b"HMAC RFC 2202 5: ", &c, b"Test With Truncation")?;
    hmac(
        rt,
        b"HMAC RFC 2202 6: ",
        &a,
        b"Test Using Larger Than Block-Size Key - Hash Key First",
    )?;
    hmac(
        rt,
        b"HMAC RFC 2202 7: ",
        &a,
        b"Test Using Larger Than Block-Size Key and Larger Than One Block-Size Data",
    )
}

fn keys(rt: &impl Print) -> io::Result<()> {
    let a = [97u8; 129];
    hmac(rt, b"HMAC key 0: ", b"", b"text")?;
    hmac(rt, b"HMAC key 1: ", &a[..1], b"text")?;
    hmac(rt, b"HMAC key 64: ", &a[..64], b"text")?;
    hmac(rt, b"HMAC key 65: ", &a[..65], b"text")?;
    hmac(rt, b"HMAC key 128: ", &a[..128], b"text")?;
    hmac(rt, b"HMAC key 129: ", &a, b"text")
}

// One byte more than the longest text that HMAC takes.
fn many() -> [u8; 1048577] {
    [97u8; 1048577]
}

fn front(s: &[u8], n: usize) -> &[u8] {
    s.get(..n).unwrap_or(s)
}

fn long_texts(rt: &impl Print) -> io::Result<()> {
    let a = many();
    sha1(rt, b"SHA-1 1000000 a: ", front(&a, 1000000))?;
    hmac(rt, b"HMAC text 1048576: ", b"key", front(&a, 1048576))?;
    hmac(rt, b"HMAC text 1048577: ", b"key", &a)?;
    let k = [97u8; 129];
    hmac(rt, b"HMAC key 129 text 1048577: ", &k, &a)
}

// The digest of RFC 2202's first case as it is and changed.
fn verifications(rt: &impl Print) -> io::Result<()> {
    let k = [0x0bu8; 20];
    let t = b"Hi There";
    verify(
        rt,
        b"verify RFC 2202 1: ",
        &k,
        t,
        b"\xb6\x17\x31\x86\x55\x05\x72\x64\xe2\x8b\xc0\xb6\xfb\x37\x8c\x8e\xf1\x46\xbe\x00",
    )?;
    verify(
        rt,
        b"verify last byte changed: ",
        &k,
        t,
        b"\xb6\x17\x31\x86\x55\x05\x72\x64\xe2\x8b\xc0\xb6\xfb\x37\x8c\x8e\xf1\x46\xbe\x01",
    )?;
    verify(
        rt,
        b"verify first byte changed: ",
        &k,
        t,
        b"\x36\x17\x31\x86\x55\x05\x72\x64\xe2\x8b\xc0\xb6\xfb\x37\x8c\x8e\xf1\x46\xbe\x00",
    )
}

// The same digest cut and lengthened, and under a key that is too long.
fn more_verifications(rt: &impl Print) -> io::Result<()> {
    let k = [0x0bu8; 20];
    let t = b"Hi There";
    verify(
        rt,
        b"verify 19 bytes: ",
        &k,
        t,
        b"\xb6\x17\x31\x86\x55\x05\x72\x64\xe2\x8b\xc0\xb6\xfb\x37\x8c\x8e\xf1\x46\xbe",
    )?;
    verify(
        rt,
        b"verify 21 bytes: ",
        &k,
        t,
        b"\xb6\x17\x31\x86\x55\x05\x72\x64\xe2\x8b\xc0\xb6\xfb\x37\x8c\x8e\xf1\x46\xbe\x00\x00",
    )?;
    verify(rt, b"verify no bytes: ", &k, t, b"")?;
    let long = [0x0bu8; 129];
    verify(
        rt,
        b"verify key 129: ",
        &long,
        t,
        b"\xb6\x17\x31\x86\x55\x05\x72\x64\xe2\x8b\xc0\xb6\xfb\x37\x8c\x8e\xf1\x46\xbe\x00",
    )
}

fn main(rt: HostRuntime) -> io::Result<()> {
    fips(&rt)?;
    lengths(&rt)?;
    rfc(&rt)?;
    keys(&rt)?;
    long_texts(&rt)?;
    verifications(&rt)?;
    more_verifications(&rt)
}
