// The status of a reply by its name.
use crate::columns::label;
use std::io;

// What the box answered, in 28 places.
pub fn answer_text(rt: &impl Print, said: &[u8]) -> io::Result<()> {
    label(rt, said, 28)
}

// The name of a status code.
pub fn status_name(code: u8) -> &'static [u8] {
    match code {
        1 => b"SUCCESS (1)",
        2 => b"HMAC_FAILURE (2)",
        3 => b"NOT_AUTHORIZED (3)",
        4 => b"VERSION_FAILURE (4)",
        6 => b"HEADER_REQUIRED (6)",
        7 => b"NOT_FOUND (7)",
        8 => b"VERSION_MISMATCH (8)",
        14 => b"NO_SPACE (14)",
        15 => b"NO_SUCH_HMAC_ALGORITHM (15)",
        16 => b"INVALID_REQUEST (16)",
        20 => b"CONNECTION_TERMINATED (20)",
        _ => b"?",
    }
}
