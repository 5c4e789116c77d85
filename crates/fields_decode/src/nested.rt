// Messages inside messages.
ghost use Rattle.std.specs.Prelude.{◌≡◌};
ghost use Rattle.fields_schema.specs.Tree.{is_some, listed};
ghost use Rattle.fields_value.specs.Taken.{InsideTaken};
ghost use Rattle.fields_decode.specs.Nested.{opens_taken};

use fields_rule::judge;
use fields_schema::Kind;
use fields_value::Taken;
use fields_wire_reader::read_field;

// Whether a message of a kind decodes, with the messages inside it, at every depth: one pass, from place to place.
#[cycle(opens_reads)]
pub fn reads(s: &[u8], kind: Kind) -> bool
    ensures { result ≡ is_some (listed kind s.now) }
{
    let mut seen: u64 = 0;
    // A while: each field says where the next one starts.
    let mut at = 0;
    while at < s.len() {
        let Some(f) = read_field(s, at) else {
            return false;
        };
        let judged = match judge(kind, seen, Some(f)) {
            Ok(judged) => judged,
            Err(_) => return false,
        };
        if let Some(t) = judged {
            if !opens(s, t.what) {
                return false;
            }
            seen = t.seen;
        }
        at = f.next;
    }
    true
}

// Whether a listed field decodes: a message, if it is one.
#[cycle(opens_reads)]
fn opens(s: &[u8], what: Taken) -> bool
    requires { InsideTaken s.now what }
    ensures { result ≡ opens_taken s.now what }
{
    match what {
        Taken::Inside { kind, start, len } => {
            let end = start + len;
            reads(&s[start..end], kind)
        }
        _ => true,
    }
}
