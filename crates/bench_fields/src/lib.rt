// The reading of a command for C, as the benchmark links it.
#![tactic(auto)]

ghost use Rattle.std.specs.Prelude.{cond, ◌≡◌, List, ℕ};
ghost use Rattle.base_definitions.specs.Options.{or_else};
ghost use Rattle.fields_lookup.specs.Views.{num_view, signed_view};
ghost use Rattle.fields_schema.specs.Tree.{is_some, listed, map_o};
ghost use Rattle.protocol.specs.Command.{command_of};
ghost use Rattle.protocol.specs.Reading.{decodes};
ghost use Rattle.request_command.specs.Views.{BodyLies};
ghost use Rattle.bench_fields.specs.Held.{said, held, left, taken_out};

use base_integers::word;
use fields_decode::nested::reads;
use fields_lookup::parts::Part;
use fields_schema::Kind;
use request_command::{Request, read_request};
use request_numbers::{number_or, signed_or};

// 0 if the command decodes, else 1.
#[unsafe(no_mangle)]
pub extern "C" fn fields_reads(s: &[u8]) -> u32
    ensures { result ≡ cond (is_some (listed (Kind.Command) s.now)) 0 1 }
{
    if reads(s, Kind::Command) {
        return 0;
    }
    1
}

// A number, if the message is there that it would stand in.
fn number_in(there: bool, n: Option<u64>) -> u64
    ensures { result ≡ cond there (or_else 0 (num_view n)) 0 }
{
    if there {
        return number_or(n, 0);
    }
    0
}

// The same of a signed number, as its word.
fn signed_in(there: bool, n: Option<i64>) -> u64
    ensures { result ≡ cond there (or_else 0 (signed_view n)) 0 }
{
    if there {
        return word(signed_or(n, 0));
    }
    0
}

// The same of the length of a part.
fn length_in(there: bool, p: Part) -> u64
    ensures { result ≡ cond there p.len 0 }
{
    if there {
        return p.len as u64;
    }
    0
}

// The numbers of a request, and the lengths of its parts.
fn numbers(r: Request, out: &mut [u64; 9])
    ensures { (s : List ℕ) → BodyLies s r.body → out.new ≡ held (said s r) }
{
    let headed = r.headed;
    let keyed = r.body.keyed;
    let h = r.header;
    let e = r.body.entry;
    *out = [
        signed_in(headed, h.cluster),
        signed_in(headed, h.connection),
        signed_in(headed, h.sequence),
        number_in(headed, h.kind),
        length_in(keyed, e.version),
        length_in(keyed, e.key),
        length_in(keyed, e.expected),
        length_in(keyed, e.tag),
        number_in(keyed, e.algorithm),
    ];
}

// As the box reads it: 0 if the command decodes, and then its numbers and the lengths of its parts, as a PUT has them; else 1, and nothing is written.
#[unsafe(no_mangle)]
pub extern "C" fn fields_request(s: &[u8], out: &mut [u64; 9]) -> u32
    ensures { left result out.new ≡ taken_out out.old (map_o command_of (decodes s.now)) }
{
    let r = read_request(s);
    let ok = r.ok;
    if ok {
        numbers(r, out);
        return 0;
    }
    1
}
