// One field of a message of a kind: what the table makes of it.
#![tactic(auto)]

ghost use Rattle.std.specs.Prelude.{◌≡◌, List, ℕ, ◌+◌, ◌^◌, ◌<◌, true, IfSome};
ghost use Rattle.fields_wire_reader.specs.FieldAnswer.{EndsFound};
ghost use Rattle.fields_schema.specs.Tree.{Item};
ghost use Rattle.base_definitions.specs.Bits.{bit};
ghost use Rattle.fields_rule.specs.Judged.{with_again, with_mark, is_single, listed_by, unlisted_of, Marks, Judges};

use fields_schema::{Form, Kind, Rule};
use fields_schema_strict::strict;
use fields_schema_table::rule_of;
use fields_value::{Taken, take_value};
use fields_wire_reader::{Found, number_of};

// A message is refused for a field that may not be there, or not again, whatever it holds,
// or for a listed one whose form refuses what it holds, with its number and the marks of the singular numbers up to it.
#[derive(Clone, Copy, Debug, PartialEq, Eq)]
pub enum Refusal {
    Never,
    Wrong { number: usize, seen: u64 },
}

// How a listed field is read, with the marks of the singular numbers up to it.
#[derive(Clone, Copy)]
pub struct Listed {
    pub form: Form,
    pub seen: u64,
}

// A listed field: its number, what it holds, and the marks of the singular numbers up to it.
#[derive(Clone, Copy)]
pub struct Take {
    pub number: usize,
    pub seen: u64,
    pub what: Taken,
}

// Whether number n has come.
pub fn marked(seen: u64, n: u64) -> bool
    requires { n < 16 }
    ensures { result ≡ bit seen n }
{
    (seen >> n) % 2 == 1
}

fn mark(seen: u64, n: u64) -> u64
    requires { (n < 16) × (seen < 65536) }
    ensures { result ≡ seen + 2 ^ n }
{
    seen + (1 << n)
}

// The marks with bit 0: a singular number has come again.
fn with_again(seen: u64) -> u64
    requires { seen < 65536 }
    ensures { result ≡ with_again seen }
{
    if marked(seen, 0) {
        return seen;
    }
    mark(seen, 0)
}

// The marks with that of number n, which may be there already.
fn with_mark(seen: u64, n: u64) -> u64
    requires { (n < 16) × (seen < 65536) }
    ensures { result ≡ with_mark seen n }
{
    if marked(seen, n) {
        return with_again(seen);
    }
    mark(seen, n)
}

// A field that is not listed is skipped, but for a strict kind.
fn unlisted(kind: Kind) -> Result<Option<Take>, Refusal>
    ensures { result ≡ unlisted_of kind }
{
    if strict(kind) {
        return Err(Refusal::Never);
    }
    Ok(None)
}

// What the table's rule says of number n, after those whose singular numbers are marked in `seen`: how it is read, if it is listed.
fn by_rule(r: Rule, seen: u64, n: u64) -> Result<Option<Listed>, Refusal>
    requires { (seen < 65536) × (is_single r ≡ true → n < 16) }
    ensures { result ≡ listed_by r seen n }
{
    match r {
        Rule::Unlisted => Ok(None),
        Rule::Refused => Err(Refusal::Never),
        Rule::Once(form) => {
            if marked(seen, n) {
                return Err(Refusal::Never);
            }
            Ok(Some(Listed {
                form,
                seen: with_mark(seen, n),
            }))
        }
        Rule::Single(form) => Ok(Some(Listed {
            form,
            seen: with_mark(seen, n),
        })),
        Rule::Repeated(form) => Ok(Some(Listed { form, seen })),
    }
}

// A field after those whose singular numbers are marked in `seen`; none where it is skipped. No field is judged as one that is not listed.
// What it holds is read in one place, so that the compiler does so here.
#[inline(always)]
pub fn judge(kind: Kind, seen: u64, f: Option<Found>) -> Result<Option<Take>, Refusal>
    requires { seen < 65536 }
    ensures { (s : List ℕ) (at : ℕ) (is : List Item) → IfSome f (EndsFound s at) → Marks kind seen is → Judges s kind is f result }
{
    let n = number_of(f);
    let Some(listed) = by_rule(rule_of(kind, n), seen, n)? else {
        return unlisted(kind);
    };
    let number = n as usize;
    let Some(what) = take_value(listed.form, f) else {
        return Err(Refusal::Wrong {
            number,
            seen: listed.seen,
        });
    };
    Ok(Some(Take {
        number,
        seen: listed.seen,
        what,
    }))
}
