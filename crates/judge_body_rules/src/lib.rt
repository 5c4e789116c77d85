// Document 01, "The order of judgement": the rules of step 8.
#![tactic(auto)]

ghost use Rattle.std.specs.Prelude.{◌≡◌, List, ℕ};
ghost use Rattle.fields_schema.specs.Tree.{guard};
ghost use Rattle.protocol.specs.Failure.{fault_of};
ghost use Rattle.protocol.specs.Command.{KeyValue, Range, Body};
ghost use Rattle.protocol.specs.Judge.{broken, fault, key_value_good, range_good};
ghost use Rattle.judge_body_rules.specs.BodyParts.{most_value, part_fault, Lengths, RangeLengths, Checked};

use protocol::Operation;
use protocol::status::Failure;

// What comes of a rule: it is kept, or it says why the request is refused.
pub type Judged = Result<(), Failure>;

// What says so: a code, 0 for a rule that is kept, or what comes of it.
pub trait Code: Copy {
    ghost code: { Self → ℕ };

    fn of(judged: Judged) -> Self
        ensures { code result ≡ fault_of judged };
}

impl Code for u64 {
    ghost code = { λ c. c };

    fn of(judged: Judged) -> u64 {
        match judged {
            Ok(()) => 0,
            Err(failure) => failure.number(),
        }
    }
}

impl Code for Judged {
    ghost code = { fault_of };

    fn of(judged: Judged) -> Judged {
        judged
    }
}

// The lengths of a keyValue's key, newVersion, dbVersion and tag.
pub fn key_value_good(key: usize, new: usize, old: usize, tag: usize) -> bool
    ensures { (k : KeyValue) → Lengths k key new old tag → result ≡ key_value_good k }
{
    (1..=64).contains(&key) && new <= 16 && old <= 16 && tag <= 32
}

// Whether startKey and endKey are there, their lengths, and maxReturned as a 64-bit word.
pub fn range_good(starts: bool, start: usize, ends: bool, end: usize, most: u64) -> bool
    ensures { (g : Range) → RangeLengths g (guard starts start) (guard ends end) most → result ≡ range_good g }
{
    starts && start <= 64 && ends && end <= 64 && most <= 32
}

// Whether a rule is kept.
pub fn broken(good: bool) -> Judged
    ensures { fault_of result ≡ broken good }
{
    if good {
        return Ok(());
    }
    Err(Failure::InvalidRequest)
}

// The longest value part that an operation may have.
fn most_value(o: Operation) -> usize
    ensures { result ≡ most_value o }
{
    match o {
        Operation::Put => 384,
        _ => 0,
    }
}

// What is wrong with the part that an operation uses.
fn part_fault<C: Code>(
    operation: Operation,
    pair: C,
    change: C,
    range: C,
    setup: C,
    log: C,
    security: C,
) -> C
    ensures { C.code result ≡ part_fault operation (C.code pair) (C.code change) (C.code range) (C.code setup) (C.code log)
        (C.code security) }
{
    match operation {
        Operation::Noop | Operation::FlushAllData => C::of(Ok(())),
        Operation::Get | Operation::GetVersion | Operation::GetNext | Operation::GetPrevious =>
            pair,
        Operation::Put | Operation::Delete => change,
        Operation::GetKeyRange => range,
        Operation::Setup => setup,
        Operation::GetLog => log,
        Operation::Security => security,
    }
}

// What is wrong with a body: from the length of the value part and what is wrong with each part.
pub fn fault<C: Code>(
    operation: Operation,
    value: usize,
    pair: C,
    change: C,
    range: C,
    setup: C,
    log: C,
    security: C,
) -> C
    ensures { (b : Body) (v : List ℕ)
        → Checked operation b v value (C.code pair) (C.code change) (C.code range) (C.code setup) (C.code log) (C.code security)
        → C.code result ≡ fault operation b v }
{
    if most_value(operation) < value {
        return C::of(Err(Failure::InvalidRequest));
    }
    part_fault(operation, pair, change, range, setup, log, security)
}
