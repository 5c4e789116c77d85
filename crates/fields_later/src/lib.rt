// Of two numbers or parts of a message, one sent after the other, the one that counts.
#![tactic(auto)]

ghost use Rattle.std.specs.Prelude.{cond, ◌≡◌};
ghost use Rattle.std.specs.Option.{option_or};

use fields_lookup::parts::Part;

// The later one, or where there is none the earlier.
pub fn later<T: Copy>(before: Option<T>, after: Option<T>) -> Option<T>
    ensures { result ≡ option_or after before }
{
    after.or(before)
}

// The later part, or where there is none the earlier.
pub fn later_part(before: Part, after: Part) -> Part
    ensures { result ≡ cond after.has after before }
{
    let has = after.has;
    if has {
        return Part {
            has: true,
            start: after.start,
            len: after.len,
        };
    }
    Part {
        has: before.has,
        start: before.start,
        len: before.len,
    }
}
