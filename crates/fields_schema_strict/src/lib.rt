// What the table does not list: values that an enum does not name, and numbers that a strict kind refuses.
#![tactic(auto)]

ghost use Rattle.std.specs.Prelude.{◌≡◌};
ghost use Rattle.fields_schema.specs.Rules.{names_of, strict_of};
ghost use Rattle.fields_schema.specs.Tree.{among};

use fields_schema::{Kind, Names};

// Whether an enum names a value.
pub fn named(e: Names, v: u64) -> bool
    ensures { result ≡ among v (names_of e) }
{
    match e {
        Names::Priority => matches!(v, 1 | 3 | 5 | 7 | 9),
        Names::Algorithm => matches!(v, 1..=6),
        Names::Synchronization => matches!(v, 1..=3),
        Names::LogType => matches!(v, 0..=7),
        Names::StatusCode => matches!(v, 1..=4 | 6..=8 | 14..=16 | 20),
    }
}

// Whether an unlisted number refuses a message of the kind.
pub fn strict(k: Kind) -> bool
    ensures { result ≡ strict_of k }
{
    matches!(k, Kind::Security | Kind::Acl | Kind::Scope)
}
