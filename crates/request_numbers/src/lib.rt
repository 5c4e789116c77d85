// A number of a message where it may be absent.
#![tactic(auto)]

ghost use Rattle.std.specs.Prelude.{◌≡◌};
ghost use Rattle.base_integers.specs.Signed.{word_of};
ghost use Rattle.fields_lookup.specs.Views.{num_view, signed_view};
ghost use Rattle.base_definitions.specs.Options.{or_else};
ghost use Rattle.protocol.specs.Command.{flag};

pub fn number_or(n: Option<u64>, absent: u64) -> u64
    ensures { result ≡ or_else absent (num_view n) }
{
    n.unwrap_or(absent)
}

pub fn signed_or(n: Option<i64>, absent: i64) -> i64
    ensures { word_of result ≡ or_else (word_of absent) (signed_view n) }
{
    n.unwrap_or(absent)
}

pub fn flag_of(n: Option<u64>) -> bool
    ensures { result ≡ flag (num_view n) }
{
    n.is_some_and(|v| v != 0)
}
