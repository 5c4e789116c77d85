// Sets of small numbers as bits, and the permissions that a scope may list.
#![tactic(auto)]

ghost use Rattle.std.specs.Prelude.{◌≡◌, ◌<◌};
ghost use Rattle.base_definitions.specs.Bits.{with_bit};
ghost use Rattle.access_record.specs.Table.{named};

// Is this one of the permissions that a scope may list?
pub fn is_permission(p: u64) -> bool
    ensures { result ≡ named p }
{
    matches!(p, 0..=5 | 7..=9)
}

// The set with one number more.
pub fn with_bit(mask: u16, bit: u8) -> u16
    requires { bit < 16 }
    ensures { result ≡ with_bit mask bit }
{
    if (mask >> bit) % 2 == 1 {
        return mask;
    }
    mask + (1 << bit)
}
