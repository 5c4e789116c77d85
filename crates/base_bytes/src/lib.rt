// Bytes compared with no early exit.
#![tactic(auto)]

ghost use Rattle.std.specs.Prelude.{◌≡◌};
ghost use Rattle.base_definitions.specs.Lists.{same_bytes};
ghost use Rattle.base_bytes.specs.Differs.{differences};

// The differences of the bytes of two slices, place by place, ored.
fn differences(a: &[u8], b: &[u8]) -> u8
    ensures { result ≡ differences 0 a.now b.now }
{
    a.iter().zip(b).fold(0, |d, (x, y)| d | (x ^ y))
}

// Whether two slices have the same bytes; of two that are equally long all are looked at, whatever they are.
pub fn same(a: &[u8], b: &[u8]) -> bool
    ensures { result ≡ same_bytes a.now b.now }
{
    a.len() == b.len() && differences(a, b) == 0
}
