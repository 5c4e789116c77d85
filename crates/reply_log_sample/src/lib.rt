// The readings in a log, document 02, CR 1: utilizations and temperatures, each written in front of what stands behind it.
#![tactic(auto)]

ghost use Rattle.std.specs.Prelude.{◌+◌, ◌^◌, ◌<◌, ◌≤◌, length};
ghost use Rattle.fields_schema.specs.FieldNumbers.{Utilization-value};
ghost use Rattle.fields_schema.specs.Tree.{map_o, done};
ghost use Rattle.fields_encoding.specs.Encode.{len_field, float_bytes, encode, fix_o, each_sub};
ghost use Rattle.fields_write_bytes.specs.Pushed.{Pushed};
ghost use Rattle.log_binary32.specs.Celsius.{sent_bits};
ghost use Rattle.log_readings.specs.Lent.{place_at, sample_of};
ghost use Rattle.log_readings.specs.Places.{Placed, Places};
ghost use Rattle.protocol.specs.Reply.{sample_tree};
ghost use Rattle.reply_log_sample.specs.Samples.{sample_trees};

use fields_schema::field_number::utilization;

// The value of a utilization or the current of a temperature, which have one number: a float, if it is sent.
fn push_sent(out: &mut [u8], at: usize, value: Option<u32>) -> usize
    requires { (9 ≤ at) × (at ≤ length out.old) }
    ensures { Pushed result at (encode (fix_o Utilization-value (map_o float_bytes (sent_bits value)) done))
        out.old out.new × (at ≤ result + 9) }
{
    match value {
        Some(bits) => fields_write_bytes_field::push_float(out, at, utilization::VALUE, bits),
        None => at,
    }
}

// The reading at a place as field `n`: its name, and its value if that is sent.
fn push_sample(
    out: &mut [u8],
    at: usize,
    n: u64,
    readings: &[u8],
    place: usize,
    temperature: bool,
) -> usize
    requires { Placed readings.now place × (n < 2 ^ 29) × (55 ≤ at) × (at ≤ length out.old) }
    ensures { Pushed result at (len_field n (encode (sample_tree (sample_of temperature (place_at readings.now place)))))
        out.old out.new × (at ≤ result + 55) }
{
    let value = log_sample::value_at(readings, place, temperature);
    let a = push_sent(out, at, value);
    let name = log_sample::name_of(readings, place);
    let b = fields_write_bytes_field::push_raw(out, a, utilization::NAME, name);
    fields_write_field::push_head(out, b, n, at - b)
}

// The readings of `count` places from `first` on, each as a field `n`, in their order.
pub fn push_samples(
    out: &mut [u8],
    at: usize,
    n: u64,
    readings: &[u8],
    first: usize,
    count: usize,
    temperature: bool,
) -> usize
    requires { Places readings.now first count × (first ≤ 6) × (n < 2 ^ 29) × (220 ≤ at) × (at ≤ length out.old) }
    ensures { Pushed result at (encode (each_sub n (sample_trees temperature readings.now first count) done))
        out.old out.new × (at ≤ result + 220) }
{
    let mut p = at;
    for i in (0..count).rev() {
        p = push_sample(out, p, n, readings, first + i, temperature);
    }
    p
}
