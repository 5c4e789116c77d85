// A log in the body of a reply, document 02, CR 1: each part that is asked for, written in front of what stands behind it.
#![tactic(auto)]

ghost use Rattle.std.specs.Prelude.{◌≡◌, true, ◌+◌, ◌^◌, ◌<◌, ◌≤◌, length};
ghost use Rattle.fields_schema.specs.FieldNumbers.{GetLog-capacity, GetLog-limits};
ghost use Rattle.fields_schema.specs.Tree.{map_o, guard, done};
ghost use Rattle.fields_encoding.specs.Encode.{len_field, encode, sub_o, each_sub};
ghost use Rattle.fields_write_bytes.specs.Pushed.{Pushed};
ghost use Rattle.store_layout.specs.Store.{Good};
ghost use Rattle.log_readings.specs.Lent.{readings_good};
ghost use Rattle.log_readings.specs.Places.{Places};
ghost use Rattle.protocol.specs.Judge.{log, capacity_of};
ghost use Rattle.protocol.specs.Reply.{capacity_tree, limits_tree};
ghost use Rattle.reply_command.specs.Parts.{body_bytes};
ghost use Rattle.reply_log_body.specs.Asked.{log_by};
ghost use Rattle.reply_log_body.specs.LogSizes.{sizes, samples_if};

use fields_schema::field_number::{body, capacity, command, get_log, limits};

// The parts of a log: whether each is asked for.
#[derive(Drop)]
pub struct LogParts {
    pub utilizations: bool,
    pub temperatures: bool,
    pub capacities: bool,
    pub limits: bool,
}

// The most bytes of a key, a value, a version and a tag.
fn push_sizes(out: &mut [u8], at: usize) -> usize
    requires { (60 ≤ at) × (at ≤ length out.old) }
    ensures { Pushed result at (encode sizes) out.old out.new × (at ≤ result + 60) }
{
    let a = fields_write_field::push_int(out, at, limits::MAX_TAG_SIZE, 32);
    let b = fields_write_field::push_int(out, a, limits::MAX_VERSION_SIZE, 16);
    let c = fields_write_field::push_int(out, b, limits::MAX_VALUE_SIZE, 384);
    fields_write_field::push_int(out, c, limits::MAX_KEY_SIZE, 64)
}

// The limits: those, and the most of a message, a range's keys and the identities.
fn push_limits(out: &mut [u8], at: usize) -> usize
    requires { (120 ≤ at) × (at ≤ length out.old) }
    ensures { Pushed result at (len_field GetLog-limits (encode limits_tree)) out.old out.new × (at ≤ result + 120) }
{
    let a = fields_write_field::push_int(out, at, limits::MAX_IDENTITY_COUNT, 8);
    let b = fields_write_field::push_int(out, a, limits::MAX_KEY_RANGE_COUNT, 32);
    let c = fields_write_field::push_int(out, b, limits::MAX_MESSAGE_SIZE, 8192);
    let d = push_sizes(out, c);
    fields_write_field::push_head(out, d, get_log::LIMITS, at - d)
}

// The capacity: 512 bytes a block, and the used part of the blocks.
fn push_capacity(out: &mut [u8], at: usize, store: &[u8]) -> usize
    requires { Good store.now × (39 ≤ at) × (at ≤ length out.old) }
    ensures { Pushed result at (len_field GetLog-capacity (encode (capacity_tree (capacity_of store.now))))
        out.old out.new × (at ≤ result + 39) }
{
    let all = store.len() / 512;
    let used = store_layout::count(store);
    let full = log_binary32::portion_full(used, all);
    let a = fields_write_bytes_field::push_float(out, at, capacity::PORTION_FULL, full);
    let b = fields_write_field::push_int(
        out,
        a,
        capacity::NOMINAL_CAPACITY_IN_BYTES,
        512 * (all as u64),
    );
    fields_write_field::push_head(out, b, get_log::CAPACITY, at - b)
}

// The limits, if they are asked for.
fn push_asked_limits(out: &mut [u8], at: usize, asked: bool) -> usize
    requires { (120 ≤ at) × (at ≤ length out.old) }
    ensures { Pushed result at (encode (sub_o GetLog-limits (guard asked limits_tree) done)) out.old out.new × (at ≤ result + 120) }
{
    if asked {
        return push_limits(out, at);
    }
    at
}

// The capacity, if it is asked for.
fn push_asked_capacity(out: &mut [u8], at: usize, store: &[u8], asked: bool) -> usize
    requires { Good store.now × (39 ≤ at) × (at ≤ length out.old) }
    ensures { Pushed result at (encode (sub_o GetLog-capacity (map_o capacity_tree (guard asked (capacity_of store.now))) done))
        out.old out.new × (at ≤ result + 39) }
{
    if asked {
        return push_capacity(out, at, store);
    }
    at
}

// The readings of `count` places from `first` on, each as a field `n`, if they are asked for.
fn push_asked_samples(
    out: &mut [u8],
    at: usize,
    n: u64,
    readings: &[u8],
    first: usize,
    count: usize,
    temperature: bool,
    asked: bool,
) -> usize
    requires { Places readings.now first count × (first ≤ 6) × (n < 2 ^ 29) × (220 ≤ at) × (at ≤ length out.old) }
    ensures { Pushed result at (encode (each_sub n (samples_if asked temperature readings.now first count) done))
        out.old out.new × (at ≤ result + 220) }
{
    if asked {
        return reply_log_sample::push_samples(out, at, n, readings, first, count, temperature);
    }
    at
}

// A body with a log of the parts that are asked for, which is there even when empty.
pub fn push_log(out: &mut [u8], at: usize, store: &[u8], readings: &[u8], parts: LogParts) -> usize
    requires { Good store.now × (readings_good readings.now ≡ true) × (629 ≤ at) × (at ≤ length out.old) }
    ensures { Pushed result at (body_bytes (log (log_by store.now readings.now parts)))
        out.old out.new × (at ≤ result + 629) }
{
    let a = push_asked_limits(out, at, parts.limits);
    let b = push_asked_capacity(out, a, store, parts.capacities);
    let t = log_readings::temperatures(readings);
    let c = push_asked_samples(
        out,
        b,
        get_log::TEMPERATURES,
        readings,
        0,
        t,
        true,
        parts.temperatures,
    );
    let u = log_readings::utilizations(readings);
    let d = push_asked_samples(
        out,
        c,
        get_log::UTILIZATIONS,
        readings,
        4,
        u,
        false,
        parts.utilizations,
    );
    let e = fields_write_field::push_head(out, d, body::GET_LOG, at - d);
    fields_write_field::push_head(out, e, command::BODY, at - e)
}
