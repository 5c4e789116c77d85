// The connections, in eight slots.
ghost use Rattle.std.specs.Prelude.{◌<◌};

use protocol_connection::Connection;

pub type Slots = [Connection; 8];

// The place of a slot.
fn place(slot: u64) -> usize
    ensures { result < 8 }
{
    (slot % 8) as usize
}

pub fn connection_at(slots: &Slots, slot: u64) -> Connection {
    slots[place(slot)]
}

pub fn keep(slots: &mut Slots, slot: u64, c: Connection) {
    slots[place(slot)] = c;
}
