// Format: the device record and the store of a new box.
#![tactic(auto)]

ghost use Rattle.protocol.specs.Format.{Told};
ghost use Rattle.device_format.specs.FormatNumber.{format_number};

use access_record::Record;

// Why Format refuses.
#[derive(Clone, Copy, Debug, PartialEq, Eq)]
pub enum FormatError {
    StoreBad,
    KeyBad,
}

// Makes the device record and a store of blank blocks; on a refusal nothing changes.
pub fn format(store: &mut [u8], device: &mut Record, key: &[u8]) -> Result<(), FormatError>
    ensures { Told (format_number result) store.old device.old key.now store.new device.new }
{
    if !store_layout::size_good(store) {
        return Err(FormatError::StoreBad);
    }
    if !(1..=64).contains(&key.len()) {
        return Err(FormatError::KeyBad);
    }
    store_write::write::blank(store);
    access_format::format_record(device, key);
    Ok(())
}
