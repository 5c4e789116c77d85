// Document 003, Message.AuthType: what document 01 takes and gives.
pub const HMACAUTH: u64 = 1;

pub const UNSOLICITEDSTATUS: u64 = 3;
