// Document 003, MessageType: the requests that are built, their responses, and the type that no message has, -1.
pub const GET: u64 = 2;

pub const GET_RESPONSE: u64 = 1;

pub const PUT: u64 = 4;

pub const PUT_RESPONSE: u64 = 3;

pub const DELETE: u64 = 6;

pub const DELETE_RESPONSE: u64 = 5;

pub const GETNEXT: u64 = 8;

pub const GETNEXT_RESPONSE: u64 = 7;

pub const GETPREVIOUS: u64 = 10;

pub const GETPREVIOUS_RESPONSE: u64 = 9;

pub const GETKEYRANGE: u64 = 12;

pub const GETKEYRANGE_RESPONSE: u64 = 11;

pub const GETVERSION: u64 = 16;

pub const GETVERSION_RESPONSE: u64 = 15;

pub const SETUP: u64 = 22;

pub const SETUP_RESPONSE: u64 = 21;

pub const GETLOG: u64 = 24;

pub const GETLOG_RESPONSE: u64 = 23;

pub const SECURITY: u64 = 26;

pub const SECURITY_RESPONSE: u64 = 25;

pub const NOOP: u64 = 30;

pub const NOOP_RESPONSE: u64 = 29;

pub const FLUSHALLDATA: u64 = 32;

pub const FLUSHALLDATA_RESPONSE: u64 = 31;

pub const INVALID_MESSAGE_TYPE: u64 = 18446744073709551615;
