// Document 003, GetLog.Type.
pub const UTILIZATIONS: u8 = 0;

pub const TEMPERATURES: u8 = 1;

pub const CAPACITIES: u8 = 2;

pub const CONFIGURATION: u8 = 3;

pub const STATISTICS: u8 = 4;

pub const MESSAGES: u8 = 5;

pub const LIMITS: u8 = 6;

pub const DEVICE: u8 = 7;
