// Permissions, by their numbers in document 01.
#![tactic(auto)]

pub const READ: u8 = 0;

pub const WRITE: u8 = 1;

pub const DELETE: u8 = 2;

pub const RANGE: u8 = 3;

pub const SETUP: u8 = 4;

pub const GETLOG: u8 = 7;

pub const SECURITY: u8 = 8;
