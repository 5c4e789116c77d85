// What the rules name: operations, status codes, types.
#![tactic(auto)]

pub mod auth_type;
pub mod log_type;
pub mod message_type;
pub mod status;

// The operations that are built, document 01, "What the box does".
#[derive(Clone, Copy)]
pub enum Operation {
    Noop,
    Get,
    GetVersion,
    GetNext,
    GetPrevious,
    GetKeyRange,
    Put,
    Delete,
    FlushAllData,
    Setup,
    GetLog,
    Security,
}

// The permission that a request needs, by its number: none, one for its key, or one for any key.
#[derive(Clone, Copy)]
pub enum Permission {
    Free,
    Key(u8),
    Any(u8),
}

// What the messageType of a request chooses.
#[derive(Clone, Copy)]
pub struct Choice {
    pub operation: Operation,
    pub permission: Permission,
    pub reply_type: u64,
}
