// The kinds of message, and how each listed field of a kind is read.
#![tactic(auto)]

pub mod field_number;

// The kinds from ReplyCommand on are for reading replies.
#[derive(Clone, Copy)]
pub enum Kind {
    Message,
    HmacAuth,
    Command,
    Header,
    Body,
    KeyValue,
    Range,
    Setup,
    GetLog,
    Security,
    Acl,
    Scope,
    ReplyCommand,
    ReplyBody,
    ReplyRange,
    ReplyGetLog,
    Utilization,
    Temperature,
    Capacity,
    Limits,
    Status,
}

// The enums whose values the documents name.
#[derive(Clone, Copy)]
pub enum Names {
    Priority,
    Algorithm,
    Synchronization,
    LogType,
    StatusCode,
}

// How a listed field is read. An enum that is judged later is an Int32; Opaque is bytes not looked into; a Float is its four bytes.
#[derive(Clone, Copy)]
pub enum Form {
    Int64,
    Int32,
    Named(Names),
    Flag,
    Bytes,
    Opaque,
    Float,
    Nested(Kind),
}

// What a field number means in a kind: not listed, refused if present, refused if sent twice, singular (of two the last counts, messages are merged), or
// any number of times.
#[derive(Clone, Copy)]
pub enum Rule {
    Unlisted,
    Refused,
    Once(Form),
    Single(Form),
    Repeated(Form),
}
