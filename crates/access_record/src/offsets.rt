// Places in the device record, in the place of an ACL and in the place of a scope.
// The record.
pub const RECORD_BYTES: usize = 2960;

// In the record: the number of ACLs.
pub const ACL_COUNT: usize = 8;

// The first ACL place.
pub const ACLS: usize = 16;

// From one ACL place to the next.
pub const ACL_BYTES: usize = 368;

// In an ACL place: the length of the key.
pub const KEY_LENGTH: usize = 8;

// The number of scopes.
pub const SCOPE_COUNT: usize = 9;

// The key.
pub const KEY: usize = 16;

// The first scope place.
pub const SCOPES: usize = 80;

// From one scope place to the next.
pub const SCOPE_BYTES: usize = 72;

// In a scope place, after the offset: the value's length.
pub const VALUE_LENGTH: usize = 1;

// The permission mask, two bytes.
pub const PERMISSIONS: usize = 2;

pub const PERMISSIONS_LOW: usize = 3;

// TlsRequired.
pub const TLS_REQUIRED: usize = 4;

// The value.
pub const VALUE: usize = 8;
