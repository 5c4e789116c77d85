// Document 003's numbers of the fields that document 01 lists ("Frame and fields"), and of GetLog those of document 02, CR 1.
// A module for each message; tests/house holds each number to tests/kinetic.proto.
pub mod message {
    pub const AUTH_TYPE: u64 = 4;

    pub const HMAC_AUTH: u64 = 5;

    pub const PIN_AUTH: u64 = 6;

    pub const COMMAND_BYTES: u64 = 7;
}

pub mod hmac_auth {
    pub const IDENTITY: u64 = 1;

    pub const HMAC: u64 = 2;
}

pub mod command {
    pub const HEADER: u64 = 1;

    pub const BODY: u64 = 2;

    pub const STATUS: u64 = 3;
}

pub mod header {
    pub const CLUSTER_VERSION: u64 = 1;

    pub const CONNECTION_ID: u64 = 3;

    pub const SEQUENCE: u64 = 4;

    pub const ACK_SEQUENCE: u64 = 6;

    pub const MESSAGE_TYPE: u64 = 7;

    pub const TIMEOUT: u64 = 9;

    pub const EARLY_EXIT: u64 = 10;

    pub const PRIORITY: u64 = 12;

    pub const TIME_QUANTA: u64 = 13;

    pub const BATCH_ID: u64 = 14;
}

pub mod body {
    pub const KEY_VALUE: u64 = 1;

    pub const RANGE: u64 = 2;

    pub const SETUP: u64 = 3;

    pub const P2P_OPERATION: u64 = 4;

    pub const GET_LOG: u64 = 6;

    pub const SECURITY: u64 = 7;

    pub const PIN_OP: u64 = 8;

    pub const BATCH: u64 = 9;

    pub const POWER: u64 = 10;
}

pub mod key_value {
    pub const NEW_VERSION: u64 = 2;

    pub const KEY: u64 = 3;

    pub const DB_VERSION: u64 = 4;

    pub const TAG: u64 = 5;

    pub const ALGORITHM: u64 = 6;

    pub const METADATA_ONLY: u64 = 7;

    pub const FORCE: u64 = 8;

    pub const SYNCHRONIZATION: u64 = 9;
}

pub mod range {
    pub const START_KEY: u64 = 1;

    pub const END_KEY: u64 = 2;

    pub const START_KEY_INCLUSIVE: u64 = 3;

    pub const END_KEY_INCLUSIVE: u64 = 4;

    pub const MAX_RETURNED: u64 = 5;

    pub const REVERSE: u64 = 6;

    pub const KEYS: u64 = 8;
}

pub mod setup {
    pub const NEW_CLUSTER_VERSION: u64 = 1;

    pub const FIRMWARE_DOWNLOAD: u64 = 5;
}

pub mod get_log {
    pub const TYPES: u64 = 1;

    pub const UTILIZATIONS: u64 = 2;

    pub const TEMPERATURES: u64 = 3;

    pub const CAPACITY: u64 = 4;

    pub const LIMITS: u64 = 8;
}

pub mod utilization {
    pub const NAME: u64 = 1;

    pub const VALUE: u64 = 2;
}

pub mod temperature {
    pub const NAME: u64 = 1;

    pub const CURRENT: u64 = 2;
}

pub mod capacity {
    pub const NOMINAL_CAPACITY_IN_BYTES: u64 = 4;

    pub const PORTION_FULL: u64 = 5;
}

pub mod limits {
    pub const MAX_KEY_SIZE: u64 = 1;

    pub const MAX_VALUE_SIZE: u64 = 2;

    pub const MAX_VERSION_SIZE: u64 = 3;

    pub const MAX_TAG_SIZE: u64 = 4;

    pub const MAX_MESSAGE_SIZE: u64 = 8;

    pub const MAX_KEY_RANGE_COUNT: u64 = 9;

    pub const MAX_IDENTITY_COUNT: u64 = 10;
}

pub mod security {
    pub const ACL: u64 = 2;
}

pub mod acl {
    pub const IDENTITY: u64 = 1;

    pub const KEY: u64 = 2;

    pub const HMAC_ALGORITHM: u64 = 3;

    pub const SCOPE: u64 = 4;
}

pub mod scope {
    pub const OFFSET: u64 = 1;

    pub const VALUE: u64 = 2;

    pub const PERMISSION: u64 = 3;

    pub const TLS_REQUIRED: u64 = 4;
}

pub mod status {
    pub const CODE: u64 = 1;
}
