// Document 003, Status.StatusCode: the codes that document 01 gives, and the failures that all but SUCCESS say.
ghost use Rattle.std.specs.Prelude.{◌≡◌};
ghost use Rattle.protocol.specs.Failure.{number_of};

pub const SUCCESS: u64 = 1;

pub const HMAC_FAILURE: u64 = 2;

pub const NOT_AUTHORIZED: u64 = 3;

pub const VERSION_FAILURE: u64 = 4;

pub const HEADER_REQUIRED: u64 = 6;

pub const NOT_FOUND: u64 = 7;

pub const VERSION_MISMATCH: u64 = 8;

pub const NO_SPACE: u64 = 14;

pub const NO_SUCH_HMAC_ALGORITHM: u64 = 15;

pub const INVALID_REQUEST: u64 = 16;

pub const CONNECTION_TERMINATED: u64 = 20;

// Why a request is not done.
#[derive(Clone, Copy, PartialEq, Eq)]
pub enum Failure {
    HmacFailure,
    NotAuthorized,
    VersionFailure,
    HeaderRequired,
    NotFound,
    VersionMismatch,
    NoSpace,
    NoSuchHmacAlgorithm,
    InvalidRequest,
    ConnectionTerminated,
}

impl Failure {
    // The code that says it.
    pub fn number(self) -> u64
        ensures { result ≡ number_of self }
    {
        match self {
            Failure::HmacFailure => HMAC_FAILURE,
            Failure::NotAuthorized => NOT_AUTHORIZED,
            Failure::VersionFailure => VERSION_FAILURE,
            Failure::HeaderRequired => HEADER_REQUIRED,
            Failure::NotFound => NOT_FOUND,
            Failure::VersionMismatch => VERSION_MISMATCH,
            Failure::NoSpace => NO_SPACE,
            Failure::NoSuchHmacAlgorithm => NO_SUCH_HMAC_ALGORITHM,
            Failure::InvalidRequest => INVALID_REQUEST,
            Failure::ConnectionTerminated => CONNECTION_TERMINATED,
        }
    }
}
