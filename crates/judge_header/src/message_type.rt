// Document 01, "The order of judgement", step 7: what a messageType asks for, and the type of a reply.
ghost use Rattle.std.specs.Prelude.{◌≡◌};
ghost use Rattle.fields_lookup.specs.Views.{num_view};
ghost use Rattle.protocol.specs.Operation.{asked, asked_by, reply_type};

use protocol::message_type::{
    DELETE, DELETE_RESPONSE, FLUSHALLDATA, FLUSHALLDATA_RESPONSE, GET, GET_RESPONSE, GETKEYRANGE,
    GETKEYRANGE_RESPONSE, GETLOG, GETLOG_RESPONSE, GETNEXT, GETNEXT_RESPONSE, GETPREVIOUS,
    GETPREVIOUS_RESPONSE, GETVERSION, GETVERSION_RESPONSE, INVALID_MESSAGE_TYPE, NOOP,
    NOOP_RESPONSE, PUT, PUT_RESPONSE, SECURITY, SECURITY_RESPONSE, SETUP, SETUP_RESPONSE,
};
use protocol::{Choice, Operation, Permission};

// "Match on messageType numbers chooses operation, permission and reply type, everything else refused."
pub fn asked(n: u64) -> Option<Choice>
    ensures { result ≡ asked n }
{
    let (operation, permission, reply_type) = match n {
        GET => (
            Operation::Get,
            Permission::Key(access_permission::READ),
            GET_RESPONSE,
        ),
        PUT => (
            Operation::Put,
            Permission::Key(access_permission::WRITE),
            PUT_RESPONSE,
        ),
        DELETE => (
            Operation::Delete,
            Permission::Key(access_permission::DELETE),
            DELETE_RESPONSE,
        ),
        GETNEXT => (
            Operation::GetNext,
            Permission::Any(access_permission::READ),
            GETNEXT_RESPONSE,
        ),
        GETPREVIOUS => (
            Operation::GetPrevious,
            Permission::Any(access_permission::READ),
            GETPREVIOUS_RESPONSE,
        ),
        GETKEYRANGE => (
            Operation::GetKeyRange,
            Permission::Any(access_permission::RANGE),
            GETKEYRANGE_RESPONSE,
        ),
        GETVERSION => (
            Operation::GetVersion,
            Permission::Key(access_permission::READ),
            GETVERSION_RESPONSE,
        ),
        SETUP => (
            Operation::Setup,
            Permission::Any(access_permission::SETUP),
            SETUP_RESPONSE,
        ),
        GETLOG => (
            Operation::GetLog,
            Permission::Any(access_permission::GETLOG),
            GETLOG_RESPONSE,
        ),
        SECURITY => (
            Operation::Security,
            Permission::Any(access_permission::SECURITY),
            SECURITY_RESPONSE,
        ),
        NOOP => (Operation::Noop, Permission::Free, NOOP_RESPONSE),
        FLUSHALLDATA => (
            Operation::FlushAllData,
            Permission::Free,
            FLUSHALLDATA_RESPONSE,
        ),
        _ => return None,
    };
    Some(Choice {
        operation,
        permission,
        reply_type,
    })
}

// The same of a messageType that may be absent.
pub fn asked_by(n: Option<u64>) -> Option<Choice>
    ensures { result ≡ asked_by (num_view n) }
{
    asked(n?)
}

// The type of the reply; -1 where no built request is read.
pub fn reply_type(a: Option<Choice>) -> u64
    ensures { result ≡ reply_type a }
{
    match a {
        Some(choice) => choice.reply_type,
        None => INVALID_MESSAGE_TYPE,
    }
}
