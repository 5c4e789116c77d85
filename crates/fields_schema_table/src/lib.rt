// The table in code.
#![tactic(auto)]

ghost use Rattle.std.specs.Prelude.{◌≡◌};
ghost use Rattle.fields_schema.specs.Rules.{rule_of};

use fields_schema::field_number::{
    acl, body, capacity, command, get_log, header, hmac_auth, key_value, limits, message, range,
    scope, security, setup, status, temperature, utilization,
};
use fields_schema::{Form, Kind, Names, Rule};

// What a number means in a kind: an arm gives the form of a singular field, whose rule is made at the end, or returns another rule.
pub fn rule_of(k: Kind, n: u64) -> Rule
    ensures { result ≡ rule_of k n }
{
    let form = match k {
        Kind::Message => match n {
            message::AUTH_TYPE => Form::Int32,
            message::HMAC_AUTH => Form::Nested(Kind::HmacAuth),
            message::PIN_AUTH => Form::Opaque,
            message::COMMAND_BYTES => Form::Bytes,
            _ => return Rule::Unlisted,
        },
        Kind::HmacAuth => match n {
            hmac_auth::IDENTITY => Form::Int64,
            hmac_auth::HMAC => Form::Bytes,
            _ => return Rule::Unlisted,
        },
        Kind::Command => match n {
            command::HEADER => Form::Nested(Kind::Header),
            command::BODY => Form::Nested(Kind::Body),
            command::STATUS => Form::Opaque,
            _ => return Rule::Unlisted,
        },
        Kind::Header => match n {
            header::CLUSTER_VERSION => Form::Int64,
            header::CONNECTION_ID => Form::Int64,
            header::SEQUENCE => Form::Int64,
            header::ACK_SEQUENCE => Form::Int64,
            header::MESSAGE_TYPE => Form::Int32,
            header::TIMEOUT => Form::Int64,
            header::EARLY_EXIT => Form::Flag,
            header::PRIORITY => Form::Named(Names::Priority),
            header::TIME_QUANTA => Form::Int64,
            header::BATCH_ID => return Rule::Refused,
            _ => return Rule::Unlisted,
        },
        Kind::Body => match n {
            body::KEY_VALUE => Form::Nested(Kind::KeyValue),
            body::RANGE => Form::Nested(Kind::Range),
            body::SETUP => Form::Nested(Kind::Setup),
            body::P2P_OPERATION => return Rule::Refused,
            body::GET_LOG => Form::Nested(Kind::GetLog),
            body::SECURITY => return Rule::Once(Form::Nested(Kind::Security)),
            body::PIN_OP => return Rule::Refused,
            body::BATCH => return Rule::Refused,
            body::POWER => return Rule::Refused,
            _ => return Rule::Unlisted,
        },
        Kind::KeyValue => match n {
            key_value::NEW_VERSION => Form::Bytes,
            key_value::KEY => Form::Bytes,
            key_value::DB_VERSION => Form::Bytes,
            key_value::TAG => Form::Bytes,
            key_value::ALGORITHM => Form::Named(Names::Algorithm),
            key_value::METADATA_ONLY => Form::Flag,
            key_value::FORCE => Form::Flag,
            key_value::SYNCHRONIZATION => Form::Named(Names::Synchronization),
            _ => return Rule::Unlisted,
        },
        Kind::Range => match n {
            range::START_KEY => Form::Bytes,
            range::END_KEY => Form::Bytes,
            range::START_KEY_INCLUSIVE => Form::Flag,
            range::END_KEY_INCLUSIVE => Form::Flag,
            range::MAX_RETURNED => Form::Int32,
            range::REVERSE => Form::Flag,
            range::KEYS => return Rule::Refused,
            _ => return Rule::Unlisted,
        },
        Kind::Setup => match n {
            setup::NEW_CLUSTER_VERSION => Form::Int64,
            setup::FIRMWARE_DOWNLOAD => return Rule::Refused,
            _ => return Rule::Unlisted,
        },
        Kind::GetLog => match n {
            get_log::TYPES => return Rule::Repeated(Form::Named(Names::LogType)),
            _ => return Rule::Unlisted,
        },
        Kind::Security => match n {
            security::ACL => return Rule::Repeated(Form::Nested(Kind::Acl)),
            _ => return Rule::Unlisted,
        },
        Kind::Acl => match n {
            acl::IDENTITY => return Rule::Once(Form::Int64),
            acl::KEY => return Rule::Once(Form::Bytes),
            acl::HMAC_ALGORITHM => return Rule::Once(Form::Int32),
            acl::SCOPE => return Rule::Repeated(Form::Nested(Kind::Scope)),
            _ => return Rule::Unlisted,
        },
        Kind::Scope => match n {
            scope::OFFSET => return Rule::Once(Form::Int64),
            scope::VALUE => return Rule::Once(Form::Bytes),
            scope::PERMISSION => return Rule::Repeated(Form::Int32),
            scope::TLS_REQUIRED => return Rule::Once(Form::Flag),
            _ => return Rule::Unlisted,
        },
        Kind::ReplyCommand => match n {
            command::HEADER => Form::Nested(Kind::Header),
            command::BODY => Form::Nested(Kind::ReplyBody),
            command::STATUS => Form::Nested(Kind::Status),
            _ => return Rule::Unlisted,
        },
        Kind::ReplyBody => match n {
            body::KEY_VALUE => Form::Nested(Kind::KeyValue),
            body::RANGE => Form::Nested(Kind::ReplyRange),
            body::SETUP => Form::Nested(Kind::Setup),
            body::P2P_OPERATION => return Rule::Refused,
            body::GET_LOG => Form::Nested(Kind::ReplyGetLog),
            body::SECURITY => return Rule::Once(Form::Nested(Kind::Security)),
            body::PIN_OP => return Rule::Refused,
            body::BATCH => return Rule::Refused,
            body::POWER => return Rule::Refused,
            _ => return Rule::Unlisted,
        },
        Kind::ReplyRange => match n {
            range::START_KEY => Form::Bytes,
            range::END_KEY => Form::Bytes,
            range::START_KEY_INCLUSIVE => Form::Flag,
            range::END_KEY_INCLUSIVE => Form::Flag,
            range::MAX_RETURNED => Form::Int32,
            range::REVERSE => Form::Flag,
            range::KEYS => return Rule::Repeated(Form::Bytes),
            _ => return Rule::Unlisted,
        },
        Kind::ReplyGetLog => match n {
            get_log::UTILIZATIONS => return Rule::Repeated(Form::Nested(Kind::Utilization)),
            get_log::TEMPERATURES => return Rule::Repeated(Form::Nested(Kind::Temperature)),
            get_log::CAPACITY => Form::Nested(Kind::Capacity),
            get_log::LIMITS => Form::Nested(Kind::Limits),
            _ => return Rule::Unlisted,
        },
        Kind::Utilization => match n {
            utilization::NAME => Form::Bytes,
            utilization::VALUE => Form::Float,
            _ => return Rule::Unlisted,
        },
        Kind::Temperature => match n {
            temperature::NAME => Form::Bytes,
            temperature::CURRENT => Form::Float,
            _ => return Rule::Unlisted,
        },
        Kind::Capacity => match n {
            capacity::NOMINAL_CAPACITY_IN_BYTES => Form::Int64,
            capacity::PORTION_FULL => Form::Float,
            _ => return Rule::Unlisted,
        },
        Kind::Limits => match n {
            limits::MAX_KEY_SIZE => Form::Int64,
            limits::MAX_VALUE_SIZE => Form::Int64,
            limits::MAX_VERSION_SIZE => Form::Int64,
            limits::MAX_TAG_SIZE => Form::Int64,
            limits::MAX_MESSAGE_SIZE => Form::Int64,
            limits::MAX_KEY_RANGE_COUNT => Form::Int64,
            limits::MAX_IDENTITY_COUNT => Form::Int64,
            _ => return Rule::Unlisted,
        },
        Kind::Status => match n {
            status::CODE => Form::Named(Names::StatusCode),
            _ => return Rule::Unlisted,
        },
    };
    Rule::Single(form)
}
