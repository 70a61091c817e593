//! The names of commands, in capitals or not.

ghost use Rattle.std.specs.Prelude.{◌≡◌};
ghost use Rattle.mt_resp.specs.Names.{is_named, string_name, number_name, field_name, key_name, link_name, reason};

use crate::told::Failure;

/// The names of commands of strings.
#[derive(Clone, Copy, Debug)]
pub enum StringName {
    Get,
    Set,
    GetEach,
    SetEach,
    SetNew,
    Length,
    GetSet,
    GetTake,
    Append,
}

/// The names of commands of numbers and of stamps.
#[derive(Clone, Copy, Debug)]
pub enum NumberName {
    Up,
    UpBy,
    Down,
    DownBy,
    GetStamped,
    PutIf,
}

/// The names of commands of a row's fields.
#[derive(Clone, Copy, Debug)]
pub enum FieldName {
    Put,
    PutFine,
    Get,
    GetSome,
    GetAll,
    Width,
    Has,
    Length,
    UpBy,
}

/// The names of commands of keys, whatever their rows.
#[derive(Clone, Copy, Debug)]
pub enum KeyName {
    Remove,
    Has,
    Kind,
    Scan,
    Range,
    Count,
    Clear,
}

/// The names of commands of the connection and the server.
#[derive(Clone, Copy, Debug)]
pub enum LinkName {
    Ping,
    Echo,
    Quit,
    Select,
    Auth,
    Hello,
    Reset,
    Note,
    List,
    Config,
    Info,
    Time,
    Wait,
    Settle,
    Foreign,
}

/// Whether a word is this name, in capitals or not.
pub fn is_named(word: &[u8], name: &[u8]) -> bool
    ensures { result ≡ is_named word.now name.now }
{
    word.eq_ignore_ascii_case(name)
}

/// Which name of a command of strings a word is.
pub fn string_name(word: &[u8]) -> Option<StringName>
    ensures { result ≡ string_name word.now }
{
    match word {
        word if is_named(word, b"get") => Some(StringName::Get),
        word if is_named(word, b"set") => Some(StringName::Set),
        word if is_named(word, b"mget") => Some(StringName::GetEach),
        word if is_named(word, b"mset") => Some(StringName::SetEach),
        word if is_named(word, b"setnx") => Some(StringName::SetNew),
        word if is_named(word, b"strlen") => Some(StringName::Length),
        word if is_named(word, b"getset") => Some(StringName::GetSet),
        word if is_named(word, b"getdel") => Some(StringName::GetTake),
        word if is_named(word, b"append") => Some(StringName::Append),
        _ => None,
    }
}

/// Which name of a command of numbers or of stamps a word is.
pub fn number_name(word: &[u8]) -> Option<NumberName>
    ensures { result ≡ number_name word.now }
{
    match word {
        word if is_named(word, b"incr") => Some(NumberName::Up),
        word if is_named(word, b"incrby") => Some(NumberName::UpBy),
        word if is_named(word, b"decr") => Some(NumberName::Down),
        word if is_named(word, b"decrby") => Some(NumberName::DownBy),
        word if is_named(word, b"gets") => Some(NumberName::GetStamped),
        word if is_named(word, b"putif") => Some(NumberName::PutIf),
        _ => None,
    }
}

/// Which name of a command of fields a word is.
pub fn field_name(word: &[u8]) -> Option<FieldName>
    ensures { result ≡ field_name word.now }
{
    match word {
        word if is_named(word, b"hset") => Some(FieldName::Put),
        word if is_named(word, b"hmset") => Some(FieldName::PutFine),
        word if is_named(word, b"hget") => Some(FieldName::Get),
        word if is_named(word, b"hmget") => Some(FieldName::GetSome),
        word if is_named(word, b"hgetall") => Some(FieldName::GetAll),
        word if is_named(word, b"hlen") => Some(FieldName::Width),
        word if is_named(word, b"hexists") => Some(FieldName::Has),
        word if is_named(word, b"hstrlen") => Some(FieldName::Length),
        word if is_named(word, b"hincrby") => Some(FieldName::UpBy),
        _ => None,
    }
}

/// Which name of a command of keys a word is.
pub fn key_name(word: &[u8]) -> Option<KeyName>
    ensures { result ≡ key_name word.now }
{
    match word {
        word if is_named(word, b"del") => Some(KeyName::Remove),
        word if is_named(word, b"unlink") => Some(KeyName::Remove),
        word if is_named(word, b"exists") => Some(KeyName::Has),
        word if is_named(word, b"type") => Some(KeyName::Kind),
        word if is_named(word, b"scan") => Some(KeyName::Scan),
        word if is_named(word, b"range") => Some(KeyName::Range),
        word if is_named(word, b"dbsize") => Some(KeyName::Count),
        word if is_named(word, b"flushdb") => Some(KeyName::Clear),
        _ => None,
    }
}

/// Which name of a command of the connection or the server a word is.
pub fn link_name(word: &[u8]) -> Option<LinkName>
    ensures { result ≡ link_name word.now }
{
    match word {
        word if is_named(word, b"ping") => Some(LinkName::Ping),
        word if is_named(word, b"echo") => Some(LinkName::Echo),
        word if is_named(word, b"quit") => Some(LinkName::Quit),
        word if is_named(word, b"select") => Some(LinkName::Select),
        word if is_named(word, b"auth") => Some(LinkName::Auth),
        word if is_named(word, b"hello") => Some(LinkName::Hello),
        word if is_named(word, b"reset") => Some(LinkName::Reset),
        word if is_named(word, b"client") => Some(LinkName::Note),
        word if is_named(word, b"command") => Some(LinkName::List),
        word if is_named(word, b"config") => Some(LinkName::Config),
        word if is_named(word, b"info") => Some(LinkName::Info),
        word if is_named(word, b"time") => Some(LinkName::Time),
        word if is_named(word, b"wait") => Some(LinkName::Wait),
        word if is_named(word, b"waitaof") => Some(LinkName::Settle),
        word if is_named(word, b"post") => Some(LinkName::Foreign),
        word if is_named(word, b"host:") => Some(LinkName::Foreign),
        _ => None,
    }
}

/// Why a command of this name isn't there, if that has a reason.
pub fn reason(word: &[u8]) -> Option<Failure>
    ensures { result ≡ reason word.now }
{
    match word {
        word if is_named(word, b"expire") => Some(Failure::NoExpiry),
        word if is_named(word, b"pexpire") => Some(Failure::NoExpiry),
        word if is_named(word, b"expireat") => Some(Failure::NoExpiry),
        word if is_named(word, b"pexpireat") => Some(Failure::NoExpiry),
        word if is_named(word, b"persist") => Some(Failure::NoExpiry),
        word if is_named(word, b"ttl") => Some(Failure::NoExpiry),
        word if is_named(word, b"pttl") => Some(Failure::NoExpiry),
        word if is_named(word, b"setex") => Some(Failure::NoExpiry),
        word if is_named(word, b"psetex") => Some(Failure::NoExpiry),
        word if is_named(word, b"getex") => Some(Failure::NoExpiry),
        word if is_named(word, b"multi") => Some(Failure::NoTransactions),
        word if is_named(word, b"exec") => Some(Failure::NoTransactions),
        word if is_named(word, b"discard") => Some(Failure::NoTransactions),
        word if is_named(word, b"watch") => Some(Failure::NoTransactions),
        word if is_named(word, b"unwatch") => Some(Failure::NoTransactions),
        word if is_named(word, b"eval") => Some(Failure::NoScripts),
        word if is_named(word, b"evalsha") => Some(Failure::NoScripts),
        word if is_named(word, b"script") => Some(Failure::NoScripts),
        word if is_named(word, b"fcall") => Some(Failure::NoScripts),
        word if is_named(word, b"publish") => Some(Failure::NoChannels),
        word if is_named(word, b"subscribe") => Some(Failure::NoChannels),
        word if is_named(word, b"psubscribe") => Some(Failure::NoChannels),
        word if is_named(word, b"unsubscribe") => Some(Failure::NoChannels),
        word if is_named(word, b"pubsub") => Some(Failure::NoChannels),
        _ => None,
    }
}
