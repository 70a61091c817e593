//! What commands of the connection and the server ask.

ghost use Rattle.std.specs.Prelude.{◌≡◌, ◌-◌, ◌^◌, IfOk};
ghost use Rattle.mt_resp.specs.{Arguments.number_of, LinkCommands.{select_asked, hello_asked, config_asked, link_asked}};

use crate::arguments::number_in;
use crate::asked::{Asked, Status, failed, miscounted};
use crate::making::copy_of;
use crate::names::{LinkName, is_named};
use crate::told::{Failure, Told};
use crate::word::Word;
use std::alloc::{AllocError, Global};

/// What a command of the connection or the server asks.
pub fn link_asked(
    alloc: Global,
    word: &[u8],
    name: LinkName,
    words: &[Word],
) -> Result<Asked, AllocError>
    ensures { IfOk result (λ asked. asked ≡ link_asked word.now name words.now) }
{
    match (name, words) {
        (LinkName::Ping, []) => Ok(Asked::Told(Told::Pong)),
        (LinkName::Ping | LinkName::Echo, [text]) => {
            Ok(Asked::Told(Told::Text(copy_of(alloc, text.as_bytes())?)))
        }
        (LinkName::Quit, _) => Ok(Asked::Quit),
        (LinkName::Select, [number]) => select_asked(number.as_bytes()),
        (LinkName::Auth, [_, ..]) => failed(Failure::NoPassword),
        (LinkName::Hello, words) => hello_asked(words),
        (LinkName::Reset, []) => Ok(Asked::Reset),
        (LinkName::Note, [_, ..]) => Ok(Asked::Told(Told::Fine)),
        (LinkName::List, _) => Ok(Asked::Told(Told::Empty)),
        (LinkName::Config, [verb, ..]) => config_asked(verb.as_bytes()),
        (LinkName::Info, _) => Ok(Asked::Status(Status::Info)),
        (LinkName::Time, []) => Ok(Asked::Status(Status::Time)),
        (LinkName::Wait, [_, _]) => Ok(Asked::Told(Told::Number(0))),
        (LinkName::Settle, [_, _, _]) => Ok(Asked::Settle),
        (LinkName::Foreign, _) => Ok(Asked::Close),
        (_, _) => miscounted(alloc, word),
    }
}

// SELECT: the tenant of a number below 2^32.
fn select_asked(number: &[u8]) -> Result<Asked, AllocError>
    ensures { IfOk result (λ asked. asked ≡ select_asked (number_of (2 ^ 32 - 1) number.now)) }
{
    match number_in(u64::from(u32::MAX), number) {
        None => failed(Failure::NoNumber),
        Some(number) => Ok(Asked::Select(number as u32)),
    }
}

// HELLO: version 2 of the protocol, or none; a name is taken, a password is not.
fn hello_asked(words: &[Word]) -> Result<Asked, AllocError>
    ensures { IfOk result (λ asked. asked ≡ hello_asked words.now) }
{
    match words {
        [] => Ok(Asked::Told(Told::Greeting)),
        [version, ..] if !is_named(version.as_bytes(), b"2") => failed(Failure::NoProtocol),
        [_, option, ..] if !is_named(option.as_bytes(), b"setname") => failed(Failure::NoPassword),
        _ => Ok(Asked::Told(Told::Greeting)),
    }
}

// CONFIG: GET shows nothing.
fn config_asked(verb: &[u8]) -> Result<Asked, AllocError>
    ensures { IfOk result (λ asked. asked ≡ config_asked verb.now) }
{
    if is_named(verb, b"get") {
        return Ok(Asked::Told(Told::Empty));
    }
    failed(Failure::NoConfig)
}
