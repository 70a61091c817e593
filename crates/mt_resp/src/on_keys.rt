//! What commands of keys ask, whatever their rows.

ghost use Rattle.std.specs.Prelude.{◌≡◌, IfOk};
ghost use Rattle.mt_resp.specs.KeyCommands.{keys_asked, clear_asked};

use crate::asked::{Asked, Status, failed, miscounted};
use crate::making::{get_of, gets_of, remove_of, removes_of};
use crate::names::{KeyName, is_named};
use crate::on_scans::{range_asked, scan_asked};
use crate::told::{Failure, Shape};
use crate::word::Word;
use std::alloc::{AllocError, Global};

/// What a command of keys asks.
pub fn keys_asked(
    alloc: Global,
    word: &[u8],
    name: KeyName,
    words: &[Word],
) -> Result<Asked, AllocError>
    ensures { IfOk result (λ asked. asked ≡ keys_asked word.now name words.now) }
{
    match (name, words) {
        (KeyName::Remove, [key]) => Ok(Asked::Call(remove_of(alloc, key)?, Shape::Removed)),
        (KeyName::Remove, [_, _, ..]) => Ok(Asked::Sum(removes_of(alloc, words)?, Shape::Removed)),
        (KeyName::Has, [key]) => Ok(Asked::Call(get_of(alloc, key)?, Shape::Presence)),
        (KeyName::Has, [_, _, ..]) => Ok(Asked::Sum(gets_of(alloc, words)?, Shape::Presence)),
        (KeyName::Kind, [key]) => Ok(Asked::Call(get_of(alloc, key)?, Shape::Kind)),
        (KeyName::Scan, [cursor, options @ ..]) => scan_asked(alloc, cursor, options),
        (KeyName::Range, [from, count, options @ ..]) => range_asked(alloc, from, count, options),
        (KeyName::Count, []) => Ok(Asked::Status(Status::Count)),
        (KeyName::Clear, options) => clear_asked(options),
        (_, _) => miscounted(alloc, word),
    }
}

// FLUSHDB with its option: COUNT, ASYNC or SYNC.
fn clear_asked(options: &[Word]) -> Result<Asked, AllocError>
    ensures { IfOk result (λ asked. asked ≡ clear_asked options.now) }
{
    match options {
        [] => Ok(Asked::Clear { counted: false }),
        [option] if is_named(option.as_bytes(), b"count") => Ok(Asked::Clear { counted: true }),
        [option] if is_named(option.as_bytes(), b"async") || is_named(option.as_bytes(), b"sync") =>
            { Ok(Asked::Clear { counted: false }) }
        _ => failed(Failure::Syntax),
    }
}
