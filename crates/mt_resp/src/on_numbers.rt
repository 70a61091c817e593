//! What commands of numbers and of stamps ask.

ghost use Rattle.std.specs.Prelude.{◌≡◌, IfOk};
ghost use Rattle.mt_resp.specs.NumberCommands.{add_asked, subtract_asked, numbers_asked};

use crate::arguments::{Amount, amount_in};
use crate::asked::{Asked, Edit, failed, miscounted};
use crate::making::{get_of, key_in};
use crate::names::NumberName;
use crate::on_strings::put_at;
use crate::told::{Failure, Shape};
use crate::word::Word;
use std::alloc::{AllocError, Global};

/// What a command of numbers or of stamps asks.
pub fn numbers_asked(
    alloc: Global,
    word: &[u8],
    name: NumberName,
    words: &[Word],
) -> Result<Asked, AllocError>
    ensures { IfOk result (λ asked. asked ≡ numbers_asked word.now name words.now) }
{
    match (name, words) {
        (NumberName::Up, [key]) => add_asked(alloc, key, 0, Some(Amount::Up(1))),
        (NumberName::UpBy, [key, amount]) => {
            add_asked(alloc, key, 0, amount_in(amount.as_bytes()))
        }
        (NumberName::Down, [key]) => add_asked(alloc, key, 0, Some(Amount::Down(1))),
        (NumberName::DownBy, [key, amount]) => {
            subtract_asked(alloc, key, amount_in(amount.as_bytes()))
        }
        (NumberName::GetStamped, [key]) => Ok(Asked::Call(get_of(alloc, key)?, Shape::Stamped)),
        (NumberName::PutIf, [key, stamp, value]) => {
            put_at(alloc, key, stamp, value, Shape::Changed)
        }
        (_, _) => miscounted(alloc, word),
    }
}

/// The number in a column goes up or down.
pub fn add_asked(
    alloc: Global,
    key: &Word,
    index: u8,
    amount: Option<Amount>,
) -> Result<Asked, AllocError>
    ensures { IfOk result (λ asked. asked ≡ add_asked key.now index amount) }
{
    match amount {
        None => failed(Failure::NoInteger),
        Some(amount) => Ok(Asked::Change(key_in(alloc, key)?, Edit::Add(index, amount))),
    }
}

// DECRBY: the other way.
fn subtract_asked(alloc: Global, key: &Word, amount: Option<Amount>) -> Result<Asked, AllocError>
    ensures { IfOk result (λ asked. asked ≡ subtract_asked key.now amount) }
{
    match amount {
        None => failed(Failure::NoInteger),
        Some(amount) => add_asked(alloc, key, 0, Some(amount.turned())),
    }
}
