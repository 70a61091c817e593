//! The generation to which the next turn of all logs goes, as they tell it.

ghost use Rattle.std.specs.Prelude.{◌≡◌, ◌≢◌, ◌⊎◌, ◌↔◌, ◌+◌, ◌-◌, ◌^◌, max, true, false, IsTrue, IfOk, IfErr};
ghost use Rattle.mt_rows.specs.declared.refusal.Refusal.TheVariants.{Spent};
ghost use Rattle.mt_settle.specs.Next.{TellsNext};

use crate::logs::Logs;
use mt_rows::Refusal;
use mt_store_logs::Generations;
use std::sync::Wait;

/// To which generation the next turn of all logs goes. If all are of one generation, and no older log stands, it is the
/// one after that. Else a turn was left half done. It is the greatest one then, so that this turn is finished.
///
/// Errors: `NoStore` if there are no logs; that of the first log that did not tell; `Spent` after the last generation.
pub fn next_generation<R: Wait, S: Logs>(rt: &R, logs: &S) -> Result<u64, Refusal>
    ensures { TellsNext S.does (S.logs logs.now) logs.now result }
{
    let count = logs.count();
    if count == 0 {
        return Err(Refusal::NoStore);
    }
    let mut all = logs.generations(rt, 0)?;
    for log in 1..count {
        all = together(all, logs.generations(rt, log)?);
    }
    after(all)
}

// What some logs tell, and one more.
fn together(all: Generations, one: Generations) -> Generations
    ensures last { result.last ≡ max all.last one.last }
    ensures older { IsTrue result.has_older ↔ ((all.has_older ≡ true) ⊎ ((one.has_older ≡ true) ⊎ (all.last ≢ one.last))) }
{
    Generations {
        last: all.last.max(one.last),
        has_older: all.has_older || one.has_older || all.last != one.last,
    }
}

// The generation of a half-done turn, or else the one after the last.
fn after(all: Generations) -> Result<u64, Refusal>
    ensures half { all.has_older ≡ true → IfOk result (λ next. next ≡ all.last) }
    ensures whole { all.has_older ≡ false → IfOk result (λ next. next ≡ all.last + 1) }
    ensures err { IfErr result (λ e. (e ≡ Spent) × (all.has_older ≡ false) × (all.last ≡ 2 ^ 64 - 1)) }
{
    if all.has_older {
        return Ok(all.last);
    }
    match all.last.checked_add(1) {
        Some(next) => Ok(next),
        None => Err(Refusal::Spent),
    }
}
