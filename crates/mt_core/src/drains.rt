//! Up to which step the logs were given their workers' changes.

ghost use Rattle.std.specs.Prelude.{◌≡◌, IfOk, replicate, length};
ghost use Rattle.mt_core.specs.Drains.{IsLeastOf};

use std::alloc::{AllocError, Global};

/// So many logs, each given all up to a step.
pub(crate) fn all_given(alloc: Global, logs: u8, step: u64) -> Result<Vec<u64>, AllocError>
    ensures { IfOk result (λ given. given.items ≡ replicate logs step) }
{
    let mut given = Vec::new(alloc);
    for _ in 0..logs {
        given.push(step)?;
    }
    Ok(given)
}

/// Each log was given all up to a step.
pub(crate) fn give_all(logs: &mut Vec<u64>, step: u64)
    ensures { logs.new.items ≡ replicate (length logs.old.items) step }
{
    give_each(logs.as_mut_slice(), step);
}

// The same of those of a slice.
fn give_each(logs: &mut [u64], step: u64)
    ensures { logs.new ≡ replicate (length logs.old) step }
{
    for given in logs.iter_mut() {
        *given = step;
    }
}

/// The least of these numbers and a bound.
pub(crate) fn least_of(numbers: &[u64], bound: u64) -> u64
    ensures { IsLeastOf numbers.now bound result }
{
    let mut least = bound;
    for number in numbers {
        least = least.min(*number);
    }
    least
}
