//! What gives a worker's log its batches.

ghost use Rattle.std.specs.Prelude.{◌≡◌, ℕ, IfOk, OnErr};
ghost use Rattle.mt_rows.specs.declared.record.Batch.{Batch};
ghost use Rattle.mt_batches.specs.Batches.{IsBounded, BringsOn};

use mt_drains::DrainedBatch;
use std::alloc::AllocError;

/// What drains workers: a state, or one under a lock. What it says of a batch is its own.
pub trait Source {
    /// Whether a worker can be drained up to a step.
    ghost serves: { Self → ℕ → ℕ → Type 0 };

    /// What a drain of a worker made of it, with the batch that it gave.
    ghost gives: { Self → Self → ℕ → Batch → Type 0 };

    /// The next batch of a worker's changes since it was last drained: it goes up to the step that is asked for at
    /// least, or it is full. An error comes if memory is refused, and changes nothing.
    fn drain(&mut self, worker: u8, upto: u64) -> Result<DrainedBatch, AllocError>
        requires { serves self.old worker upto }
        ensures worker { IfOk result (λ drained. drained.worker ≡ worker) }
        ensures gives { IfOk result (λ drained. gives self.old self.new worker drained.batch) }
        ensures bounded { IfOk result (λ drained. IsBounded drained.batch) }
        ensures brings { IfOk result (λ drained. BringsOn upto drained.batch) }
        ensures serves { IfOk result (λ _. serves self.new worker upto) }
        ensures unchanged_on_err { OnErr result (self.new ≡ self.old) };
}
