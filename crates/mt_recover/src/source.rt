//! What a recovery reads once more: a store's logs batch by batch, and one slot.

ghost use Rattle.std.specs.{Prelude.{◌≡◌, ◌≢◌, ◌<◌, ℕ, List, Option, IfOk, IfErr, IfSome}, Option.option_map};
ghost use Rattle.mt_rows.specs.declared.refusal.Refusal.{Refusal as AnyRefusal};
ghost use Rattle.mt_log.specs.declared.batch.{LogBatch.{LogBatch as AnyBatch}, ReadBatch.{ReadBatch as AnyRead}};
ghost use Rattle.mt_crashes.specs.Bases.{CheckpointView};
ghost use Rattle.mt_recover.specs.{Pairs.view_of, Limits.IsReadSlot, Sources.{Gives, IsReadable}};

use mt_checkpoint::Checkpoint;
use mt_log::ReadBatch;
use mt_rows::Refusal;
use std::alloc::Global;

/// The logs and the slots of a store, which were read once. What it says of its calls may be nothing.
pub trait Source {
    /// How many logs there are.
    ghost logs: { Self → ℕ };

    /// The second is what the first has become by calls.
    ghost follows: { Self → Self → Type 0 };

    /// These batches of a log are left, and calls give them.
    ghost left: { Self → ℕ → List AnyBatch → Type 0 };

    /// A slot holds this, and a call gives it.
    ghost holds: { Self → ℕ → Option CheckpointView → Type 0 };

    /// Its last call was refused for this.
    ghost refused: { Self → AnyRefusal → Type 0 };

    /// Reads the next batch of a log, none after its last.
    fn next(&mut self, alloc: Global, log: usize) -> Result<Option<ReadBatch>, Refusal>
        requires { log < logs self.old }
        ensures logs { logs self.new ≡ logs self.old }
        ensures follows { (start : Self) → follows start self.old → follows start self.new }
        ensures given { IfOk result (λ again. (bs : List AnyBatch) → left self.old log bs → Gives (left self.new log) bs (option_map (λ (b : AnyRead). b.batch) again)) }
        ensures others { (other : ℕ) (bs : List AnyBatch) → other ≢ log → left self.old other bs → left self.new other bs }
        ensures format { IfOk result (λ again. IfSome again (λ b. IsReadable b.batch)) }
        ensures refused { IfErr result (refused self.new) };

    /// Loads the checkpoint of slot 0 or 1, none if it has none.
    fn load(&mut self, alloc: Global, slot: u8) -> Result<Option<Checkpoint>, Refusal>
        requires { slot < 2 }
        ensures logs { logs self.new ≡ logs self.old }
        ensures follows { (start : Self) → follows start self.old → follows start self.new }
        ensures given { IfOk result (λ c. (held : Option CheckpointView) → holds self.old slot held → option_map view_of c ≡ held) }
        ensures left { (log : ℕ) (bs : List AnyBatch) → left self.old log bs → left self.new log bs }
        ensures format { IfOk result IsReadSlot }
        ensures refused { IfErr result (refused self.new) };
}
