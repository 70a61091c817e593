//! What a settled number says of the answers, what a checkpoint has of a history, and how turns follow each other; each the
//! contract of a function that does nothing.

ghost use Rattle.std.specs.Prelude.{◌≡◌, ◌≤◌, ◌<◌, ◌+◌, ◌-◌, ◌^◌, min, ℕ, List, ◌∷◌, Ok, Err};
ghost use mathlib.Core.List.{IsPrefix};
ghost use Rattle.mt_runs.specs.declared.event.Answer.{Answer};
ghost use Rattle.mt_state.specs.Views.{StateView, quota_of};
ghost use Rattle.mt_core.specs.Restores.{IsIdle};
ghost use Rattle.mt_history.specs.{Legal.Along, Views.MarkView};
ghost use Rattle.mt_book.specs.{declared.shared.Clerk.Clerk, Happens.{Happening, Leads}, OneRun.Through, Calls.{Asked, Calls}, Serves.{ClerkView, Serves}};
ghost use Rattle.mt_orders.specs.Stories.{story_along, maps_in};
ghost use Rattle.mt_slots.specs.declared.store_slots.StoreSlots.{StoreSlots};
ghost use Rattle.mt_options.specs.declared.tenants.TenantQuota.{TenantQuota};
ghost use Rattle.mt_store_logs.specs.declared.store_log.StoreLog.{StoreLog};
ghost use Rattle.mt_settle.specs.{Turns.Turn, Settles.Settles, Next.TellsNext};
ghost use Rattle.mt_stored.specs.{declared.shared.SharedLogs.SharedLogs, Shared.{DoesShared, Somewhere}, declared.checks.DueTurn.DueTurn, declared.turns.TurnStop.TurnStop, Checkpoints.{Scanner, WritesCheckpoint}, Digests.FileDigest};
ghost use Rattle.mt_caller.specs.Exchanges.{Settles as SettlesFor};
ghost use Rattle.mt_service.specs.{declared.callers.DeskCaller.DeskCaller, Sessions.{acts, turns, logs_of, AsksBook, Within, SeesFront}, Turning.{Turning, TellsTurn}, CheckpointScans.AreMadeBetween};

use mt_disk::Disk;
use mt_stored::Digests;

/// A settled number covers each answer that was seen before the Settle: all steps of the answer's operation
/// are of at most this number. So it is over whatever is drained by a clerk that had seen the answer.
///
/// And so it is for a session, whichever clerk was given the answer, if the session's own had seen all that
/// this one had at the end of its call.
pub fn a_settled_number_covers_each_answer_that_was_seen<L, J, R, D: Disk, K, S>()
    ensures logs { (first : StateView) (log : List StateView) → IsIdle first → Along Leads first log →
        (seen_by : S → MarkView StateView) (count n : ℕ) (learned settled : S) →
        Settles (λ (s : S) (turn : Turn) (t : S). DoesShared D.is_honest D.state D.failures D.was_refused (seen_by s) turn (seen_by t)) count learned settled (Ok n) →
        IsPrefix (seen_by settled).log (first ∷ log) →
        (old new : ClerkView) (seen : ℕ) (asked : Asked) (answer : Answer) → Calls Serves old new seen asked (Ok answer) →
        IsPrefix new.mark.log (seen_by learned).log → answer.last ≤ n }
    ensures session { (first : StateView) (log : List StateView) → IsIdle first → Along Leads first log →
        (old new : DeskCaller L R (Clerk L J) (SharedLogs L J R D) K) (n : ℕ) → AsksBook D.is_honest D.state D.failures D.was_refused old (SettlesFor (Ok n)) new →
        IsPrefix new.keeper.logs.book.clerk.mark.log (first ∷ log) →
        (before after : Clerk L J) (seen : ℕ) (asked : Asked) (answer : Answer) → Calls acts before after seen asked (Ok answer) →
        IsPrefix after.mark.log old.desk.mark.log → answer.last ≤ n }
{}

/// The scans of a checkpoint that was written over a history are operations of it. Each finished with the answer that has
/// its page. It made all its steps after the checkpoint's first number, and up to its last one. In whichever order explains
/// the history the page is lawful by the tenant's maps between these two.
pub fn a_checkpoint_has_scans_of_its_history<L, J, D: Disk>()
    ensures { (first : StateView) (log : List StateView) (run : List Happening) → IsIdle first → Along Leads first log → Through first log run →
        (worker : ℕ) (old new : Scanner (Clerk L J)) (tenants : List ℕ) (slots left : StoreSlots D) (digest : FileDigest) →
        (w : WritesCheckpoint (Within (SeesFront (first ∷ log)) acts) worker D.is_honest D.state D.failures old tenants slots digest new left) →
        AreMadeBetween (quota_of first) (maps_in first) (story_along first log run) w.first w.last w.adds.1 }
{}

/// Of a turner over logs behind locks. A whole turn went to its next generation: all logs told that one before the turn began, and
/// each of them was seen at it, under its lock, before the checkpoint. The next turn goes to the generation after that, if one is
/// left. After a turn that was stopped the next one goes to the same generation, and finishes it.
pub fn a_turn_is_finished_before_the_next_behind_locks<L, J, R, D: Disk, G: Digests>()
    ensures whole { (tenants : List TenantQuota) (due : DueTurn D) (old new : Turning (Clerk L J) (SharedLogs L J R D) G) (left : StoreSlots D)
        → TellsTurn acts D.is_honest D.state D.failures (turns D.is_honest D.state D.failures D.was_refused) logs_of G.does tenants due old (Ok left) new
        → (new.next ≡ min (old.next + 1) (2 ^ 64 - 1))
        × ((logs : SharedLogs L J R D) × TellsNext (turns D.is_honest D.state D.failures D.was_refused) (logs_of logs) logs (Ok old.next)
        × ((log : ℕ) → log < logs_of logs → Somewhere (λ (before after : StoreLog D). after.log.generation ≡ old.next) log)) }
    ensures stopped { (tenants : List TenantQuota) (due : DueTurn D) (old new : Turning (Clerk L J) (SharedLogs L J R D) G) (told : TurnStop × StoreSlots D)
        → TellsTurn acts D.is_honest D.state D.failures (turns D.is_honest D.state D.failures D.was_refused) logs_of G.does tenants due old (Err told) new
        → new.next ≡ old.next }
{}
