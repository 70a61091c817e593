//! The laws of histories, each the contract of a function that does nothing.

ghost use Rattle.std.specs.Prelude.{◌≡◌, ℕ, ◌<◌, List, ◌∷◌, Option, Ok};
ghost use mathlib.Core.List.{IsPrefix};
ghost use Rattle.mt_rows.specs.{Accounts.{Accounts, account_of}, Tenants.tenant_map, TenantPairs.pairs_of, declared.record.TenantPair.TenantPair};
ghost use Rattle.mt_runs.specs.{declared.event.Answer.Answer, Runs.story_of, Placings.{no_pairs, HasOneOrder}, Orders.Precedes};
ghost use Rattle.mt_state.specs.{Views.{StateView, quota_in}, Begins.new_state};
ghost use Rattle.mt_core.specs.Restores.{IsIdle, IsRestored};
ghost use Rattle.mt_history.specs.{Legal.Along, Views.MarkView};
ghost use Rattle.mt_book.specs.{Happens.{Happening, Leads, Adds}, OneRun.{AreTold, Through}, Calls.{Asked, Calls}, Serves.{ClerkView, Serves}};
ghost use Rattle.mt_orders.specs.{Stories.{no_ids, events_from, story_along}, Explained.{IsExplained, HaveOneOrder, TakesAt, BeginsAt, AnsweredBefore}, Added.HappenedAt, Answered.IsAnsweredIn};

/// One order explains each legal history that begins with no operation open, by whichever run it was made.
/// A run has begins, steps, takes with their tidyings, openings and drains, in whatever turn. Whatever
/// anybody can truly tell of a place stands in the story, so each answer that was taken.
pub fn a_history_has_one_order()
    ensures { (s : StateView) (log : List StateView) (run : List Happening) → IsIdle s → Along Leads s log → Through s log run → IsExplained s log run }
{}

/// So of whatever was told of such a history, by whichever threads: one run has all of it, each at its
/// place, and one order explains that run.
pub fn what_was_told_has_one_order()
    ensures { (told : ℕ → Option Happening) (s : StateView) (log : List StateView) → IsIdle s → Along Leads s log → AreTold told s log → HaveOneOrder told s log }
{}

/// From a new state on the headline is that of `run_events`, word for word. From a restored state on it is
/// the same, but that the tenants have the pairs which were restored.
pub fn a_history_from_a_start_has_one_order()
    ensures new { (logs : ℕ) (accounts : Accounts) (log : List StateView) (run : List Happening) → Along Leads (new_state logs accounts) log → Through (new_state logs accounts) log run →
        HasOneOrder (λ t. quota_in (account_of accounts t)) no_pairs (story_of 0 (events_from 0 no_ids log run)) }
    ensures restored { (steps logs : ℕ) (accounts : Accounts) (ps : List TenantPair) (v : StateView) (log : List StateView) (run : List Happening) →
        IsRestored steps logs accounts ps v → Along Leads v log → Through v log run →
        HasOneOrder (λ t. quota_in (account_of accounts t)) (λ t. tenant_map t (pairs_of ps)) (story_of steps (events_from 0 no_ids log run)) }
{}

/// Real-time order: an answer that was taken before another operation was begun is that of an operation
/// which precedes it. So it stands before it, in whichever order explains the history.
pub fn an_answer_taken_before_a_begin_precedes_it()
    ensures { (s : StateView) (log : List StateView) (run : List Happening) → IsIdle s → Along Leads s log → Through s log run →
        (place later : ℕ) (answer : Answer) → place < later → TakesAt s log place answer → BeginsAt s log later → AnsweredBefore (story_along s log run) answer later }
{}

/// What a clerk added to the history of a book happened at a place of it, behind all that the clerk had
/// seen before.
pub fn what_a_clerk_added_happened()
    ensures { (what : Happening) (old new : MarkView StateView) (s : StateView) (log : List StateView) → Adds what old new → IsPrefix new.log (s ∷ log) → HappenedAt what old new s log }
{}

/// What a clerk's call was answered stands in the story of the history, in the time of the call. It is the answer of the
/// operation that the call began, which made all its steps between the call's begin and its take.
pub fn an_answered_call_stands_in_the_order()
    ensures { (s : StateView) (log : List StateView) (run : List Happening) → IsIdle s → Along Leads s log → Through s log run →
        (old new : ClerkView) (seen : ℕ) (asked : Asked) (answer : Answer) → Calls Serves old new seen asked (Ok answer) → IsPrefix new.mark.log (s ∷ log) →
        IsAnsweredIn s log (story_along s log run) old.mark new.mark asked answer }
{}

/// Real-time order of calls: if a clerk has seen all that another had seen at the end of its answered
/// call, what it is answered then comes later. The operation of the one call precedes that of the
/// other.
pub fn an_answered_call_precedes_those_that_have_seen_it()
    ensures { (s : StateView) (log : List StateView) (run : List Happening) → Through s log run → (old mid later new : MarkView StateView) (asked after : Asked) (answer reply : Answer)
        → (one : IsAnsweredIn s log (story_along s log run) old mid asked answer) (next : IsAnsweredIn s log (story_along s log run) later new after reply)
        → IsPrefix mid.log later.log → Precedes (story_along s log run) one.begun next.begun }
{}
