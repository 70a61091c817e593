//! The laws of runs, each the contract of a function that does nothing.

ghost use Rattle.std.specs.{Prelude.{◌≡◌, ◌≢◌, ◌≤◌, ◌↔◌, ℕ, Bool, true, false, List, [], ◌∷◌, ◌++◌, Option, Some, None, map, ◌<◌}, List.Contains};
ghost use Rattle.std.specs.FinMap as pairs;
ghost use Rattle.mt_rows.specs.{Rows.Bytes, Changes.Named, Maps.{Map, is_change, is_no_memory}, declared.command.Command.Command};
ghost use Rattle.mt_rows.specs.{declared.command.Command.TheVariants.{Get, Put, Remove, PutIf}, declared.reply.Reply.Reply};
ghost use Rattle.mt_rows.specs.{declared.reply.Reply.TheVariants.{Absent, Found}, Stamps.{Stamped, as_shown, stamp_in, written}};
ghost use Rattle.mt_runs.specs.{declared.event.Answer.Answer, declared.event.Event.Event, declared.event.Event.TheVariants.{Begin, Step}};
ghost use Rattle.mt_runs.specs.{declared.event.Told.Told, declared.event.Told.TheVariants.{Begun, Moved, Done}};
ghost use Rattle.mt_runs.specs.Runs.{Run, Story, Asked, numbered, asked_by, story_of, owner, Finished, IsFirst, IsLast, IsBetween, with_begin, with_step};
ghost use Rattle.mt_runs.specs.Placings.{Quotas, Maps, Placing, no_pairs, is_placed, Fits, HasOneOrder, maps_after_one, replies_of, commands_of};
ghost use Rattle.mt_runs.specs.{Orders.{Precedes, StandsIn, StandsBefore, WasTold, NoWriteBetween}, Right.{Right, IsGrowth}};
ghost use Rattle.mt_runs.specs.WrongRuns.{row_from_nowhere, missed_write, step_after_the_end, row_from_the_future, pair_from_nowhere, missed_pair, another_stamp, lost_update};
ghost use Rattle.mt_runs.specs.Renumbered.{AreRenumbered, IsRenumbering, renumbered_call, renumbered_reply};

/// One order explains each run that is right: it places every finished get, put and remove that
/// memory did not stop between that operation's first and last step, it is legal, and every finished
/// scan is lawful by its maps.
pub fn right_has_one_order()
    ensures { (quotas : Quotas) (first : Maps) (story : Story) (map_at : ℕ → ℕ → Map) (changed : ℕ → Bool) → Right quotas first story map_at changed → HasOneOrder quotas first story }
{}

/// A run in which nothing has happened is right.
pub fn right_at_first()
    ensures { (quotas : Quotas) (first : Maps) (base : ℕ) (map_at : ℕ → ℕ → Map) (changed : ℕ → Bool) → ((t : ℕ) → map_at t base ≡ first t) → Right quotas first (record { base = base; steps = []; asked = λ o. None }) map_at changed }
{}

/// A right run stays right when an operation begins. (Of an operation that is begun twice the first
/// begin counts.)
pub fn right_after_begin()
    ensures { (quotas : Quotas) (first : Maps) (story : Story) (map_at : ℕ → ℕ → Map) (changed : ℕ → Bool) (o : ℕ) (asked : Asked) → Right quotas first story map_at changed → Right quotas first (with_begin story o asked) map_at changed }
{}

/// A right run stays right when an operation makes a numbered step of which these facts hold.
pub fn right_after_step()
    ensures { (quotas : Quotas) (first : Maps) (story : Story) (map_at now_at : ℕ → ℕ → Map) (changed now_changed : ℕ → Bool) (o : ℕ) (answer : Option Answer) → Right quotas first story map_at changed → IsGrowth quotas story map_at now_at changed now_changed o answer → Right quotas first (with_step story o answer) now_at now_changed }
{}

/// A command of one tenant leaves every other tenant's map equal.
pub fn other_maps_stay()
    ensures { (quotas : Quotas) (m : ℕ) (asked : Asked) (maps : Maps) (t : ℕ) → t ≢ asked.tenant → maps_after_one quotas m (Some asked) maps t ≡ maps t }
{}

/// Two orders that hold the same commands of a tenant in the same order and with the same numbers give
/// that tenant the same replies. Other tenants may do anything.
pub fn same_commands_same_replies()
    ensures { (quotas others : Quotas) (first starts : Maps) (story tale : Story) (placing order : Placing) (t : ℕ) → quotas t ≡ others t → first t ≡ starts t → commands_of story t placing ≡ commands_of tale t order → replies_of quotas story t first placing ≡ replies_of others tale t starts order }
{}

/// Of other tenants a tenant learns numbers and nothing else. Take two orders that hold the same
/// commands of a tenant with other numbers, which are also the stamps that its commands ask for. They
/// give that tenant the same replies with these numbers.
pub fn renumbered_commands_renumbered_replies()
    ensures { (f : ℕ → ℕ) → IsRenumbering f → (quotas others : Quotas) (first starts : Maps) (story tale : Story) (placing order : Placing) (t : ℕ) → quotas t ≡ others t → AreRenumbered f (first t) (starts t) → commands_of tale t order ≡ map (renumbered_call f) (commands_of story t placing) → replies_of others tale t starts order ≡ map (renumbered_reply f) (replies_of quotas story t first placing) }
{}

/// Between an operation's first and last step, both included, stand the numbers from the one to the
/// other.
pub fn between_first_and_last()
    ensures { (story : Story) (o m first last : ℕ) → IsFirst story o first → IsLast story o last → (IsBetween story o m ↔ ((first ≤ m) × (m ≤ last))) }
{}

/// The story of a run grows by its last event: a begin that was told Begun is one more operation
/// begun, a step that moved or was done is one more numbered step, and any other event leaves it.
pub fn a_story_grows_by_its_events()
    ensures begun { (base : ℕ) (run : Run) (o worker tenant : ℕ) (command : Command) → story_of base (run ++ (Begin o worker tenant command, Begun) ∷ []) ≡ with_begin (story_of base run) o (record { tenant = tenant; command = command }) }
    ensures moved { (base : ℕ) (run : Run) (o : ℕ) → story_of base (run ++ (Step o, Moved) ∷ []) ≡ with_step (story_of base run) o None }
    ensures done { (base : ℕ) (run : Run) (o : ℕ) (answer : Answer) → story_of base (run ++ (Step o, Done answer) ∷ []) ≡ with_step (story_of base run) o (Some answer) }
    ensures quiet { (base : ℕ) (run : Run) (x : Event × Told) → numbered x ≡ None → ((q : ℕ) → asked_by q x ≡ None) → story_of base (run ++ x ∷ []) ≡ story_of base run }
{}

/// Real-time order: a finished get, put or remove that memory did not stop stands before each
/// operation that it precedes, if that one stands at all.
pub fn finished_before_first_stands_before()
    ensures { (quotas : Quotas) (first : Maps) (story : Story) (placing : Placing) (o p : ℕ) (answer : Answer)
        → Fits quotas first story placing
        → Finished story o answer → is_placed answer ≡ true
        → Precedes story o p → StandsIn placing p
        → StandsBefore placing o p }
{}

/// An operation that was answered in a run's first part precedes each one that made no numbered step
/// in that part.
pub fn answered_before_another_moved_precedes()
    ensures { (quotas : Quotas) (first : Maps) (base : ℕ) (front back : Run) (o p : ℕ) (answer : Answer)
        → HasOneOrder quotas first (story_of base (front ++ back))
        → Finished (story_of base front) o answer
        → ((m : ℕ) → owner (story_of base front) m ≢ Some p)
        → Precedes (story_of base (front ++ back)) o p }
{}

/// A finished get, put or remove that memory did not stop stands at the number that its answer names,
/// which is between those of its first and last step.
pub fn an_answer_names_its_place()
    ensures { (quotas : Quotas) (first : Maps) (story : Story) (placing : Placing) (o : ℕ) (answer : Answer)
        → Fits quotas first story placing
        → Finished story o answer → is_placed answer ≡ true
        → Contains placing (o, answer.at) × (answer.first ≤ answer.at) × (answer.at ≤ answer.last) }
{}

/// Read your writes: a get that memory did not stop, and that a put of its key precedes, with no other
/// put or remove of the key between them, is told of a row that the put made, if the put was told
/// that it changed the map. The row's stamp is the number at which the put stands.
pub fn a_get_reads_the_put_before_it()
    ensures { (quotas : Quotas) (first : Maps) (story : Story) (o g tenant : ℕ) (key : Bytes)
        (change : Named) (columns : List ℕ) (told reply : Reply)
        → HasOneOrder quotas first story
        → (put : WasTold story o tenant (Put key change) told) → is_change told ≡ true
        → WasTold story g tenant (Get key columns) reply → is_no_memory reply ≡ false
        → Precedes story o g → NoWriteBetween story o g tenant key
        → (old : Option Stamped) × (reply ≡ Found (as_shown columns (written put.answer.at change old))) }
{}

/// And a get that a remove of its key precedes, with no other put or remove of the key between them,
/// is told Absent, if the remove was told that it changed the map.
pub fn a_get_misses_the_row_removed_before_it()
    ensures { (quotas : Quotas) (first : Maps) (story : Story) (o g tenant : ℕ) (key : Bytes)
        (columns : List ℕ) (told reply : Reply)
        → HasOneOrder quotas first story
        → WasTold story o tenant (Remove key) told → is_change told ≡ true
        → WasTold story g tenant (Get key columns) reply → is_no_memory reply ≡ false
        → Precedes story o g → NoWriteBetween story o g tenant key
        → reply ≡ Absent }
{}

/// No update is lost: two puts that asked for one stamp of a key's row are not both told of a change.
/// When the run began, no stamp was over its number.
pub fn a_stamp_is_met_once()
    ensures { (quotas : Quotas) (first : Maps) (story : Story) (o p tenant : ℕ) (key : Bytes) (stamp : ℕ)
        (change other : Named) (told reply : Reply)
        → HasOneOrder quotas first story
        → stamp_in (pairs.get (first tenant) key) ≤ story.base → 0 < stamp → o ≢ p
        → WasTold story o tenant (PutIf key stamp change) told → is_change told ≡ true
        → WasTold story p tenant (PutIf key stamp other) reply → is_change reply ≡ true
        → ⊥ }
{}

/// Runs that no order explains, whatever the tenants' limits are: a get told of a row that was never
/// put, a get that misses an answered put, the same with a step of the put behind its end, a get told
/// of a row that is put only after it, a scan that shows a pair that was never put, a scan that misses
/// an answered put, a get told of the put's row with another stamp, and two puts that asked for one
/// stamp and were both told that they changed it.
pub fn wrong_runs_have_no_order()
    ensures row_from_nowhere { (quotas : Quotas) → ¬ HasOneOrder quotas no_pairs (story_of 0 row_from_nowhere) }
    ensures missed_write { (quotas : Quotas) → ¬ HasOneOrder quotas no_pairs (story_of 0 missed_write) }
    ensures step_after_the_end { (quotas : Quotas) → ¬ HasOneOrder quotas no_pairs (story_of 0 step_after_the_end) }
    ensures row_from_the_future { (quotas : Quotas) → ¬ HasOneOrder quotas no_pairs (story_of 0 row_from_the_future) }
    ensures pair_from_nowhere { (quotas : Quotas) → ¬ HasOneOrder quotas no_pairs (story_of 0 pair_from_nowhere) }
    ensures missed_pair { (quotas : Quotas) → ¬ HasOneOrder quotas no_pairs (story_of 0 missed_pair) }
    ensures another_stamp { (quotas : Quotas) → ¬ HasOneOrder quotas no_pairs (story_of 0 another_stamp) }
    ensures lost_update { (quotas : Quotas) → ¬ HasOneOrder quotas no_pairs (story_of 0 lost_update) }
{}
