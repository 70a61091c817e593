//! Laws of generations of logs, each the contract of a function that does nothing.

ghost use Rattle.std.specs.{Prelude.{◌≡◌, ◌≢◌, ◌⊎◌, ◌+◌, ◌<◌, ◌≤◌, ℕ, true, false, List, [], ◌∷◌, ◌++◌, map, length, Option, Some, None, slice_get}, List.AllZip};
ghost use Rattle.std.specs.FinMap as pairs;
ghost use Rattle.mt_rows.specs.{Rows.Bytes, Tenants.{Contents as Pairs}, declared.record.Record.Record, Stamps.{Stamped, stamp_in}};
ghost use Rattle.mt_log.specs.{declared.batch.LogBatch.LogBatch, Contents.{Contents, JoinsAndRises, mark_of, with_batch}};
ghost use Rattle.mt_crashes.specs.Fronts.{In, cutoff_of, is_void, all_voids, all_records, key_of, after_replay, made};
ghost use Rattle.mt_crashes.specs.{Histories.pairs_upto, Bases.{CheckpointView, Slots}, Recoveries.{HasSlot, IsRecovered, AreSet, StandsTwice, resume_of}};
ghost use Rattle.mt_crashes.specs.Stores.{Store, new_store, Happens, Leads, MayLeaveFronts, MayLeaveSlots, AllReach, only_this, at_rest};
ghost use Rattle.mt_generations.specs.Chains.{Chain, EndsLog, BeginBy, Covers, MayUseOver, IsUsedOver, IsRecoveredOver, NoneOlderOver};
ghost use Rattle.mt_generations.specs.Standings.{Standing, joined, AreFrom, AllHave, IsLast, CanBegin, IsChosen, HaveNoChoice, StartFalls, AgreeFrom, IsPart, StandsFor};
ghost use Rattle.mt_generations.specs.Turns.{with_log, without, only_first, longer, IsSettledIn, Writes, StandsWhole, KeepsLog};
ghost use Rattle.mt_generations.specs.Examples.{put, put_batch, idle_batch, chain_with, two_logs, one_checkpoint};

/// A recovery from what is left of the logs gives what one from the whole logs would: the pairs of the history up to the
/// cutoff, which is the same, and the same number to go on from.
pub fn what_is_left_of_the_chains_is_enough()
    ensures { (count n : ℕ) (s : Store) (fronts : List Contents) (chains : List Chain) (read : Slots) (cutoff resume : ℕ) (used : Option ℕ)
        (found : Pairs) →
        0 < count → count ≤ 64 → Leads n (new_store count) s → MayLeaveFronts s.logs fronts → MayLeaveSlots s.slots read → AllZip EndsLog fronts chains →
        IsRecoveredOver chains read cutoff resume used found →
        (found ≡ pairs_upto cutoff s.history) × (cutoff ≡ cutoff_of fronts) × (resume ≡ resume_of fronts read) }
{}

/// Of logs of which nothing was given up, that begin at step 0, a recovery returns just what `IsRecovered` says.
pub fn whole_logs_are_recovered_as_ever()
    ensures over { (fronts : List Contents) (read : Slots) (cutoff resume : ℕ) (used : Option ℕ) (found : Pairs) →
        BeginBy 0 fronts → IsRecovered fronts read cutoff resume used found → IsRecoveredOver fronts read cutoff resume used found }
    ensures back { (fronts : List Contents) (read : Slots) (cutoff resume : ℕ) (used : Option ℕ) (found : Pairs) →
        BeginBy 0 fronts → IsRecoveredOver fronts read cutoff resume used found → IsRecovered fronts read cutoff resume used found }
{}

/// What is left of the logs is a set, each chain its worker's, with batches that join and rise from its start on. No stamp
/// stands in two chains, and none is older than what the others tell. So a recovery refuses none of them for any of these.
pub fn what_is_left_of_the_chains_is_a_set()
    ensures set { (count n : ℕ) (s : Store) (fronts : List Contents) (chains : List Chain) →
        0 < count → count ≤ 64 → Leads n (new_store count) s → MayLeaveFronts s.logs fronts → AllZip EndsLog fronts chains → AreSet chains }
    ensures own { (count n k : ℕ) (s : Store) (fronts : List Contents) (chains : List Chain) (c : Chain) →
        0 < count → count ≤ 64 → Leads n (new_store count) s → MayLeaveFronts s.logs fronts → AllZip EndsLog fronts chains →
        slice_get chains k ≡ Some c → c.worker ≡ k }
    ensures joins { (count n k : ℕ) (s : Store) (fronts : List Contents) (chains : List Chain) (c : Chain) →
        0 < count → count ≤ 64 → Leads n (new_store count) s → MayLeaveFronts s.logs fronts → AllZip EndsLog fronts chains →
        slice_get chains k ≡ Some c → JoinsAndRises c }
    ensures apart { (count n stamp i j : ℕ) (s : Store) (fronts : List Contents) (chains : List Chain) →
        0 < count → count ≤ 64 → Leads n (new_store count) s → MayLeaveFronts s.logs fronts → AllZip EndsLog fronts chains →
        ¬ StandsTwice chains stamp i j }
    ensures none_older { (count n : ℕ) (s : Store) (fronts : List Contents) (chains : List Chain) →
        0 < count → count ≤ 64 → Leads n (new_store count) s → MayLeaveFronts s.logs fronts → AllZip EndsLog fronts chains → NoneOlderOver chains }
{}

/// A settled base stays one, whatever happens to the store but a write to its slot: also a recovery. A checkpoint of this
/// life that stands in its slot is one, once all logs go by its end; and so is one that a recovery uses. So after a
/// recovery the generation from which it began stands whole.
pub fn a_settled_base_stays()
    ensures stays { (count n starts k : ℕ) (c : CheckpointView) (old new : Store) →
        0 < count → count ≤ 64 → Leads n (new_store count) old → Happens old new → ¬ Writes k old new → IsSettledIn old starts k c →
        IsSettledIn new starts k c }
    ensures stays_whole { (count n g : ℕ) (files : List Standing) (old new : Store) →
        0 < count → count ≤ 64 → Leads n (new_store count) old → Happens old new → ((k : ℕ) → ¬ Writes k old new) → StandsWhole g old files →
        StandsWhole g new files }
    ensures settles { (count n starts k : ℕ) (s : Store) (c : CheckpointView) →
        0 < count → count ≤ 64 → Leads n (new_store count) s → slice_get s.slots k ≡ Some (only_this (Some c)) → Covers starts c → s.reached < c.to →
        AllReach c.to s → IsSettledIn s starts k c }
    ensures used { (count n starts k : ℕ) (s : Store) (fronts : List Contents) (chains : List Chain) (read : Slots) (c : CheckpointView) →
        0 < count → count ≤ 64 → Leads n (new_store count) s → s.logs ≡ map at_rest fronts → s.slots ≡ map only_this read → AllZip EndsLog fronts chains →
        HasSlot read k c → MayUseOver chains c → Covers starts c → IsSettledIn s starts k c }
    ensures recovered { (count n g : ℕ) (s : Store) (fronts : List Contents) (files : List Standing) (chains : List Chain) (read : Slots) (used : Option ℕ) →
        0 < count → count ≤ 64 → Leads n (new_store count) s → s.logs ≡ map at_rest fronts → s.slots ≡ map only_this read → AllZip EndsLog fronts chains →
        AreFrom g files chains → IsUsedOver chains read used → StandsWhole g s files }
{}

/// Whatever a crash leaves of the files of a turn, or while older logs are given up: there are chains to recover from, over
/// which some checkpoint or nothing may be used. All chains of a generation are what is left of the whole logs.
pub fn something_is_left_to_recover_from()
    ensures chosen { (count n g h : ℕ) (s : Store) (fronts : List Contents) (files : List Standing) (read : Slots) →
        0 < count → count ≤ 64 → Leads n (new_store count) s → MayLeaveFronts s.logs fronts → MayLeaveSlots s.slots read →
        AllZip (StandsFor g) fronts files → StandsWhole h s files →
        (m : ℕ) × (chains : List Chain) × IsChosen files read m chains × AllZip EndsLog fronts chains }
    ensures ends { (g h : ℕ) (fronts : List Contents) (files : List Standing) (chains : List Chain) →
        AllZip (StandsFor g) fronts files → AreFrom h files chains → AllZip EndsLog fronts chains }
{}

/// Of a store's own logs the next one begins where the one before it ends. If it does so, and each of both joins and
/// rises, so does the chain.
pub fn a_next_log_begins_where_one_ends()
    ensures own { (g h start : ℕ) (log : Contents) (f : Standing) → StandsFor g log f → ¬ StartFalls h f start }
    ensures joins { (a b c : Chain) →
        JoinsAndRises a → JoinsAndRises b → b.start ≡ mark_of a → joined (Some a) (Some b) ≡ Some c → JoinsAndRises c }
{}

/// There is one choice at most, of one generation and its chains. There is none just if neither the last generation can be
/// begun at, nor the one before it. Logs of older generations than the chosen one count for nothing.
pub fn there_is_one_choice_at_most()
    ensures one { (g h : ℕ) (files : List Standing) (slots : Slots) (chains others : List Chain) →
        IsChosen files slots g chains → IsChosen files slots h others → (g ≡ h) × (chains ≡ others) }
    ensures no_generation { (files : List Standing) (slots : Slots) → ((g : ℕ) → ¬ AllHave g files) → HaveNoChoice files slots }
    ensures none { (g : ℕ) (files : List Standing) (slots : Slots) →
        IsLast g files → ¬ CanBegin g files slots → ((h : ℕ) → h + 1 ≡ g → ¬ CanBegin h files slots) → HaveNoChoice files slots }
    ensures only_then { (g : ℕ) (files : List Standing) (slots : Slots) →
        IsLast g files → HaveNoChoice files slots → (¬ CanBegin g files slots) × ((h : ℕ) → h + 1 ≡ g → ¬ CanBegin h files slots) }
    ensures older_unread { (g : ℕ) (files others : List Standing) (slots : Slots) (chains : List Chain) →
        AgreeFrom g files others → IsChosen files slots g chains → IsChosen others slots g chains }
{}

/// What stands of a worker's log at each moment of a turn. Its first log. The next log, once it is begun, or is being begun.
/// A batch more, in the last log. The older log given up, or being given up; and then the next generation is the first one.
/// Whatever keeps the logs of a generation keeps it whole.
pub fn each_moment_of_a_turn()
    ensures first { (s : Store) (fronts : List Contents) (log : Contents) →
        BeginBy 0 fronts → StandsFor 0 log (only_first log) × StandsWhole 0 s (map only_first fronts) }
    ensures begun { (g : ℕ) (log : Contents) (f : Standing) (c : Chain) →
        StandsFor g log f → f (g + 1) ≡ None → IsPart log log.batches [] c → StandsFor g log (with_log (g + 1) c f) }
    ensures longer_next { (g : ℕ) (log : Contents) (f : Standing) (b : LogBatch) (c : Chain) →
        StandsFor g log f → f (g + 1) ≡ Some c → StandsFor g (with_batch b log) (with_log (g + 1) (longer b c) f) }
    ensures longer_first { (g : ℕ) (log : Contents) (f : Standing) (b : LogBatch) (c : Chain) →
        StandsFor g log f → f (g + 1) ≡ None → f g ≡ Some c → StandsFor g (with_batch b log) (with_log g (longer b c) f) }
    ensures given_up { (g : ℕ) (log : Contents) (f : Standing) → StandsFor g log f → StandsFor g log (without g f) × (without g f g ≡ None) }
    ensures turned { (g : ℕ) (log : Contents) (f : Standing) → StandsFor g log f → f g ≡ None → StandsFor (g + 1) log f }
    ensures stands_on { (g : ℕ) (s : Store) (files others : List Standing) →
        AllZip (KeepsLog g) files others → StandsWhole g s files → StandsWhole g s others }
    ensures keeps_with { (g h : ℕ) (c : Chain) (f : Standing) → ((d : Chain) → f h ≡ Some d → c.start ≡ d.start) → KeepsLog g f (with_log h c f) }
    ensures keeps_without { (g h : ℕ) (f : Standing) → g ≢ h → KeepsLog g f (without h f) }
    ensures whole_without { (g : ℕ) (s : Store) (files : List Standing) → StandsWhole (g + 1) s files → StandsWhole (g + 1) s (map (without g) files) }
{}

/// One worker, and one put, from 0 to 6. The next log was begun at 6, and a checkpoint was walked from 6 to 9. While the next
/// log has no batch, both logs are read, and no checkpoint is used. Once it goes to 9, it is read alone, over the checkpoint,
/// whatever stands of the older one.
pub fn a_choice_takes_what_counts()
    ensures both { (walked : Pairs) →
        IsChosen (two_logs (Some (chain_with 0 (put_batch ∷ []))) (chain_with 6 []) ∷ []) (one_checkpoint walked) 0 (chain_with 0 (put_batch ∷ []) ∷ [])
        × IsRecoveredOver (chain_with 0 (put_batch ∷ []) ∷ []) (one_checkpoint walked) 6 9 None (after_replay pairs.empty (put ∷ [])) }
    ensures alone { (walked : Pairs) (older : Option Chain) →
        IsChosen (two_logs older (chain_with 6 (idle_batch ∷ [])) ∷ []) (one_checkpoint walked) 1 (chain_with 6 (idle_batch ∷ []) ∷ [])
        × IsRecoveredOver (chain_with 6 (idle_batch ∷ []) ∷ []) (one_checkpoint walked) 9 9 (Some 0) walked }
{}

/// Nothing is left to recover from if the older log is given up in a wrong order: before a checkpoint was written; before
/// the logs go by its end; or if the checkpoint is then written over.
pub fn a_wrong_order_leaves_nothing()
    ensures without_a_checkpoint { HaveNoChoice (two_logs None (chain_with 6 []) ∷ []) (None ∷ None ∷ []) }
    ensures before_it_settled { (walked : Pairs) → HaveNoChoice (two_logs None (chain_with 6 []) ∷ []) (one_checkpoint walked) }
    ensures written_over { HaveNoChoice (two_logs None (chain_with 6 (idle_batch ∷ [])) ∷ []) (None ∷ None ∷ []) }
{}

/// What no choice is: older logs, if they need not be read; a generation over which no base may be used; one further back,
/// or of which a worker has no log; a chain without its next log.
pub fn wrong_choices_are_refused()
    ensures older_in_vain { (g h : ℕ) (files : List Standing) (slots : Slots) (chains : List Chain) →
        IsLast g files → CanBegin g files slots → h ≢ g → ¬ IsChosen files slots h chains }
    ensures older_left_out { (g : ℕ) (files : List Standing) (slots : Slots) (chains : List Chain) (d : Chain) →
        In d chains → 0 < d.start → ((k : ℕ) (c : CheckpointView) → HasSlot slots k c → ¬ MayUseOver chains c) → ¬ IsChosen files slots g chains }
    ensures far_back { (g h : ℕ) (files : List Standing) (slots : Slots) (chains : List Chain) →
        IsLast g files → h + 1 < g → ¬ IsChosen files slots h chains }
    ensures over_the_last { (g h : ℕ) (files : List Standing) (slots : Slots) (chains : List Chain) →
        IsLast g files → g < h → ¬ IsChosen files slots h chains }
    ensures without_a_worker { (g : ℕ) (files : List Standing) (slots : Slots) (chains : List Chain) (f : Standing) →
        In f files → f g ≡ None → ¬ IsChosen files slots g chains }
    ensures without_the_next_log { (g k : ℕ) (files : List Standing) (slots : Slots) (chains : List Chain) (f : Standing) (a b c : Chain) →
        slice_get files k ≡ Some f → f g ≡ Some a → f (g + 1) ≡ Some b → slice_get chains k ≡ Some c →
        c.batches ≢ a.batches ++ b.batches → ¬ IsChosen files slots g chains }
{}

/// What no recovery from chains returns. A cutoff that some chain doesn't reach, or one that all pass; to go on from before
/// the end of a chain, or of a checkpoint. A checkpoint that began before a chain's start, or whose numbers are equal if
/// anything was given up; one that is void, that ended after the cutoff, or before another that may be used. None, if one
/// may be used or anything was given up. Over no checkpoint: a pair that only void or later records tell, or not what a
/// key's last record makes that counts. And over a checkpoint: not its row of a key of which no record counts, or none
/// over the row's stamp; or not what a key's last record makes, if it counts and is over the row's stamp.
pub fn wrong_recoveries_from_chains_are_refused()
    ensures cutoff_past_a_chain { (cutoff resume : ℕ) (chains : List Chain) (d : Chain) (read : Slots) (used : Option ℕ) (found : Pairs) →
        In d chains → mark_of d < cutoff → ¬ IsRecoveredOver chains read cutoff resume used found }
    ensures cutoff_before_all_chains { (cutoff resume : ℕ) (chains : List Chain) (read : Slots) (used : Option ℕ) (found : Pairs) →
        0 < length chains → ((d : Chain) → In d chains → cutoff < mark_of d) → ¬ IsRecoveredOver chains read cutoff resume used found }
    ensures resume_before_a_chain { (cutoff resume : ℕ) (chains : List Chain) (d : Chain) (read : Slots) (used : Option ℕ) (found : Pairs) →
        In d chains → resume < mark_of d → ¬ IsRecoveredOver chains read cutoff resume used found }
    ensures resume_before_a_checkpoint { (k cutoff resume : ℕ) (chains : List Chain) (c : CheckpointView) (read : Slots) (used : Option ℕ) (found : Pairs) →
        HasSlot read k c → resume < c.to → ¬ IsRecoveredOver chains read cutoff resume used found }
    ensures over_an_early_checkpoint { (k cutoff resume : ℕ) (chains : List Chain) (d : Chain) (c : CheckpointView) (read : Slots) (found : Pairs) →
        HasSlot read k c → In d chains → c.from < d.start → ¬ IsRecoveredOver chains read cutoff resume (Some k) found }
    ensures over_equal_numbers { (k cutoff resume : ℕ) (chains : List Chain) (d : Chain) (c : CheckpointView) (read : Slots) (found : Pairs) →
        HasSlot read k c → In d chains → 0 < d.start → c.from ≡ c.to → ¬ IsRecoveredOver chains read cutoff resume (Some k) found }
    ensures over_a_void_checkpoint { (k cutoff resume : ℕ) (chains : List Chain) (c : CheckpointView) (read : Slots) (found : Pairs) →
        HasSlot read k c → is_void (all_voids chains) c.to ≡ true → ¬ IsRecoveredOver chains read cutoff resume (Some k) found }
    ensures over_a_late_checkpoint { (k cutoff resume : ℕ) (chains : List Chain) (c : CheckpointView) (read : Slots) (found : Pairs) →
        HasSlot read k c → cutoff < c.to → ¬ IsRecoveredOver chains read cutoff resume (Some k) found }
    ensures over_an_older_checkpoint { (j k cutoff resume : ℕ) (chains : List Chain) (c d : CheckpointView) (read : Slots) (found : Pairs) →
        HasSlot read k c → HasSlot read j d → MayUseOver chains d → c.to < d.to → ¬ IsRecoveredOver chains read cutoff resume (Some k) found }
    ensures over_no_checkpoint { (k cutoff resume : ℕ) (chains : List Chain) (c : CheckpointView) (read : Slots) (found : Pairs) →
        HasSlot read k c → MayUseOver chains c → ¬ IsRecoveredOver chains read cutoff resume None found }
    ensures over_nothing { (cutoff resume : ℕ) (chains : List Chain) (d : Chain) (read : Slots) (found : Pairs) →
        In d chains → 0 < d.start → ¬ IsRecoveredOver chains read cutoff resume None found }
    ensures with_what_does_not_count { (key : ℕ × Bytes) (cutoff resume : ℕ) (chains : List Chain) (read : Slots) (found : Pairs) →
        ((r : Record) → In r (all_records chains) → key_of r ≡ key → (is_void (all_voids chains) r.stamp ≡ true) ⊎ (cutoff < r.stamp)) →
        pairs.get found key ≢ None → ¬ IsRecoveredOver chains read cutoff resume None found }
    ensures without_the_last_record { (r : Record) (cutoff resume : ℕ) (chains : List Chain) (read : Slots) (found : Pairs) →
        In r (all_records chains) → 0 < r.stamp → r.stamp ≤ cutoff → is_void (all_voids chains) r.stamp ≡ false →
        ((q : Record) → In q (all_records chains) → key_of q ≡ key_of r → r.stamp < q.stamp →
        (is_void (all_voids chains) q.stamp ≡ true) ⊎ (cutoff < q.stamp)) →
        ((old : Option Stamped) → pairs.get found (key_of r) ≢ made r.stamp r.write old) → ¬ IsRecoveredOver chains read cutoff resume None found }
    ensures beside_its_base { (k cutoff resume : ℕ) (key : ℕ × Bytes) (chains : List Chain) (c : CheckpointView) (read : Slots) (found : Pairs) →
        HasSlot read k c →
        ((r : Record) → In r (all_records chains) → key_of r ≡ key →
        (r.stamp ≤ c.from) ⊎ (is_void (all_voids chains) r.stamp ≡ true) ⊎ (cutoff < r.stamp)) →
        pairs.get found key ≢ pairs.get c.pairs key → ¬ IsRecoveredOver chains read cutoff resume (Some k) found }
    ensures with_a_change_that_its_base_has { (k cutoff resume : ℕ) (key : ℕ × Bytes) (row : Stamped) (chains : List Chain) (c : CheckpointView)
        (read : Slots) (found : Pairs) →
        HasSlot read k c → pairs.get c.pairs key ≡ Some row →
        ((r : Record) → In r (all_records chains) → key_of r ≡ key → r.stamp ≤ cutoff → is_void (all_voids chains) r.stamp ≡ false →
        r.stamp ≤ row.stamp) →
        pairs.get found key ≢ Some row → ¬ IsRecoveredOver chains read cutoff resume (Some k) found }
    ensures without_the_last_record_over_its_base { (r : Record) (k cutoff resume : ℕ) (chains : List Chain) (c : CheckpointView) (read : Slots)
        (found : Pairs) →
        HasSlot read k c → In r (all_records chains) → c.from < r.stamp → r.stamp ≤ cutoff → is_void (all_voids chains) r.stamp ≡ false →
        stamp_in (pairs.get c.pairs (key_of r)) < r.stamp →
        ((q : Record) → In q (all_records chains) → key_of q ≡ key_of r → r.stamp < q.stamp →
        (is_void (all_voids chains) q.stamp ≡ true) ⊎ (cutoff < q.stamp)) →
        ((old : Option Stamped) → pairs.get found (key_of r) ≢ made r.stamp r.write old) → ¬ IsRecoveredOver chains read cutoff resume (Some k) found }
{}
