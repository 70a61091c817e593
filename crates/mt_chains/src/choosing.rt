//! From which generation on a store is recovered.

ghost use Rattle.std.specs.{Prelude.{◌≡◌, ◌<◌, List, map, length, IfSome, IfNone}, Option.option_map};
ghost use Rattle.mt_generations.specs.{Chains.Chain, Standings.{AllHave, AreFrom, IsChosen, HaveNoChoice}};
ghost use Rattle.mt_recover.specs.Pairs.{view_of};
ghost use Rattle.mt_chains.specs.Files.{standing_of};

use crate::bases::can_begin;
use crate::last::last_generation;
use crate::worker_logs::WorkerLogs;
use mt_checkpoint::SeenCheckpoint;

/// From which generation on a store is recovered, by what was read of its workers' files and of its checkpoints' slots.
/// It is the last generation of which each worker has a log, if a recovery can begin there, or else the one before that.
/// If it can begin at neither, there is none.
pub fn choose(logs: &[WorkerLogs], checkpoints: &[Option<SeenCheckpoint>]) -> Option<u64>
    requires { 0 < length logs.now }
    ensures chosen { IfSome result (λ g. (chains : List Chain) → AreFrom g (map standing_of logs.now) chains → IsChosen (map standing_of logs.now) (map (option_map view_of) checkpoints.now) g chains) }
    ensures has { IfSome result (λ g. AllHave g (map standing_of logs.now)) }
    ensures none { IfNone result (HaveNoChoice (map standing_of logs.now) (map (option_map view_of) checkpoints.now)) }
{
    let last = last_generation(logs)?;
    if can_begin(last, logs, checkpoints) {
        return Some(last);
    }
    if last == 0 {
        return None;
    }
    let before = last - 1;
    if can_begin(before, logs, checkpoints) {
        Some(before)
    } else {
        None
    }
}
