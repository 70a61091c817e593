//! What a scan keeps of the pairs that it has seen.

ghost use Rattle.std.specs.Prelude.{◌≡◌, ◌≤◌, ◌++◌, ◌∷◌, ℕ, List, [], length, take, OnOk, IfOk};
ghost use Rattle.mt_rows.specs.{Rows.AreIndexes, Stamps.as_shown};
ghost use Rattle.mt_walks.specs.Walked.{shown_all};
ghost use Rattle.mt_scan.specs.{Checks.{Asks, MayCheck}, Goings.Collects};

use mt_operation::{Request, Scan, Seen, Task};
use mt_rows::{ColumnIndexes, Key, StampedRow};
use std::alloc::{AllocError, Global};

/// Keeps the pairs that were seen, up to as many in all as the task asks for, and forgets them as seen;
/// whether there are as many then. An error comes where memory is refused; some pairs are kept then.
pub(crate) fn collect(alloc: Global, task: &Task, scan: &mut Scan) -> Result<bool, AllocError>
    requires { MayCheck task.now scan.old.collected.items }
    ensures { (count : ℕ) (columns : List ℕ) → Asks task.now count columns → IfOk result (Collects count columns scan.old scan.new) }
{
    let Request::Scan { count, columns, .. } = &task.request else {
        unreachable!()
    };
    let count = usize::from(*count);
    let more = scan.seen.len().min(count - scan.collected.len());
    push_seen(alloc, &mut scan.collected, &scan.seen, more, columns)?;
    scan.seen.clear();
    Ok(scan.collected.len() == count)
}

// So many of the pairs that were seen, as they are shown.
fn push_seen(
    alloc: Global,
    collected: &mut Vec<(Key, StampedRow)>,
    seen: &Seen,
    more: usize,
    columns: &ColumnIndexes,
) -> Result<(), AllocError>
    requires within { more ≤ length seen.now }
    requires columns { AreIndexes columns.now }
    ensures { OnOk result (collected.new.items ≡ collected.old.items ++ shown_all columns.now (take more seen.now)) }
{
    for place in 0..more {
        let (key, row) = seen.pair(place);
        push_shown(alloc, collected, key, row, columns)?;
    }
    Ok(())
}

// One pair, as it is shown.
fn push_shown(
    alloc: Global,
    collected: &mut Vec<(Key, StampedRow)>,
    key: &[u8],
    row: &StampedRow,
    columns: &ColumnIndexes,
) -> Result<(), AllocError>
    requires { AreIndexes columns.now }
    ensures { OnOk result (collected.new.items ≡ collected.old.items ++ (key.now, as_shown columns.now row.now) ∷ []) }
{
    let mut bytes = Vec::with_capacity(alloc, key.len())?;
    bytes.extend_from_slice(key)?;
    let row = row.shown(alloc, columns)?;
    collected.push((Key::new(bytes), row))?;
    Ok(())
}
