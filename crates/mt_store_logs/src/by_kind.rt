//! The file of a generation's log, opened by its kind.

ghost use Rattle.std.specs.Prelude.{◌≡◌, ◌≤◌, IfErr, OnOk};
ghost use Rattle.mt_store_logs.specs.Kinds.{IsOpenedAs, NotOpenedAs};

use mt_disk::Disk;
use mt_log_files::{open_disk, open_numbered};
use mt_log_generations::Parity;
use mt_recover::LogSlot;
use mt_rows::Refusal;
use std::alloc::Global;

/// Opens the disk of a generation's log into an empty place. Generation 0 stands in a plain file, any later one in a numbered
/// file. An error closes it. It is `LogCount` if a numbered file has no log.
pub(crate) fn open_generation<D: Disk + Drop>(
    alloc: Global,
    disk: D,
    generation: u64,
    slot: &mut LogSlot<D>,
) -> Result<(), Refusal>
    ensures ok { OnOk result (IsOpenedAs D.is_honest D.state D.failures generation disk slot.new) }
    ensures err { IfErr result (λ e. NotOpenedAs D.is_honest D.state D.failures generation e disk slot.new) }
{
    if generation == 0 {
        open_plain(alloc, disk, generation, slot)
    } else {
        open_later(alloc, disk, generation, slot)
    }
}

// Opens a plain file.
fn open_plain<D: Disk + Drop>(
    alloc: Global,
    disk: D,
    generation: u64,
    slot: &mut LogSlot<D>,
) -> Result<(), Refusal>
    requires { generation ≡ 0 }
    ensures ok { OnOk result (IsOpenedAs D.is_honest D.state D.failures generation disk slot.new) }
    ensures err { IfErr result (λ e. NotOpenedAs D.is_honest D.state D.failures generation e disk slot.new) }
{
    match open_disk(alloc, disk, slot) {
        Ok(_front) => Ok(()),
        Err(refusal) => Err(refusal),
    }
}

// Opens a numbered file, which has to have a log.
fn open_later<D: Disk + Drop>(
    alloc: Global,
    disk: D,
    generation: u64,
    slot: &mut LogSlot<D>,
) -> Result<(), Refusal>
    requires { 1 ≤ generation }
    ensures ok { OnOk result (IsOpenedAs D.is_honest D.state D.failures generation disk slot.new) }
    ensures err { IfErr result (λ e. NotOpenedAs D.is_honest D.state D.failures generation e disk slot.new) }
{
    *slot = LogSlot::Closed(disk);
    match open_numbered(alloc, slot, Parity::of(generation)) {
        Ok(Some(_front)) => Ok(()),
        Ok(None) => Err(Refusal::LogCount),
        Err(refusal) => Err(refusal),
    }
}
