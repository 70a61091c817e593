//! The two slots of a store: which one a checkpoint is written in, what it owes, and what both are read as after a failure.

use super::slots::{keys_fit, pairs_of};
use super::*;
use mt_checkpoint::SeenCheckpoint;
use mt_slots::{FaultCause, Slot, SlotFault, StoreSlots};

// Two slots, a call of one of whose disks fails, 0 where none does; and why they were not made.
fn slots_with(
    alloc: Global,
    slot: Slot,
    call: u64,
) -> Result<(StoreSlots<MemDisk>, Option<SlotFault>), AllocError> {
    let failing = MemDisk::new(alloc, [call].to_vec(alloc)?, None);
    let sound = MemDisk::new(alloc, Vec::new(alloc), None);
    let (first, second) = match slot {
        Slot::First => (failing, sound),
        Slot::Second => (sound, failing),
    };
    let mut slots = StoreSlots::found(first, second);
    match slots.create() {
        Ok(()) => Ok((slots, None)),
        Err(fault) => Ok((slots, Some(fault))),
    }
}

// Writes a checkpoint of one pair from one step up to another, in this slot, and tells whether all went well.
fn write_in(
    alloc: Global,
    slots: StoreSlots<MemDisk>,
    steps: (u64, u64),
    slot: Slot,
) -> Result<(StoreSlots<MemDisk>, bool), AllocError> {
    let pairs = pairs_of(alloc, &[(7, 0x6b)], 1)?;
    if !keys_fit(&pairs) || slots.next_slot() != slot {
        return Err(AllocError);
    }
    let begun = match slots.begin(steps.0) {
        Ok(begun) => begun,
        Err((_, slots)) => return Ok((slots, false)),
    };
    let added = match begun.add(alloc, &pairs) {
        Ok(added) => added,
        Err((_, slots)) => return Ok((slots, false)),
    };
    match added.end(alloc, steps.1) {
        Ok((slots, _)) => Ok((slots, true)),
        Err((_, slots)) => Ok((slots, false)),
    }
}

// Whether a look at a slot sees the checkpoint that it was loaded as.
fn is_seen(seen: &Option<SeenCheckpoint>, loaded: Told) -> bool {
    match (seen, loaded) {
        (Some(seen), Told::Walk(first, last, _)) => (seen.first(), seen.last()) == (first, last),
        (None, Told::None) => true,
        _ => false,
    }
}

// What each slot is loaded as, if a look at both sees the same.
fn told_both(
    alloc: Global,
    slots: &mut StoreSlots<MemDisk>,
) -> Result<Option<[Told; 2]>, SlotFault> {
    let seen = slots.look(alloc)?;
    let first = told_of(&Ok(slots.load(alloc, Slot::First)?));
    let second = told_of(&Ok(slots.load(alloc, Slot::Second)?));
    let [of_first, of_second] = &seen;
    let are_seen = is_seen(of_first, first) && is_seen(of_second, second);
    Ok(Some([first, second]).filter(|_| are_seen))
}

// Slots of which each has a checkpoint, the second one the newest.
fn both_written(alloc: Global) -> Result<StoreSlots<MemDisk>, AllocError> {
    let (slots, _) = slots_with(alloc, Slot::First, 0)?;
    let (slots, _) = write_in(alloc, slots, (6, 9), Slot::First)?;
    let (slots, _) = write_in(alloc, slots, (12, 15), Slot::Second)?;
    Ok(slots)
}

const OLD: Told = Told::Walk(6, 9, 1);

const NEW: Told = Told::Walk(12, 15, 1);

// The steps of a checkpoint, the slot in which it is written, and what is told then.
const WRITTEN: [((u64, u64), Slot, [Told; 2]); 3] = [
    ((6, 9), Slot::First, [OLD, Told::None]),
    ((12, 15), Slot::Second, [OLD, NEW]),
    ((20, 22), Slot::First, [Told::Walk(20, 22, 1), NEW]),
];

#[test]
fn each_checkpoint_goes_to_the_other_slot(rt: HostRuntime) -> Result<(), Fail> {
    let alloc = rt.alloc();
    let (mut slots, fault) = slots_with(alloc, Slot::First, 0)?;
    assert!(rt; fault.is_none() && slots.newest().is_none() && slots.owed() == 0);
    assert!(rt; told_both(alloc, &mut slots) == Ok(Some([Told::None; 2])));
    for &(steps, slot, told) in &WRITTEN {
        let (now, whole) = write_in(alloc, slots, steps, slot)?;
        slots = now;
        assert!(rt; whole && slots.newest() == Some(slot));
        assert!(rt; slots.owed() == steps.1);
        assert!(rt; told_both(alloc, &mut slots) == Ok(Some(told)), "{slot:?}");
    }
    Ok(())
}

// A slot that is made makes two calls, and a checkpoint over a closed gate thirteen.
#[test]
fn a_failing_call_leaves_the_newest(rt: HostRuntime) -> Result<(), Fail> {
    let alloc = rt.alloc();
    for call in 3..16 {
        let (slots, fault) = slots_with(alloc, Slot::Second, call)?;
        let (slots, first) = write_in(alloc, slots, (6, 9), Slot::First)?;
        let (mut slots, second) = write_in(alloc, slots, (12, 15), Slot::Second)?;
        assert!(rt; fault.is_none() && first && !second, "{call} failing");
        assert!(rt; slots.newest() == Some(Slot::First), "{call} failing");
        assert!(rt; slots.owed() == 9, "{call} failing");
        let told = told_both(alloc, &mut slots);
        let is_either = told == Ok(Some([OLD, Told::None])) || told == Ok(Some([OLD, NEW]));
        assert!(rt; is_either, "{call} failing");
        let (slots, again) = write_in(alloc, slots, (16, 19), Slot::Second)?;
        let is_newest = slots.newest() == Some(Slot::Second);
        assert!(rt; again && is_newest && slots.owed() == 19, "{call} failing");
    }
    Ok(())
}

// Begins a checkpoint and gives it up; the slot that it was begun in.
fn begin_in_vain(slots: StoreSlots<MemDisk>) -> (StoreSlots<MemDisk>, Option<Slot>) {
    match slots.begin(20) {
        Ok(begun) => {
            let slot = begun.slot();
            (begun.give_up(), Some(slot))
        }
        Err((_, slots)) => (slots, None),
    }
}

// The checkpoint that a store was recovered from is not written over, and owes nothing. One that is given up is lost.
#[test]
fn what_is_kept_is_not_written_over(rt: HostRuntime) -> Result<(), Fail> {
    let alloc = rt.alloc();
    for &(used, slot, told) in &[
        (None, Slot::First, [Told::None, NEW]),
        (Some(Slot::First), Slot::Second, [OLD, Told::None]),
        (Some(Slot::Second), Slot::First, [Told::None, NEW]),
    ] {
        let (first, second) = both_written(alloc)?.into_disks();
        let mut slots = StoreSlots::found(first, second);
        slots.keep(used);
        let (mut slots, begun) = begin_in_vain(slots);
        let next = slots.next_slot();
        assert!(rt; begun == Some(slot) && next == slot, "{used:?}");
        assert!(rt; slots.newest() == used && slots.owed() == 0, "{used:?}");
        assert!(rt; told_both(alloc, &mut slots) == Ok(Some(told)), "{used:?}");
    }
    Ok(())
}

#[test]
fn a_fault_tells_the_slot(rt: HostRuntime) -> Result<(), Fail> {
    let alloc = rt.alloc();
    for (number, slot) in [(0, Some(Slot::First)), (1, Some(Slot::Second)), (2, None)] {
        assert!(rt; Slot::numbered(number) == slot);
    }
    // The first two calls make a slot, the next three look at it, and the next three load it.
    let cause = FaultCause::Device;
    for slot in [Slot::First, Slot::Second] {
        for call in 1..9 {
            let (mut slots, fault) = slots_with(alloc, slot, call)?;
            let read = told_both(alloc, &mut slots).err();
            let told = if call < 3 { fault } else { read };
            assert_eq!(rt; told, Some(SlotFault { slot, cause }));
        }
    }
    Ok(())
}
