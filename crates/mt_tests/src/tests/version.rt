//! Versions of nodes: the words, bit by bit, and how two versions compare.

use mt_version::Version;

// The words are worked out by hand from the layout, one bit of each flag and one of each counter.
#[test]
fn each_change_of_a_version_leaves_its_word(rt: HostRuntime) {
    let fresh = Version::root_border();
    let inserted = fresh.locked().marked_inserting().unlocked();
    let split = inserted.locked().marked_splitting();
    for (version, word) in [
        (Version::child_interior().made_root(), 0x10),
        (fresh.made_child().deleted(), 0x28),
        (inserted, 0x130),
        (split, 0x135),
        (split.unlocked(), 0x10_0000_0000_0000_0130),
    ] {
        assert_eq!(rt; version.word(), word);
    }
}

#[test]
fn a_version_tells_its_flags_and_its_age(rt: HostRuntime) {
    let child = Version::child_border();
    let locked = child.locked();
    let marked = child.marked_inserting();
    let split = locked.marked_splitting().unlocked();
    assert!(rt; child.is_border() && child.is_stable() && !child.is_deleted());
    assert!(rt; Version::root_interior().is_root());
    assert!(rt; locked.is_locked() && locked.same_but_lock(child));
    assert!(rt; marked.is_inserting() && !marked.is_splitting() && !marked.is_stable());
    assert!(rt; split.is_later(child) && !child.is_later(split) && !split.same_but_lock(child));
    assert_eq!(rt; (split.inserts(), split.splits()), (0, 1));
}
