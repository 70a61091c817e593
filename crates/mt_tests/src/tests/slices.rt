//! Stored keys and their slices and marks, by values worked out by hand.

ghost use Rattle.std.specs.Prelude.{◌≤◌, length};
ghost use Rattle.mt_slices.specs.Fences.{least_from};

use super::*;
use mt_slices::{KeyRefusal, Mark, StoredKey, USER_KEY_BYTES};
use std::cmp::Ordering;

fn key_of(rt: &impl Abort, alloc: Global, tenant: u32, user_key: &[u8]) -> StoredKey {
    StoredKey::new(alloc, tenant, user_key).expect(rt, "a short key")
}

const LONGEST: &[u8] = &[0x61; USER_KEY_BYTES];

// The key has this slice and mark in the layer.
fn is_cut(rt: &impl Abort, key: &StoredKey, layer: usize, slice: u64, mark: Mark) {
    assert!(rt; key.has_layer(layer));
    assert_eq!(rt; (key.slice(layer), key.mark(layer)), (slice, mark));
}

// A user key of tenant 7, a layer, and its slice and mark there.
const CUTS: [(&[u8], usize, u64, Mark); 7] = [
    (b"", 0, 0x0000_0007_0000_0000, Mark::Short(4)),
    (b"pppp", 0, 0x0000_0007_7070_7070, Mark::Short(8)),
    (b"ABCDEFG", 0, 0x0000_0007_4142_4344, Mark::Long),
    (b"ABCDEFG", 1, 0x4546_4700_0000_0000, Mark::Short(3)),
    (b"pppp\xaa\0\0\0\0\0\0\0\0", 1, 0xaa << 56, Mark::Long),
    (LONGEST, 30, 0x6161_6161_6161_6161, Mark::Long),
    (LONGEST, 31, 0x6161_6161_6161_6100, Mark::Short(7)),
];

#[test]
fn keys_are_cut_into_slices_and_marks(rt: HostRuntime) {
    for &(user_key, layer, slice, mark) in &CUTS {
        let key = key_of(&rt, rt.alloc(), 7, user_key);
        is_cut(&rt, &key, layer, slice, mark);
    }
}

// The key of ABCDEFG of tenant 0x01020304 tells its parts.
fn tells_parts(rt: &impl Abort, key: &StoredKey) {
    assert!(rt; key.as_bytes() == b"\x01\x02\x03\x04ABCDEFG".as_slice());
    assert!(rt; key.tenant() == 0x0102_0304 && key.user_key() == b"ABCDEFG".as_slice());
    assert!(rt; key.suffix(0) == b"EFG".as_slice() && !key.has_layer(2));
}

#[test]
fn a_key_gives_back_what_it_was_made_of(rt: HostRuntime) {
    tells_parts(&rt, &key_of(&rt, rt.alloc(), 0x0102_0304, b"ABCDEFG"));
    let refused = StoredKey::new(rt.alloc(), 7, &[0x61; USER_KEY_BYTES + 1]);
    assert!(rt; matches!(refused, Err(KeyRefusal::KeyLong)));
}

// The two keys are in this order.
fn are_in_order(rt: &impl Abort, key: &StoredKey, other: &StoredKey, order: Ordering) {
    assert!(rt; key.cmp(other) == order && (key == other) == (order == Ordering::Equal));
}

// The tenants and user keys of two keys, and their order.
const ORDERS: [((u32, &[u8]), (u32, &[u8]), Ordering); 4] = [
    ((7, b"ABCDEFG"), (7, b"ABCDEFG\0"), Ordering::Less),
    ((7, b"pppp\xaa\0"), (7, b"pppp\xaa"), Ordering::Greater),
    ((7, b"z"), (8, b"a"), Ordering::Less),
    ((7, b"k"), (7, b"k"), Ordering::Equal),
];

#[test]
fn keys_and_marks_are_in_the_order_of_the_bytes(rt: HostRuntime) {
    for &(key, other, order) in &ORDERS {
        let key = key_of(&rt, rt.alloc(), key.0, key.1);
        let other = key_of(&rt, rt.alloc(), other.0, other.1);
        are_in_order(&rt, &key, &other, order);
    }
    assert!(rt; Mark::Short(8).is_before(Mark::Long) && !Mark::Long.is_before(Mark::Short(8)));
}

// The least key behind these bytes, from the slice on; and the one through it, which has more.
fn has_least(rt: &impl Abort, alloc: Global, prefix: &[u8], slice: u64, from: &[u8], more: &[u8])
    requires whole { 4 ≤ length (least_from prefix.now slice) }
    requires within { length (least_from prefix.now slice) ≤ 255 }
    requires few { length prefix.now ≤ 246 }
{
    let key = StoredKey::least_from(alloc, prefix, slice).expect(rt, "memory");
    assert!(rt; key.as_bytes() == from);
    let key = StoredKey::least_through(alloc, prefix, slice).expect(rt, "memory");
    let through = [from, more].as_slice().concat(alloc).expect(rt, "memory");
    assert!(rt; key.as_bytes() == through.as_slice());
}

#[test]
fn a_scan_goes_on_at_the_least_keys(rt: HostRuntime) {
    let (alloc, abcd) = (rt.alloc(), b"\0\0\0\x07abcd");
    has_least(&rt, alloc, b"", 7 << 32, b"\0\0\0\x07", &[0; 5]);
    has_least(&rt, alloc, abcd, 0, b"\0\0\0\x07abcd\0", &[0; 8]);
    has_least(&rt, alloc, abcd, 0x65 << 56, b"\0\0\0\x07abcde", &[0; 8]);
}

// The least key behind all that begin with these bytes.
fn has_behind(rt: &impl Abort, alloc: Global, prefix: &[u8], behind: Option<&[u8]>)
    requires { length prefix.now ≤ 255 }
{
    let key = StoredKey::least_behind(alloc, prefix).expect(rt, "memory");
    assert!(rt; key.as_ref().map(StoredKey::as_bytes) == behind);
}

#[test]
fn a_scan_goes_on_behind_a_tree(rt: HostRuntime) {
    let alloc = rt.alloc();
    has_behind(&rt, alloc, b"\0\0\0\x07abcd", Some(b"\0\0\0\x07abce"));
    has_behind(&rt, alloc, b"\0\0\0\x07ab\xff\xff", Some(b"\0\0\0\x07ac"));
    has_behind(&rt, alloc, b"\0\0\0\x07\xff\xff\xff\xff", None);
}
