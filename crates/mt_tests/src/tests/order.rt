//! Orders of slots: their words, worked out by hand.

use super::*;
use mt_order::Order;

// Makes a slot live at a place, where both are there.
fn insert(rt: &impl Abort, order: &mut Order, place: usize) {
    assert!(rt; order.len() < 15 && place <= order.len());
    order.insert(place);
}

fn remove(rt: &impl Abort, order: &mut Order, place: usize) {
    assert!(rt; place < order.len());
    order.remove(place);
}

#[test]
fn three_in_rising_order_then_one_dropped_then_one_below(rt: HostRuntime) {
    let mut order = Order::new();
    insert(&rt, &mut order, 0);
    insert(&rt, &mut order, 1);
    insert(&rt, &mut order, 2);
    assert_eq!(rt; order.word(), 0xEDCB_A987_6543_2103);
    remove(&rt, &mut order, 1);
    assert_eq!(rt; order.word(), 0xEDCB_A987_6543_1202);
    insert(&rt, &mut order, 0);
    assert_eq!(rt; order.word(), 0xEDCB_A987_6543_2013);
    assert_eq!(rt;
        (order.slot(0), order.place_of(0), order.place_of(3)),
        (1, Some(1), None)
    );
}

#[test]
fn one_then_one_before_it_then_the_greater_dropped(rt: HostRuntime) {
    let mut order = Order::new();
    assert_eq!(rt; order.word(), 0xEDCB_A987_6543_2100);
    insert(&rt, &mut order, 0);
    assert_eq!(rt; order.word(), 0xEDCB_A987_6543_2101);
    insert(&rt, &mut order, 0);
    assert_eq!(rt; order.word(), 0xEDCB_A987_6543_2012);
    remove(&rt, &mut order, 1);
    assert_eq!(rt; order.word(), 0xEDCB_A987_6543_2011);
}
