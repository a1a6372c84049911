//! What an order file means, and where it is refused.

use std::alloc::Global;
use tk_base::{Feeder, Mon};
use tk_input::{Event, Order, OrderFault};

/// An event's numbers.
#[derive(Clone, Copy, PartialEq)]
enum Numbers {
    Raise(Mon, Feeder),
    Check(Mon),
    Up(Mon),
    Down(Mon),
    Retune(u64, u128),
}

fn numbers_of(event: &Event) -> Numbers {
    match event {
        Event::Raise(mon, feeder) => Numbers::Raise(*mon, *feeder),
        Event::Check(mon) => Numbers::Check(*mon),
        Event::Up(mon) => Numbers::Up(*mon),
        Event::Down(mon) => Numbers::Down(*mon),
        Event::Retune(retuning) => Numbers::Retune(retuning.k(), retuning.epsilon()),
    }
}

/// Whether an order has these events, each with its line.
fn has_events(order: &Order, wanted: &[(Numbers, u32)]) -> bool {
    for (i, (event, line)) in wanted.iter().enumerate() {
        if i >= order.len() || numbers_of(order.at(i)) != *event || order.line(i) != *line {
            return false;
        }
    }
    order.len() == wanted.len()
}

/// Whether these bytes are an order of these events.
fn is_order(alloc: Global, bytes: &[u8], wanted: &[(Numbers, u32)]) -> bool {
    match Order::read(alloc, bytes) {
        Ok(order) => has_events(&order, wanted),
        Err(_) => false,
    }
}

#[test]
fn an_order_is_its_events(rt: HostRuntime) {
    let text = b"raise 1 2\r\n\n\r\ncheck 3\nup 4\ndown 999\nretune 007 40".as_slice();
    let events = [
        (Numbers::Raise(Mon(1), Feeder(2)), 1),
        (Numbers::Check(Mon(3)), 4),
        (Numbers::Up(Mon(4)), 5),
        (Numbers::Down(Mon(999)), 6),
        (Numbers::Retune(7, 40), 7),
    ];
    assert!(rt; is_order(rt.alloc(), text, &events));
    assert!(rt; is_order(rt.alloc(), b"\r\n\n", &[]));
}

/// Why these bytes are no order.
fn fault_of(alloc: Global, bytes: &[u8]) -> Option<OrderFault> {
    Order::read(alloc, bytes).err()
}

/// Whether each of these is refused at its line.
fn are_refused(alloc: Global, cases: &[(&[u8], u32)]) -> bool {
    for (bytes, line) in cases {
        if fault_of(alloc, bytes) != Some(OrderFault::BadOrder(*line)) {
            return false;
        }
    }
    true
}

#[test]
fn an_order_is_refused_at_its_first_bad_line(rt: HostRuntime) {
    const CASES: [(&'static [u8], u32); 23] = [
        (b"raise 1", 1),
        (b"\n\ncheck 1\nraise 1 2 3\nup x\n", 4),
        (b"check  1\n", 1),
        (b"check 1 \n", 1),
        (b" check 1\n", 1),
        (b"up 1\r\r\n", 1),
        (b"up 01\n", 1),
        (b"down 1000\n", 1),
        (b"up 0\n", 1),
        (b"up\n", 1),
        (b"look 1\n", 1),
        (b"up 1\nraise 1\n", 2),
        (b"up 1\ndown 1\r", 2),
        (b"retune 1\n", 1),
        (b"retune 1 2 3\n", 1),
        (b"retune 1 2 \n", 1),
        (b"retune -1 0\n", 1),
        (b"retune 1 +0\n", 1),
        (b"retune 1 x\n", 1),
        (b"retune  0\n", 1),
        (b"retune 1000000000000000000 0", 1),
        (b"retune 1 100000000000000000000000000000000000000", 1),
        (b"up 1\n\nretune 1 2\nretun 1 2\n", 4),
    ];
    assert!(rt; are_refused(rt.alloc(), &CASES));
}

/// A retuning of these numbers, and its copy.
fn twice(alloc: Global, k: u64, epsilon: u128) -> Option<[Numbers; 2]> {
    let event = Event::retune(alloc, k, epsilon).ok()?;
    let copy = event.try_clone().ok()?;
    Some([numbers_of(&event), numbers_of(&copy)])
}

#[test]
fn a_retune_has_18_and_38_digits(rt: HostRuntime) {
    let k = 999_999_999_999_999_999;
    let epsilon = 99_999_999_999_999_999_999_999_999_999_999_999_999;
    let most = Numbers::Retune(k, epsilon);
    let text = b"retune 999999999999999999 99999999999999999999999999999999999999".as_slice();
    assert!(rt; is_order(rt.alloc(), text, &[(most, 1)]));
    assert!(rt; twice(rt.alloc(), k, epsilon) == Some([most, most]));
}

#[test]
fn an_event_has_16_bytes(rt: HostRuntime) {
    assert!(rt; size_of::<Event>() <= 16);
}
