//! Rings of packets.

use port::{Arrival, ArrivalKind, RingEnd, ring};
use std::test::Fail;
use tspkt::{Stamped, null};

fn stamped(stamp: u64) -> Stamped {
    Stamped {
        packet: null(),
        stamp,
    }
}

fn stamp_of(arrival: Option<Arrival>) -> Option<u64> {
    match arrival {
        Some(Arrival::Packet(item)) => Some(item.stamp),
        _ => None,
    }
}

fn lent_stamp(end: &mut RingEnd) -> Option<u64> {
    match end.advance() {
        Some(ArrivalKind::Packet) => Some(end.last().stamp),
        _ => None,
    }
}

fn shown_stamp(end: &mut RingEnd) -> Option<u64> {
    let _ = end.peek();
    if end.is_showing() {
        Some(end.head().stamp)
    } else {
        None
    }
}

#[test]
fn what_is_offered_comes_out_in_order_and_the_rest_is_left(rt: HostRuntime) -> Result<(), Fail> {
    let (mut port, mut end) = ring(rt.alloc(), 0, 2)?;
    assert!(rt; end.next().is_none());
    assert!(rt; port.offer(stamped(1)).is_ok());
    assert!(rt; port.offer(stamped(2)).is_ok());
    let refused = port.offer(stamped(5));
    assert!(rt; matches!(&refused, Err(back) if back.stamp == 5));
    assert_eq!(rt; stamp_of(end.next()), Some(1));
    let Ok(mut finished) = port.end() else {
        return Ok(assert!(rt; false));
    };
    assert_eq!(rt; end.left(&mut finished), 1);
    assert_eq!(rt; stamp_of(end.next()), Some(2));
    assert!(rt; matches!(end.next(), Some(Arrival::End)));
    assert!(rt; end.is_ended());
    assert!(rt; end.next().is_none());
    assert_eq!(rt; end.left(&mut finished), 0);
    Ok(())
}

#[test]
fn a_full_ring_hands_the_port_back_and_a_port_may_finish_unmarked(
    rt: HostRuntime,
) -> Result<(), Fail> {
    let (mut port, mut end) = ring(rt.alloc(), 0, 1)?;
    assert!(rt; port.offer(stamped(7)).is_ok());
    let Err(port) = port.end() else {
        return Ok(assert!(rt; false));
    };
    let mut finished = port.finish();
    assert_eq!(rt; end.left(&mut finished), 1);
    assert_eq!(rt; stamp_of(end.next()), Some(7));
    assert!(rt; end.next().is_none());
    assert!(rt; !end.is_ended());
    assert_eq!(rt; end.left(&mut finished), 0);
    Ok(())
}

#[test]
fn more_than_comes_out_at_once_comes_out_in_order(rt: HostRuntime) -> Result<(), Fail> {
    let (mut port, mut end) = ring(rt.alloc(), 0, 40)?;
    for stamp in 0..40 {
        assert!(rt; port.offer(stamped(stamp)).is_ok());
    }
    for stamp in 0..40 {
        assert_eq!(rt; stamp_of(end.next()), Some(stamp));
    }
    assert!(rt; end.next().is_none());
    Ok(())
}

#[test]
fn what_is_sent_is_lent_in_order_beside_what_comes_by_value(rt: HostRuntime) -> Result<(), Fail> {
    let (mut port, mut end) = ring(rt.alloc(), 0, 40)?;
    for stamp in 0..40 {
        assert!(rt; port.send(&stamped(stamp)));
    }
    assert!(rt; !port.send(&stamped(40)));
    for pair in 0..20 {
        assert_eq!(rt; lent_stamp(&mut end), Some(2 * pair));
        assert_eq!(rt; stamp_of(end.next()), Some(2 * pair + 1));
    }
    assert!(rt; end.advance().is_none());
    assert!(rt; port.end().is_ok());
    assert_eq!(rt; end.advance(), Some(ArrivalKind::End));
    assert!(rt; end.is_ended());
    assert!(rt; end.advance().is_none());
    Ok(())
}

#[test]
fn what_is_shown_is_shown_until_it_is_released(rt: HostRuntime) -> Result<(), Fail> {
    let (mut port, mut end) = ring(rt.alloc(), 0, 3)?;
    assert!(rt; end.peek().is_none());
    assert!(rt; port.send(&stamped(1)));
    assert!(rt; port.send(&stamped(2)));
    assert!(rt; port.end().is_ok());
    assert_eq!(rt; shown_stamp(&mut end), Some(1));
    assert_eq!(rt; shown_stamp(&mut end), Some(1));
    end.release();
    assert!(rt; !end.is_showing());
    assert_eq!(rt; shown_stamp(&mut end), Some(2));
    end.release();
    assert_eq!(rt; end.peek(), Some(ArrivalKind::End));
    assert!(rt; end.is_ended());
    assert_eq!(rt; shown_stamp(&mut end), None);
    Ok(())
}
