//! A lease is granted, recalled, waits until its page's change is durable, goes, and is granted anew.
use lease_desk::{Desk, Lease};
use std::test::Fail;
use tm_base::{Mem, Page, Stamp};

/// What happens to the page, with epochs and stamps.
enum Deed {
    Granted(u32, u64),
    Recalled(u32),
    Changed(u64),
    Released,
    Acknowledged(u32),
}

// Whether it was taken: a grant may come too late.
fn happens(desk: &mut Desk, page: Page, deed: Deed) -> Mem<bool> {
    match deed {
        Deed::Granted(epoch, stamp) => return desk.on_grant(page, epoch, Stamp(stamp)),
        Deed::Recalled(epoch) => desk.on_recall(page, epoch),
        Deed::Changed(stamp) => desk.changed(page, Stamp(stamp)),
        Deed::Released => desk.releasing(page),
        Deed::Acknowledged(epoch) => desk.on_released(page, epoch),
    }
    Ok(true)
}

// What happens, whether it is taken, and the lease after it.
fn row(number: u32) -> (Deed, bool, Lease) {
    match number {
        0 => (Deed::Granted(1, 3), true, Lease::Held),
        1 => (Deed::Changed(5), true, Lease::Held),
        2 => (Deed::Recalled(2), true, Lease::Held),
        3 => (Deed::Recalled(1), true, Lease::Recalled),
        4 => (Deed::Released, true, Lease::Releasing),
        5 => (Deed::Acknowledged(2), true, Lease::Releasing),
        6 => (Deed::Acknowledged(1), true, Lease::None),
        7 => (Deed::Granted(1, 3), false, Lease::None),
        _ => (Deed::Granted(2, 9), true, Lease::Held),
    }
}

#[test]
fn a_lease_comes_and_goes(rt: HostRuntime) -> Result<(), Fail> {
    let mut desk = Desk::new(rt.alloc());
    for number in 0..9 {
        let (deed, taken, state) = row(number);
        if happens(&mut desk, Page(1), deed) != Ok(taken) || desk.state(Page(1)) != state {
            return Err(Fail::from("another lease"));
        }
    }
    assert_eq!(rt; desk.stamp(Page(1)), Stamp(9));
    Ok(())
}
