//! Effects and pairs of operations, of specifications that are read.

use crate::documents::{CLUB, CUP, LATER, WIDE};
use crate::effects::{booking, breaks_at, does};
use crate::pairs::{found_of, kind_of};
use std::test::Fail;

#[test]
fn a_booking_changes_its_slots(rt: HostRuntime) -> Result<(), Fail> {
    let book = booking(0, 1, 2, 4);
    assert!(rt; does(rt.alloc(), &book, 1, &[2, 3, 4], &[(0, -1), (1, 1)])?);
    assert!(rt; breaks_at(rt.alloc(), &book, &[1, 2])?);
    Ok(())
}

#[test]
fn pairs_are_told_apart(rt: HostRuntime) -> Result<(), Fail> {
    assert!(rt; found_of(rt.alloc(), &CUP, 0, 1)? == (1, 0, 3));
    assert!(rt; kind_of(rt.alloc(), &CUP, 0, 1)? == ("violating", 0));
    assert!(rt; kind_of(rt.alloc(), &CUP, 1, 2)? == ("free", 0));
    assert!(rt; kind_of(rt.alloc(), &CLUB, 0, 1)? == ("opposing", 1));
    assert!(rt; kind_of(rt.alloc(), &WIDE, 0, 0)? == ("hard", 217));
    assert!(rt; kind_of(rt.alloc(), &LATER, 0, 0)? == ("violating", 0));
    Ok(())
}
