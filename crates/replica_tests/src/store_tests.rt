//! What a store says of concurrent acts, and that a copy says the same.

use crate::shop::{inst, shop};
use crate::stores::{copy, cut, empty, is_open, put, stock_of};
use effect_model::inst_fits;
use std::test::Fail;

#[test]
fn a_copy_says_the_same(rt: HostRuntime) -> Result<(), Fail> {
    let alloc = rt.alloc();
    let setup = shop(alloc)?;
    let spec = &setup.spec;
    let unlock = inst(0, 0);
    let sell = inst(2, 0);
    let close = inst(3, 0);
    assert!(rt; inst_fits(spec, &unlock));
    assert!(rt; inst_fits(spec, &sell));
    assert!(rt; inst_fits(spec, &close));
    let mut store = empty(alloc, spec)?;
    put(spec, &mut store, 0, cut(0, 0), &unlock)?;
    put(spec, &mut store, 1, cut(0, 0), &close)?;
    put(spec, &mut store, 1, cut(0, 1), &sell)?;
    let copied = copy(alloc, spec, &store)?;
    assert!(rt; copied.cut() == cut(1, 2));
    // Of an opening and a closing that didn't know of one another the opening wins.
    assert!(rt; is_open(spec, &store, 0) && !is_open(spec, &store, 1));
    assert!(rt; is_open(spec, &copied, 0) && !is_open(spec, &copied, 1));
    assert_eq!(rt; stock_of(spec, &store, 0), Some(0));
    assert_eq!(rt; stock_of(spec, &copied, 0), Some(0));
    assert_eq!(rt; stock_of(spec, &copied, 1), Some(1));
    // A closing that knew of it does; and what the one applies is none of the other's.
    put(spec, &mut store, 1, cut(1, 2), &close)?;
    assert!(rt; !is_open(spec, &store, 0));
    assert!(rt; is_open(spec, &copied, 0));
    Ok(())
}
