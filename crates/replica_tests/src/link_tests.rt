//! That what one replica sends over a link another applies.

use crate::links::{did_apply, taken};
use crate::shop::{inst, shop};
use effect_model::inst_fits;
use std::test::Fail;

#[test]
fn a_take_over_a_link_applies_what_was_sent(rt: HostRuntime) -> Result<(), Fail> {
    let alloc = rt.alloc();
    let setup = shop(alloc)?;
    let unlock = inst(0, 0);
    assert!(rt; inst_fits(&setup.spec, &unlock));
    let outcome = taken(&rt, alloc, &setup, &unlock)?;
    assert!(rt; did_apply(&outcome, 1));
    Ok(())
}
