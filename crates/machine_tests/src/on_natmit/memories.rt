//! A memory that no run reaches.

use crate::on_natmit::cycle::cycle;
use std::test::Fail;
use tree_machine::keeps_search_order;

#[test]
fn a_cycle_keeps_no_order(rt: HostRuntime) -> Result<(), Fail> {
    // Once more where a growth was refused.
    let memory = cycle(rt.alloc()).or_else(|_| cycle(rt.alloc()))?;
    assert!(rt; !keeps_search_order(&memory));
    Ok(())
}
