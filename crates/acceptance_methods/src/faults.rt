//! The texts of the faults of the table of rows.

use intern::{Far, InternFault, InternNew};
use std::test::Fail;

#[test]
fn a_fault_of_the_table_says_what_it_is(rt: HostRuntime) -> Result<(), Fail> {
    let full = format!(in rt.alloc(); "{}", InternFault::Full)?;
    assert!(rt; full.as_str() == "the table of rows is full");
    let refused = format!(in rt.alloc(); "{}", InternFault::Memory)?;
    assert!(rt; refused.as_str() == "out of memory");
    let slots = format!(in rt.alloc(); "{}", InternNew::Slots)?;
    assert!(rt; slots.as_str() == "slots not 1 to 16777216");
    let memory = format!(in rt.alloc(); "{}", InternNew::Memory)?;
    assert!(rt; memory.as_str() == "out of memory");
    let far = format!(in rt.alloc(); "{}", Far)?;
    assert!(rt; far.as_str() == "a word of the row has no place near");
    Ok(())
}
