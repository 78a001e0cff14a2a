//! The texts of the faults of names and contracts.

use contracts::SoundFault;
use names::NameFaults;
use std::test::Fail;

#[test]
fn a_fault_of_names_or_contracts_says_what_it_is(rt: HostRuntime) -> Result<(), Fail> {
    let found = format!(in rt.alloc(); "{}", NameFaults::Found(Vec::new(rt.alloc())))?;
    assert!(rt; found.as_str() == "names or types are wrong");
    let memory = format!(in rt.alloc(); "{}", NameFaults::Memory)?;
    assert!(rt; memory.as_str() == "out of memory");
    let broken = format!(in rt.alloc(); "{}", SoundFault::Found)?;
    assert!(rt; broken.as_str() == "the contract is not sound");
    let refused = format!(in rt.alloc(); "{}", SoundFault::Memory)?;
    assert!(rt; refused.as_str() == "out of memory");
    Ok(())
}
