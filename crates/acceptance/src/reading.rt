//! Reading from a device, and writing to one, some bytes at a time.

use crate::failing_devices::{Page, Text};
use devices::{Input, read_text, read_up_to, write_all};
use std::test::Fail;

/// The number of a call that never comes.
const NEVER: u64 = 0;

#[test]
fn a_text_is_read_to_its_end(rt: HostRuntime) -> Result<(), Fail> {
    let mut reader = Text::new(rt.alloc(), "class K { }", 3, NEVER)?;
    let text = read_text(rt.alloc(), &mut reader)?;
    assert!(rt; text.as_slice() == b"class K { }".as_slice());
    Ok(())
}

#[test]
fn no_more_is_read_than_is_asked_for(rt: HostRuntime) -> Result<(), Fail> {
    let mut reader = Text::new(rt.alloc(), "0 0\n0 1\n", 3, NEVER)?;
    let bytes = read_up_to(rt.alloc(), &mut reader, 5, Input::Schedule)?;
    assert!(rt; bytes.as_slice() == b"0 0\n0".as_slice());
    Ok(())
}

#[test]
fn all_bytes_are_written(rt: HostRuntime) -> Result<(), Fail> {
    let mut page = Page::new(rt.alloc(), 4, NEVER);
    write_all(b"ok: 1 contracts\n".as_slice(), &mut page)?;
    assert!(rt; page.bytes.as_slice() == b"ok: 1 contracts\n".as_slice());
    Ok(())
}
