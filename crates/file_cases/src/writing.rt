//! The bytes that a save writes.
use crate::made::{saved_length, saves_as};
use std::test::Fail;

#[test]
fn breaks_are_saved_as_the_separator(rt: HostRuntime) -> Result<(), Fail> {
    let text = ['x', '\n', 'y'];
    assert!(rt; saves_as(rt.alloc(), &text, &['\n'], b"x\ny")?);
    assert!(rt; saves_as(rt.alloc(), &text, &['\r', '\n'], b"x\r\ny")?);
    assert!(rt; saves_as(rt.alloc(), &text, &['\r'], b"x\ry")?);
    Ok(())
}

#[test]
fn other_separators_are_written_as_they_are(rt: HostRuntime) -> Result<(), Fail> {
    assert!(rt; saves_as(rt.alloc(), &['\n', 'a', '\n'], &['漢'], "漢a漢".as_bytes())?);
    assert!(rt; saves_as(rt.alloc(), &['a', '\n', 'b'], &[], b"ab")?);
    assert!(rt; saves_as(rt.alloc(), &[], &['\r', '\n'], b"")?);
    Ok(())
}

#[test]
fn a_text_of_several_blocks_is_saved_whole(rt: HostRuntime) -> Result<(), Fail> {
    assert!(rt; saved_length(rt.alloc(), &['\n'; 10_000], &['\r', '\n'])? == 20_000);
    assert!(rt; saved_length(rt.alloc(), &['漢'; 4_097], &['\n'])? == 12_291);
    Ok(())
}
