//! The text that a file's bytes hold.
use crate::made::{fault, read_length, reads_as};
use file_text::FileError;
use std::test::Fail;

#[test]
fn line_ends_are_cut(rt: HostRuntime) -> Result<(), Fail> {
    assert!(rt; reads_as(rt.alloc(), b"x\r\ny", &['x', '\n', 'y'])?);
    assert!(rt; reads_as(rt.alloc(), b"\rx\n\r\n\r", &['\n', 'x', '\n', '\n', '\n'])?);
    assert!(rt; reads_as(rt.alloc(), "a漢".as_bytes(), &['a', '漢'])?);
    Ok(())
}

#[test]
fn a_file_without_bytes_has_the_empty_text(rt: HostRuntime) -> Result<(), Fail> {
    assert!(rt; reads_as(rt.alloc(), b"", &[])?);
    Ok(())
}

#[test]
fn bytes_that_are_no_characters_are_refused(rt: HostRuntime) -> Result<(), Fail> {
    assert!(rt; fault(rt.alloc(), &[0xff]) == Some(FileError::NotUtf8));
    assert!(rt; fault(rt.alloc(), &[b'a', 0xe6, 0xbc]) == Some(FileError::NotUtf8));
    assert!(rt; fault(rt.alloc(), b"a") == None);
    Ok(())
}

#[test]
fn a_long_file_is_read_whole(rt: HostRuntime) -> Result<(), Fail> {
    assert!(rt; read_length(rt.alloc(), 100_000)? == 100_000);
    Ok(())
}
