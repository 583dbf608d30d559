//! Each call that takes memory, once.
use crate::made::{is, replaced, taken, text};
use line_tree::{MAX_LEN, Text, TextBuilder, TextCursor};
use std::alloc::{AllocError, Global};
use std::test::Fail;

fn replaces(alloc: Global, from: u32, to: u32, want: &[char]) -> Result<bool, AllocError> {
    let old = text(alloc, &['a', '\n', 'b'])?;
    let inserted = text(alloc, &['x', '\n', 'y'])?;
    is(&replaced(&old, from, to, &inserted)?, want)
}

#[test]
fn characters_are_replaced(rt: HostRuntime) -> Result<(), Fail> {
    assert!(rt; replaces(rt.alloc(), 1, 2, &['a', 'x', '\n', 'y', 'b'])?);
    assert!(rt; replaces(rt.alloc(), 0, 3, &['x', '\n', 'y'])?);
    assert!(rt; replaces(rt.alloc(), 3, 3, &['a', '\n', 'b', 'x', '\n', 'y'])?);
    Ok(())
}

fn appends(alloc: Global) -> Result<bool, AllocError> {
    let first = text(alloc, &['a', '\n'])?;
    let second = text(alloc, &['b', '\n'])?;
    if first.len() > MAX_LEN || second.len() > MAX_LEN {
        return Ok(false);
    }
    is(&first.append(&second)?, &['a', '\n', 'b', '\n'])
}

fn slices(alloc: Global) -> Result<bool, AllocError> {
    let whole = text(alloc, &['a', '\n', 'b', 'c'])?;
    is(&taken(&whole, 1, 3)?, &['\n', 'b'])
}

fn copies(alloc: Global) -> Result<bool, AllocError> {
    let first = text(alloc, &['a', '\n', 'b'])?;
    let copy = first.try_copy()?;
    Ok(copy.same(&first))
}

fn differs(alloc: Global) -> Result<bool, AllocError> {
    let first = text(alloc, &['a', '\n', 'b'])?;
    let other = text(alloc, &['a', '\n', 'c'])?;
    Ok(!first.same(&other))
}

fn tells(alloc: Global) -> Result<bool, AllocError> {
    let given = text(alloc, &['a', '\r', '漢'])?;
    let string = given.text()?;
    Ok(string.as_str() == "a\n漢")
}

#[test]
fn texts_are_joined_cut_and_copied(rt: HostRuntime) -> Result<(), Fail> {
    assert!(rt; appends(rt.alloc())?);
    assert!(rt; slices(rt.alloc())?);
    assert!(rt; copies(rt.alloc())?);
    Ok(())
}

#[test]
fn texts_are_compared_and_told(rt: HostRuntime) -> Result<(), Fail> {
    assert!(rt; differs(rt.alloc())?);
    assert!(rt; tells(rt.alloc())?);
    Ok(())
}

fn put(builder: &mut TextBuilder, given: &Text) -> Result<(), AllocError> {
    if builder.len() > MAX_LEN || given.len() > MAX_LEN {
        return Ok(());
    }
    builder.push_text(given)
}

fn put_all(builder: &mut TextBuilder, given: &[char]) -> Result<(), AllocError> {
    if builder.len() > MAX_LEN || given.len() > MAX_LEN as usize {
        return Ok(());
    }
    builder.push_all(given)
}

fn put_one(builder: &mut TextBuilder, given: char) -> Result<(), AllocError> {
    if builder.len() > MAX_LEN {
        return Ok(());
    }
    builder.push(given)
}

fn built(alloc: Global) -> Result<Text, AllocError> {
    let given = text(alloc, &['c', '\n', 'd'])?;
    let mut builder = TextBuilder::new(alloc);
    put_one(&mut builder, 'a')?;
    put_all(&mut builder, &['b', '\n'])?;
    put(&mut builder, &given)?;
    builder.finish()
}

/// What a builder with so much room makes of two characters.
fn built_with_room(alloc: Global, capacity: u32) -> Result<Text, AllocError> {
    let mut builder = TextBuilder::with_capacity(alloc, capacity)?;
    put_all(&mut builder, &['a', 'b'])?;
    builder.finish()
}

#[test]
fn texts_are_built(rt: HostRuntime) -> Result<(), Fail> {
    let text = built(rt.alloc())?;
    assert!(rt; is(&text, &['a', 'b', '\n', 'c', '\n', 'd'])?);
    for capacity in &[0, 2, 3_000] {
        assert!(rt; is(&built_with_room(rt.alloc(), *capacity)?, &['a', 'b'])?);
    }
    Ok(())
}

fn copy_on(
    cursor: &mut TextCursor,
    count: u32,
    builder: &mut TextBuilder,
) -> Result<(), AllocError> {
    if count > cursor.len() || count > MAX_LEN || builder.len() > MAX_LEN {
        return Ok(());
    }
    cursor.copy_to(count, builder)
}

/// The characters of a text without those from one place to another.
fn without(given: &Text, alloc: Global, from: u32, to: u32) -> Result<Text, AllocError> {
    let mut builder = TextBuilder::new(alloc);
    let mut cursor = TextCursor::new(given);
    copy_on(&mut cursor, from, &mut builder)?;
    if from <= to && to - from <= cursor.len() {
        cursor.skip(to - from);
    }
    let left = cursor.len();
    copy_on(&mut cursor, left, &mut builder)?;
    builder.finish()
}

fn drops(alloc: Global) -> Result<bool, AllocError> {
    let given = text(alloc, &['a', 'b', '\n', 'c', 'd'])?;
    is(&without(&given, alloc, 1, 4)?, &['a', 'd'])
}

/// Whether the characters of a text of many lines stay as they are where a copy is put together of its parts.
fn keeps(alloc: Global) -> Result<bool, AllocError> {
    let given = text(alloc, &['\n'; 4096])?;
    Ok(without(&given, alloc, 2000, 2000)?.same(&given))
}

#[test]
fn cursors_copy_and_skip(rt: HostRuntime) -> Result<(), Fail> {
    assert!(rt; drops(rt.alloc())?);
    assert!(rt; keeps(rt.alloc())?);
    Ok(())
}

/// After so many characters of a text the next ones, or as many as are left.
fn next_after(given: &Text, skipped: u32, count: u32) -> Result<Text, AllocError> {
    let mut cursor = TextCursor::new(given);
    let len = cursor.len();
    cursor.skip(skipped.min(len));
    let left = cursor.len();
    cursor.next_text(count.min(left))
}

fn next_are(alloc: Global, skipped: u32, count: u32, want: &[char]) -> Result<bool, AllocError> {
    let given = text(alloc, &['a', 'b', '\n', 'c', 'd'])?;
    is(&next_after(&given, skipped, count)?, want)
}

#[test]
fn cursors_give_texts(rt: HostRuntime) -> Result<(), Fail> {
    assert!(rt; next_are(rt.alloc(), 0, 5, &['a', 'b', '\n', 'c', 'd'])?);
    assert!(rt; next_are(rt.alloc(), 0, 3, &['a', 'b', '\n'])?);
    assert!(rt; next_are(rt.alloc(), 1, 4, &['b', '\n', 'c', 'd'])?);
    Ok(())
}

/// After so many characters of a text the next ones as a string, or as many as are left.
fn string_after(given: &Text, skipped: u32, count: u32) -> Result<String, AllocError> {
    let mut cursor = TextCursor::new(given);
    let len = cursor.len();
    cursor.skip(skipped.min(len));
    let left = cursor.len();
    cursor.next_string(count.min(left))
}

fn next_read(alloc: Global, skipped: u32, count: u32, want: &str) -> Result<bool, AllocError> {
    let given = text(alloc, &['a', 'é', '\n', '漢', '😀'])?;
    let string = string_after(&given, skipped, count)?;
    Ok(string.as_str() == want)
}

/// Whether the characters of several leaves are read at once, from the midst of one to that of another.
fn leaves_are_read(alloc: Global) -> Result<bool, AllocError> {
    let given = text(alloc, &['漢', '\n'].repeat(alloc, 200)?)?;
    let string = string_after(&given, 21, 300)?;
    let want = "\n漢".repeat(alloc, 150)?;
    Ok(string.as_str() == want.as_str())
}

#[test]
fn cursors_give_strings(rt: HostRuntime) -> Result<(), Fail> {
    assert!(rt; next_read(rt.alloc(), 0, 5, "aé\n漢😀")?);
    assert!(rt; next_read(rt.alloc(), 1, 3, "é\n漢")?);
    assert!(rt; next_read(rt.alloc(), 5, 0, "")?);
    assert!(rt; leaves_are_read(rt.alloc())?);
    Ok(())
}
