use cm_plain::Str;
use collab::first_taken;
use std::alloc::{AllocError, Global};
use std::test::Fail;

/// Names of one character each.
pub(crate) fn names(alloc: Global, letters: &[char]) -> Result<Vec<Str>, AllocError> {
    let mut names = Vec::new(alloc);
    for letter in letters {
        names.push(Str::of(alloc, &[*letter])?)?;
    }
    Ok(names)
}

/// The character of the first name that stands earlier too.
fn taken(alloc: Global, letters: &[char]) -> Result<Option<char>, AllocError> {
    let names = names(alloc, letters)?;
    match first_taken(names.as_slice()) {
        Some(name) => Ok(name.chars().first().copied()),
        None => Ok(None),
    }
}

#[test]
fn a_name_that_stands_twice(rt: HostRuntime) -> Result<(), Fail> {
    assert!(rt; taken(rt.alloc(), &['a', 'b', 'c'])?.is_none());
    assert!(rt; taken(rt.alloc(), &['a', 'b', 'c', 'b', 'a'])? == Some('b'));
    Ok(())
}
