use crate::steps::{Seen, long, outcome, text};
use change_set::{Change, ChangeSet, ChangesError, InsertedText};
use cm_plain::Str;
use collab::{Authority, Update};
use line_tree::Text;
use listed::Listed;
use std::alloc::{AllocError, Global};
use std::test::Fail;

/// The changes that put a text in at the start, so many times.
fn insertions(alloc: Global, insert: &Text, times: usize) -> Result<Listed<Change>, AllocError> {
    let mut changes = Listed::empty(alloc);
    for _ in 0..times {
        changes.push(Change::Span {
            from: 0,
            to: 0,
            insert: InsertedText::of(insert.try_copy()?),
        })?;
    }
    Ok(changes)
}

/// The set that puts 8,388,608 characters in at the start of a text of two, so many times.
fn lengthening(alloc: Global, times: usize) -> Result<ChangeSet, AllocError> {
    let changes = insertions(alloc, &long(alloc)?, times)?;
    match ChangeSet::of(alloc, changes.as_slice(), 2, u32::MAX) {
        Ok(set) => Ok(set),
        Err(ChangesError::NoMemory) => Err(AllocError),
        Err(_) => ChangeSet::empty(alloc, 0),
    }
}

/// What comes of a push, to an authority over a text, of a client's first update; none where the update isn't that.
fn pushed(alloc: Global, text: Text, name: &Str, update: Update) -> Result<Seen, AllocError> {
    if update.changes.len() != text.len() || text.len() > 100 {
        return Ok(Seen::Not);
    }
    if update.number != 0 || !update.client.same(name) {
        return Ok(Seen::Not);
    }
    let mut authority = Authority::new(alloc, text)?;
    outcome(authority.push(name, 0, &[update]))
}

/// What comes of the push of an update that makes a text of two characters longer by so many times 8,388,608.
fn lengthened(alloc: Global, times: usize) -> Result<Seen, AllocError> {
    let name = Str::of_text(alloc, "a")?;
    let update = Update {
        client: name.try_copy()?,
        number: 0,
        changes: lengthening(alloc, times)?,
    };
    pushed(alloc, text(alloc, &['a', 'b'])?, &name, update)
}

#[test]
fn a_push_that_is_too_long(rt: HostRuntime) -> Result<(), Fail> {
    assert!(rt; lengthened(rt.alloc(), 1)? == Seen::Done);
    assert!(rt; lengthened(rt.alloc(), 2)? == Seen::TooLong(16_777_218, 16_777_216));
    Ok(())
}
