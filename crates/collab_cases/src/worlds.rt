use crate::names::names;
use crate::rows::Row;
use crate::steps::{Seen, Step, does, text};
use collab::{World, first_taken};
use std::alloc::{AllocError, Global};
use std::test::Fail;

/// A world over "ab" with the clients "a" and "b".
fn world(alloc: Global) -> Result<Option<World>, AllocError> {
    let text = text(alloc, &['a', 'b'])?;
    let names = names(alloc, &['a', 'b'])?;
    if text.len() > 100 || first_taken(names.as_slice()).is_some() {
        return Ok(None);
    }
    Ok(Some(World::new(alloc, text, names)?))
}

/// Whether what comes of some steps, in order, is what is wanted.
fn go(alloc: Global, steps: &[(Step, Seen)]) -> Result<bool, AllocError> {
    let Some(mut world) = world(alloc)? else {
        return Ok(false);
    };
    for (step, want) in steps {
        if does(alloc, &mut world, *step)? != *want {
            return Ok(false);
        }
    }
    Ok(true)
}

#[test]
fn two_clients_type_at_one_place(rt: HostRuntime) -> Result<(), Fail> {
    let steps = [
        (Step::Local(0, 1, 1, &['x']), Seen::Done),
        (Step::Local(1, 1, 1, &['y']), Seen::Done),
        (Step::Sends(0, &[Row('a', 0, 2, 3)]), Seen::Done),
        (Step::Send(0), Seen::Done),
        (Step::Send(1), Seen::Done),
        (Step::Push(0), Seen::Done),
        (Step::Latest(&['a', 'x', 'b'], 1), Seen::Done),
        (Step::Push(1), Seen::Stale(1)),
        (Step::Push(0), Seen::Stale(1)),
        (Step::Publish(0, 1), Seen::Done),
        (Step::Take(2, 1), Seen::Done),
        (Step::Has(1, 'b', &['a', 'x', 'y', 'b'], 1, 1), Seen::Done),
        (Step::Sends(1, &[Row('b', 0, 3, 4)]), Seen::Done),
        (Step::Send(1), Seen::Done),
        (Step::Push(3), Seen::Done),
        (Step::Latest(&['a', 'x', 'y', 'b'], 2), Seen::Done),
        (
            Step::Slice(0, 2, &[Row('a', 0, 2, 3), Row('b', 0, 3, 4)]),
            Seen::Done,
        ),
        (Step::Slice(1, 2, &[Row('b', 0, 3, 4)]), Seen::Done),
    ];
    assert!(rt; go(rt.alloc(), &steps)?);
    Ok(())
}

#[test]
fn a_message_comes_twice(rt: HostRuntime) -> Result<(), Fail> {
    let steps = [
        (Step::Local(0, 1, 1, &['x']), Seen::Done),
        (Step::Send(0), Seen::Done),
        (Step::Push(0), Seen::Done),
        (Step::Publish(0, 1), Seen::Done),
        (Step::Take(1, 0), Seen::Done),
        (Step::Take(1, 1), Seen::Done),
        (Step::Take(1, 0), Seen::Done),
        (Step::Take(1, 1), Seen::Done),
        (Step::Has(0, 'a', &['a', 'x', 'b'], 1, 1), Seen::Done),
        (Step::Has(1, 'b', &['a', 'x', 'b'], 0, 1), Seen::Done),
        (Step::Sends(0, &[]), Seen::Done),
        (Step::Sends(1, &[]), Seen::Done),
    ];
    assert!(rt; go(rt.alloc(), &steps)?);
    Ok(())
}

#[test]
fn updates_before_those_that_were_lost(rt: HostRuntime) -> Result<(), Fail> {
    let steps = [
        (Step::Local(0, 1, 1, &['x']), Seen::Done),
        (Step::Local(1, 1, 1, &['y']), Seen::Done),
        (Step::Send(0), Seen::Done),
        (Step::Push(0), Seen::Done),
        (Step::Publish(0, 1), Seen::Done),
        (Step::Take(1, 1), Seen::Done),
        (Step::Send(1), Seen::Done),
        (Step::Push(2), Seen::Done),
        (Step::Publish(1, 2), Seen::Done),
        (Step::Take(3, 0), Seen::Ahead(1, 0)),
        (Step::Has(0, 'a', &['a', 'x', 'b'], 1, 0), Seen::Done),
        (Step::Sends(0, &[Row('a', 0, 2, 3)]), Seen::Done),
    ];
    assert!(rt; go(rt.alloc(), &steps)?);
    Ok(())
}

#[test]
fn more_changes_before_the_first_is_confirmed(rt: HostRuntime) -> Result<(), Fail> {
    let steps = [
        (Step::Local(0, 1, 1, &['x']), Seen::Done),
        (Step::Send(0), Seen::Done),
        (Step::Local(0, 0, 0, &['z']), Seen::Done),
        (Step::Push(0), Seen::Done),
        (Step::Publish(0, 1), Seen::Done),
        (Step::Take(1, 0), Seen::Done),
        (Step::Has(0, 'a', &['z', 'a', 'x', 'b'], 2, 1), Seen::Done),
        (Step::Sends(0, &[Row('a', 1, 3, 4)]), Seen::Done),
        (Step::Local(1, 2, 2, &['y']), Seen::Done),
        (Step::Take(1, 1), Seen::Done),
        (Step::Send(1), Seen::Done),
        (Step::Push(2), Seen::Done),
        (Step::Send(0), Seen::Done),
        (Step::Push(3), Seen::Stale(2)),
        (Step::Publish(0, 2), Seen::Done),
        (Step::Take(4, 0), Seen::Done),
        (
            Step::Has(0, 'a', &['z', 'a', 'x', 'b', 'y'], 2, 2),
            Seen::Done,
        ),
        (Step::Latest(&['a', 'x', 'b', 'y'], 2), Seen::Done),
    ];
    assert!(rt; go(rt.alloc(), &steps)?);
    Ok(())
}

#[test]
fn two_changes_over_a_deletion(rt: HostRuntime) -> Result<(), Fail> {
    let steps = [
        (Step::Local(0, 1, 1, &['x']), Seen::Done),
        (Step::Local(0, 3, 3, &['z']), Seen::Done),
        (Step::Local(1, 0, 2, &['y']), Seen::Done),
        (Step::Send(1), Seen::Done),
        (Step::Push(0), Seen::Done),
        (Step::Latest(&['y'], 1), Seen::Done),
        (Step::Publish(0, 1), Seen::Done),
        (Step::Take(1, 0), Seen::Done),
        (Step::Has(0, 'a', &['y', 'x', 'z'], 2, 1), Seen::Done),
        (
            Step::Sends(0, &[Row('a', 0, 1, 2), Row('a', 1, 2, 3)]),
            Seen::Done,
        ),
        (Step::Send(0), Seen::Done),
        (Step::Push(2), Seen::Done),
        (Step::Latest(&['y', 'x', 'z'], 3), Seen::Done),
        (
            Step::Slice(1, 3, &[Row('a', 0, 1, 2), Row('a', 1, 2, 3)]),
            Seen::Done,
        ),
        (Step::Publish(0, 3), Seen::Done),
        (Step::Take(3, 0), Seen::Done),
        (Step::Take(3, 1), Seen::Done),
        (Step::Has(0, 'a', &['y', 'x', 'z'], 2, 3), Seen::Done),
        (Step::Has(1, 'b', &['y', 'x', 'z'], 1, 3), Seen::Done),
    ];
    assert!(rt; go(rt.alloc(), &steps)?);
    Ok(())
}

#[test]
fn changes_that_are_refused(rt: HostRuntime) -> Result<(), Fail> {
    let steps = [
        (Step::Local(0, 9, 9, &['x']), Seen::BadRange(0, 9, 9, 2)),
        (Step::Local(0, 2, 1, &[]), Seen::BadRange(0, 2, 1, 2)),
        (Step::Set(0, 3), Seen::LengthMismatch(2, 3)),
        (Step::Has(0, 'a', &['a', 'b'], 0, 0), Seen::Done),
        (Step::Set(0, 2), Seen::Done),
        (Step::Sends(0, &[Row('a', 0, 2, 2)]), Seen::Done),
    ];
    assert!(rt; go(rt.alloc(), &steps)?);
    Ok(())
}

#[test]
fn texts_that_are_too_long(rt: HostRuntime) -> Result<(), Fail> {
    let steps = [
        (Step::Long(0), Seen::Done),
        (Step::Long(1), Seen::Done),
        (Step::Long(0), Seen::TooLong(16_777_218, 16_777_216)),
        (Step::Send(0), Seen::Done),
        (Step::Push(0), Seen::Done),
        (Step::Publish(0, 1), Seen::Done),
        (Step::Take(1, 1), Seen::TooLong(16_777_218, 16_777_216)),
        (Step::Sends(1, &[Row('b', 0, 2, 8_388_610)]), Seen::Done),
        (Step::Take(1, 0), Seen::Done),
        (Step::Sends(0, &[]), Seen::Done),
    ];
    assert!(rt; go(rt.alloc(), &steps)?);
    Ok(())
}
