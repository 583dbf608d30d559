use crate::made::{Made, Of, are, is};
use crate::views::{Read, deps_of};
use shipped_rules::{compute, compute_list, create};
use std::alloc::Global;
use std::test::*;

fn computes(alloc: Global, number: u32, of: Read<'_>, want: Made<'_>) -> Result<bool, Fail> {
    let deps = deps_of(alloc, of)?;
    is(alloc, &compute(alloc, number, &deps)?, want)
}

#[test]
fn computers_of_documents_answer_by_number(rt: HostRuntime) -> Result<(), Fail> {
    for (number, of, want) in &[
        (1, Read::Document("ab\nc"), 4),
        (1, Read::Values(&[]), 0),
        (2, Read::Document("ab\nc\n"), 3),
        (2, Read::Values(&[]), 0),
        (3, Read::Cursor("abc", 2), 2),
        (3, Read::Document("abc"), 0),
    ] {
        assert!(rt;
            computes(rt.alloc(), *number, *of, Made::Int(*want))?,
            "at {number}"
        );
    }
    Ok(())
}

fn computes_of(
    alloc: Global,
    number: u32,
    values: &[Option<Made<'_>>],
    want: Made<'_>,
) -> Result<bool, Fail> {
    computes(alloc, number, Read::Values(values), want)
}

#[test]
fn computers_of_values_answer_by_number(rt: HostRuntime) -> Result<(), Fail> {
    let text = [Some(Made::Text("a")), None];
    assert!(rt; computes_of(rt.alloc(), 4, &text, Made::Text("a"))?);
    let numbers = [None, Some(Made::Int(2)), Some(Made::Int(3))];
    assert!(rt; computes_of(rt.alloc(), 4, &numbers, Made::Unit)?);
    assert!(rt; computes_of(rt.alloc(), 5, &numbers, Made::Int(5))?);
    assert!(rt; computes_of(rt.alloc(), 6, &numbers, Made::Ranges(&[]))?);
    Ok(())
}

#[test]
fn computers_of_a_set_answer_by_number(rt: HostRuntime) -> Result<(), Fail> {
    let set = [Some(Made::Ranges(&[(0, 1)]))];
    assert!(rt; computes_of(rt.alloc(), 4, &set, Made::Unit)?);
    assert!(rt; computes_of(rt.alloc(), 6, &set, Made::Ranges(&[(0, 1)]))?);
    Ok(())
}

fn lists(alloc: Global, number: u32, of: Read<'_>, want: Of<'_>) -> Result<bool, Fail> {
    let deps = deps_of(alloc, of)?;
    are(alloc, compute_list(alloc, number, &deps)?.as_slice(), want)
}

#[test]
fn lines_are_measured(rt: HostRuntime) -> Result<(), Fail> {
    let lengths = Of(&[Made::Int(2), Made::Int(0), Made::Int(1)]);
    assert!(rt; lists(rt.alloc(), 1, Read::Document("ab\n\nc"), lengths)?);
    assert!(rt; lists(rt.alloc(), 1, Read::Document(""), Of(&[Made::Int(0)]))?);
    assert!(rt; lists(rt.alloc(), 1, Read::Values(&[]), Of(&[]))?);
    Ok(())
}

#[test]
fn the_items_of_a_list_are_inputs(rt: HostRuntime) -> Result<(), Fail> {
    let list = [Some(Made::Ints(&[3, 4]))];
    let items = Of(&[Made::Int(3), Made::Int(4)]);
    assert!(rt; lists(rt.alloc(), 2, Read::Values(&list), items)?);
    assert!(rt; lists(rt.alloc(), 2, Read::Values(&[Some(Made::Int(3))]), Of(&[]))?);
    Ok(())
}

fn creates(alloc: Global, number: u32, of: Read<'_>, want: Made<'_>) -> Result<bool, Fail> {
    let deps = deps_of(alloc, of)?;
    is(alloc, &create(alloc, number, &deps)?, want)
}

#[test]
fn creators_that_read_nothing_answer(rt: HostRuntime) -> Result<(), Fail> {
    for (number, want) in &[
        (1, Made::Unit),
        (2, Made::Int(0)),
        (3, Made::Int(0)),
        (4, Made::Ints(&[])),
        (5, Made::Ranges(&[])),
        (6, Made::History),
        (7, Made::Unit),
    ] {
        assert!(rt;
            creates(rt.alloc(), *number, Read::Values(&[]), *want)?,
            "at {number}"
        );
    }
    Ok(())
}

#[test]
fn creators_that_read_answer(rt: HostRuntime) -> Result<(), Fail> {
    assert!(rt; creates(rt.alloc(), 3, Read::Document("abc"), Made::Int(3))?);
    let number = [Some(Made::Int(5))];
    assert!(rt; creates(rt.alloc(), 7, Read::Values(&number), Made::Int(5))?);
    assert!(rt; creates(rt.alloc(), 7, Read::Values(&[None]), Made::Unit)?);
    Ok(())
}
