use crate::made::{Made, Of, all_made, is, value_of};
use shipped_rules::{combine, compare};
use std::alloc::Global;
use std::test::*;

fn combines(alloc: Global, number: u32, inputs: Of<'_>, want: Made<'_>) -> Result<bool, Fail> {
    let inputs = all_made(alloc, inputs)?;
    is(alloc, &combine(alloc, number, inputs.as_slice())?, want)
}

#[test]
fn combiners_answer_by_number(rt: HostRuntime) -> Result<(), Fail> {
    for (number, inputs, want) in &[
        (1, Of(&[Made::Int(1), Made::Int(2)]), Made::Ints(&[1, 2])),
        (2, Of(&[Made::Text("a"), Made::Int(1)]), Made::Text("a")),
        (2, Of(&[]), Made::Unit),
        (
            3,
            Of(&[Made::Bool(false), Made::Bool(true)]),
            Made::Bool(true),
        ),
        (3, Of(&[]), Made::Bool(false)),
        (4, Of(&[Made::Int(-3), Made::Int(-2)]), Made::Int(-2)),
        (4, Of(&[]), Made::Int(0)),
        (5, Of(&[Made::Int(2), Made::Int(3)]), Made::Int(5)),
        (
            5,
            Of(&[Made::Int(i64::MAX), Made::Int(1)]),
            Made::Int(i64::MAX),
        ),
        (
            6,
            Of(&[Made::Ranges(&[(0, 1)]), Made::Ranges(&[(2, 3)])]),
            Made::Layers(&[(0, 1), (2, 3)]),
        ),
        (5, Of(&[]), Made::Int(0)),
        (7, Of(&[]), Made::Int(4)),
        (7, Of(&[Made::Int(8), Made::Int(2)]), Made::Int(8)),
        (
            8,
            Of(&[Made::Text("\r"), Made::Text("\n")]),
            Made::Text("\r"),
        ),
        (8, Of(&[]), Made::Unit),
        (9, Of(&[Made::Int(3)]), Made::Ints(&[3])),
        (10, Of(&[Made::Int(4)]), Made::Ints(&[4])),
        (11, Of(&[]), Made::Ints(&[])),
        (12, Of(&[]), Made::Ints(&[100, 500])),
        (
            12,
            Of(&[
                Made::Ints(&[200, 400]),
                Made::Ints(&[900]),
                Made::Ints(&[50, 300]),
            ]),
            Made::Ints(&[200, 300]),
        ),
        (13, Of(&[]), Made::Bool(false)),
        (
            13,
            Of(&[Made::Bool(true), Made::Bool(false)]),
            Made::Bool(true),
        ),
    ] {
        assert!(rt;
            combines(rt.alloc(), *number, *inputs, *want)?,
            "at {number}"
        );
    }
    Ok(())
}

fn compares(alloc: Global, number: u32, old: Made<'_>, new: Made<'_>) -> Result<bool, Fail> {
    let old = value_of(alloc, old)?;
    let new = value_of(alloc, new)?;
    Ok(compare(number, &old, &new))
}

#[test]
fn comparers_answer_by_number(rt: HostRuntime) -> Result<(), Fail> {
    for (number, old, new, wanted) in &[
        (1, Made::Ints(&[1]), Made::Ints(&[1]), true),
        (1, Made::Int(1), Made::Int(2), false),
        (2, Made::Int(1), Made::Int(1), false),
        (3, Made::Int(1), Made::Int(1), true),
        (3, Made::Int(1), Made::Int(2), false),
        (3, Made::Ints(&[1]), Made::Ints(&[1]), false),
        (3, Made::Ranges(&[]), Made::Ranges(&[]), false),
    ] {
        assert!(rt;
            compares(rt.alloc(), *number, *old, *new)? == *wanted,
            "at {number}"
        );
    }
    Ok(())
}
