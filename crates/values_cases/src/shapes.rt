use crate::made::{Made, is, value_of};
use cm_plain::Shape;
use std::alloc::{AllocError, Global};
use std::test::*;
use values::Val;

/// A shape as the cases write it.
#[derive(Clone, Copy)]
enum Form {
    Any,
    Bool,
    Int(i64, i64),
    Text,
    Ints,
    Ranges,
    Layers,
    History,
}

fn shape(alloc: Global, form: Form) -> Result<Shape, AllocError> {
    match form {
        Form::Any => Ok(Shape::Any),
        Form::Bool => Ok(Shape::Bool),
        Form::Int(least, greatest) => Ok(Shape::Int(least, greatest)),
        Form::Text => Ok(Shape::Text),
        Form::Ints => Shape::list(alloc, Shape::Int(0, 9)),
        Form::Ranges => Ok(Shape::Ranges),
        Form::Layers => Ok(Shape::Layers),
        Form::History => Ok(Shape::History),
    }
}

fn is_of(alloc: Global, value: Made<'_>, form: Form) -> Result<bool, Fail> {
    let shape = shape(alloc, form)?;
    Ok(value_of(alloc, value)?.is_of(&shape))
}

#[test]
fn a_value_is_of_its_shape(rt: HostRuntime) -> Result<(), Fail> {
    for (value, form, wanted) in &[
        (Made::Unit, Form::Any, true),
        (Made::Bool(true), Form::Bool, true),
        (Made::Int(3), Form::Int(1, 3), true),
        (Made::Int(4), Form::Int(1, 3), false),
        (Made::Text("a"), Form::Text, true),
        (Made::Int(1), Form::Text, false),
        (Made::Ints(&[0, 9]), Form::Ints, true),
        (Made::Ints(&[0, 10]), Form::Ints, false),
        (Made::Ranges(&[(0, 1)]), Form::Ranges, true),
        (Made::Ranges(&[]), Form::Any, false),
        (Made::Ranges(&[]), Form::Layers, false),
        (Made::Layers(&[(0, 1)]), Form::Layers, true),
        (Made::Layers(&[]), Form::Ranges, false),
        (Made::History, Form::History, true),
        (Made::History, Form::Any, false),
        (Made::Unit, Form::History, false),
    ] {
        assert!(rt; is_of(rt.alloc(), *value, *form)? == *wanted);
    }
    Ok(())
}

fn copied(alloc: Global, value: Made<'_>) -> Result<Val, Fail> {
    let value = value_of(alloc, value)?;
    Ok(value.try_copy(alloc)?)
}

/// Whether a copy of the first value is the second.
fn copy_is(alloc: Global, first: Made<'_>, second: Made<'_>) -> Result<bool, Fail> {
    let copy = copied(alloc, first)?;
    is(alloc, &copy, second)
}

#[test]
fn a_copy_is_the_same_value(rt: HostRuntime) -> Result<(), Fail> {
    for value in &[
        Made::Unit,
        Made::Text("ab"),
        Made::Ints(&[1, 2]),
        Made::Ranges(&[(0, 1), (2, 3)]),
        Made::Layers(&[(0, 1)]),
        Made::History,
    ] {
        assert!(rt; copy_is(rt.alloc(), *value, *value)?);
    }
    Ok(())
}

#[test]
fn other_values_are_not_the_same(rt: HostRuntime) -> Result<(), Fail> {
    for (first, second) in &[
        (Made::Unit, Made::Bool(false)),
        (Made::Text("ab"), Made::Text("b")),
        (Made::Ints(&[1, 2]), Made::Ints(&[2, 1])),
        (Made::Ranges(&[(0, 1)]), Made::Ranges(&[(0, 2)])),
        (Made::Layers(&[]), Made::Ranges(&[])),
        (Made::Layers(&[(0, 1)]), Made::Layers(&[(1, 2)])),
        (Made::History, Made::Unit),
    ] {
        assert!(rt; !copy_is(rt.alloc(), *first, *second)?);
    }
    Ok(())
}
