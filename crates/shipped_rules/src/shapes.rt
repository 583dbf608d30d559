ghost use Rattle.std.specs.Prelude.{◌≡◌, IfOk};
ghost use Rattle.cm_plain.specs.Form.{lists};
ghost use Rattle.cm_plain.specs.Shape.{form_of};
ghost use Rattle.values.specs.Combining.{combine_input, combine_output, line_ends};

use cm_plain::{Shape, Str, Words};
use std::alloc::{AllocError, Global};

/// The shape of the inputs of a shipped combiner. `Err`: out of memory.
pub(crate) fn combine_input(alloc: Global, number: u32) -> Result<Shape, AllocError>
    ensures { IfOk result (λ shape. form_of shape ≡ combine_input 3 4 3 number) }
{
    match number {
        1 => Ok(Shape::Any),
        2 => Ok(Shape::Any),
        3 => Ok(Shape::Bool),
        4 => Ok(Shape::Int(i64::MIN, i64::MAX)),
        5 => Ok(Shape::Int(i64::MIN, i64::MAX)),
        6 => Ok(Shape::Ranges),
        7 => Ok(Shape::Int(1, 16)),
        8 => line_ends(alloc),
        9 => Ok(Shape::Int(1, 3)),
        10 => Ok(Shape::Int(1, 4)),
        11 => Ok(Shape::Int(1, 3)),
        12 => Shape::list(alloc, Shape::Int(0, 100_000)),
        13 => Ok(Shape::Bool),
        _ => Ok(Shape::Any),
    }
}

/// The shape of what a shipped combiner gives. `Err`: out of memory.
pub(crate) fn combine_output(alloc: Global, number: u32) -> Result<Shape, AllocError>
    ensures { IfOk result (λ shape. form_of shape ≡ combine_output number) }
{
    match number {
        1 => Shape::list(alloc, Shape::Any),
        2 => Ok(Shape::Any),
        3 => Ok(Shape::Bool),
        4 => Ok(Shape::Int(i64::MIN, i64::MAX)),
        5 => Ok(Shape::Int(i64::MIN, i64::MAX)),
        6 => Ok(Shape::Layers),
        7 => Ok(Shape::Int(1, 16)),
        8 => Ok(Shape::Any),
        9 => Shape::list(alloc, Shape::Int(i64::MIN, i64::MAX)),
        10 => Shape::list(alloc, Shape::Int(i64::MIN, i64::MAX)),
        11 => Shape::list(alloc, Shape::Int(i64::MIN, i64::MAX)),
        12 => Shape::list(alloc, Shape::Int(i64::MIN, i64::MAX)),
        13 => Ok(Shape::Bool),
        _ => Ok(Shape::Any),
    }
}

/// The shape of the three ways to end a line.
fn line_ends(alloc: Global) -> Result<Shape, AllocError>
    ensures { IfOk result (λ shape. form_of shape ≡ line_ends) }
{
    let mut words = Vec::new(alloc);
    words.push(Str::of(alloc, &['\n'])?)?;
    words.push(Str::of(alloc, &['\r', '\n'])?)?;
    words.push(Str::of(alloc, &['\r'])?)?;
    Ok(Shape::OneOf(Words::new(words)))
}
