ghost use Rattle.std.specs.Prelude.{◌≡◌, IfOk};
ghost use Rattle.cm_plain.specs.Shape.{form_of};
ghost use Rattle.transaction.specs.Numbers.{IsNumber};
ghost use Rattle.values.specs.Shipped.{shipped};
ghost use Rattle.shipped_rules.specs.Lawful.{shipped-keeps, shipped-lawful};

use crate::shapes::{combine_input, combine_output};
use cm_plain::Shape;
use std::alloc::{AllocError, Global};
use values::Meanings;

/// The meanings of the shipped rules alone.
pub struct Shipped;

impl Meanings for Shipped {
    ghost rules = { shipped };

    fn combiners() -> u32
        ensures { result ≡ shipped.combiners }
    {
        13
    }

    fn comparers() -> u32
        ensures { result ≡ shipped.comparers }
    {
        3
    }

    fn computers() -> u32
        ensures { result ≡ shipped.computers }
    {
        6
    }

    fn list_computers() -> u32
        ensures { result ≡ shipped.list_computers }
    {
        2
    }

    fn creators() -> u32
        ensures { result ≡ shipped.creators }
    {
        7
    }

    fn updaters() -> u32
        ensures { result ≡ shipped.updaters }
    {
        8
    }

    fn effect_maps() -> u32
        ensures { result ≡ shipped.effect_maps }
    {
        2
    }

    fn change_guards() -> u32
        ensures { result ≡ shipped.change_guards }
    {
        3
    }

    fn transaction_filters() -> u32
        ensures { result ≡ shipped.transaction_filters }
    {
        4
    }

    fn extenders() -> u32
        ensures { result ≡ shipped.extenders }
    {
        3
    }

    fn combine_input(alloc: Global, number: u32) -> Result<Shape, AllocError>
        requires { IsNumber shipped.combiners number }
        ensures { IfOk result (λ shape. form_of shape ≡ shipped.combine_input number) }
    {
        combine_input(alloc, number)
    }

    fn combine_output(alloc: Global, number: u32) -> Result<Shape, AllocError>
        requires { IsNumber shipped.combiners number }
        ensures { IfOk result (λ shape. form_of shape ≡ shipped.combine_output number) }
    {
        combine_output(alloc, number)
    }

    fn compute_output(alloc: Global, number: u32) -> Result<Shape, AllocError>
        requires { IsNumber shipped.computers number }
        ensures { IfOk result (λ shape. form_of shape ≡ shipped.compute_output number) }
    {
        match number {
            1 => Ok(Shape::Int(i64::MIN, i64::MAX)),
            2 => Ok(Shape::Int(i64::MIN, i64::MAX)),
            3 => Ok(Shape::Int(i64::MIN, i64::MAX)),
            4 => Ok(Shape::Any),
            5 => Ok(Shape::Int(i64::MIN, i64::MAX)),
            6 => Ok(Shape::Ranges),
            _ => Ok(Shape::Any),
        }
    }

    fn list_output(alloc: Global, number: u32) -> Result<Shape, AllocError>
        requires { IsNumber shipped.list_computers number }
        ensures { IfOk result (λ shape. form_of shape ≡ shipped.list_output number) }
    {
        match number {
            1 => Ok(Shape::Int(i64::MIN, i64::MAX)),
            2 => Ok(Shape::Any),
            _ => Ok(Shape::Any),
        }
    }

    fn create_output(alloc: Global, number: u32) -> Result<Shape, AllocError>
        requires { IsNumber shipped.creators number }
        ensures { IfOk result (λ shape. form_of shape ≡ shipped.create_output number) }
    {
        match number {
            1 => Ok(Shape::Any),
            2 => Ok(Shape::Int(i64::MIN, i64::MAX)),
            3 => Ok(Shape::Int(i64::MIN, i64::MAX)),
            4 => Shape::list(alloc, Shape::Any),
            5 => Ok(Shape::Ranges),
            6 => Ok(Shape::History),
            7 => Ok(Shape::Any),
            _ => Ok(Shape::Any),
        }
    }

    fn update_shape(alloc: Global, number: u32) -> Result<Shape, AllocError>
        requires { IsNumber shipped.updaters number }
        ensures { IfOk result (λ shape. form_of shape ≡ shipped.update_shape number) }
    {
        match number {
            1 => Ok(Shape::Any),
            2 => Ok(Shape::Int(i64::MIN, i64::MAX)),
            3 => Ok(Shape::Any),
            4 => Ok(Shape::Ranges),
            5 => Ok(Shape::Ranges),
            6 => Ok(Shape::History),
            7 => Shape::list(alloc, Shape::Any),
            8 => Ok(Shape::Any),
            _ => Ok(Shape::Any),
        }
    }

    ghost lawful = { shipped-lawful };

    ghost keeps = { shipped-keeps };
}
