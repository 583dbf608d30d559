ghost use Rattle.std.specs.Prelude.{◌≡◌, IfOk};
ghost use Rattle.cm_plain.specs.Form.{holds, hold, fits, lists};
ghost use Rattle.cm_plain.specs.Plain.{datum_of};
ghost use Rattle.cm_plain.specs.Datum.{data_of};
ghost use Rattle.cm_plain.specs.Shape.{form_of};

use crate::plain::{Plain, PlainList};
use crate::words::Words;
use std::alloc::{AllocError, Global};
use std::marker::Model;

/// What values a facet, a field or a rule takes or gives.
///
/// `Any` holds each `Plain`. `Int` holds the whole numbers from its least to its greatest one, none where the least is
/// more. `OneOf` holds these texts alone, `List` the lists whose items are of one shape. The three last name values that
/// are no `Plain`.
#[cycle(shape)]
#[derive(Debug, Drop)]
pub enum Shape {
    Any,
    Bool,
    Int(i64, i64),
    Text,
    OneOf(Words),
    List(ItemShape),
    Ranges,
    Layers,
    History,
}

/// The shape of a list's items.
#[cycle(shape)]
#[derive(Debug, Drop)]
pub struct ItemShape {
    items: Box<Shape>,
}

impl Model for ItemShape {
    ghost use Rattle.cm_plain.specs.Form.{Form, coded_form, nesting};

    ghost Value = { Form };

    ghost coded = { coded_form };

    ghost use Rattle.cm_plain.specs.Shape.{form_of};

    ghost view = { λ a. form_of a.items.value };

    ghost size = { nesting };

    ghost use Rattle.std.proofs.Common.{arith};
    ghost use Rattle.cm_plain.specs.ShapeFalls.{deep_le-nesting};

    ghost size_decreases = { λ a h. Prim.omega (arith, deep_le-nesting a.items.value) };
}

impl Shape {
    /// The shape of lists whose items are of this shape. `Err`: out of memory.
    pub fn list(alloc: Global, items: Shape) -> Result<Shape, AllocError>
        ensures { IfOk result (λ shape. form_of shape ≡ lists (form_of items)) }
    {
        let items = Box::new(alloc, items)?;
        Ok(Shape::List(ItemShape { items }))
    }

    /// Whether the value is of this shape.
    #[cycle(holds)]
    pub fn holds(&self, plain: &Plain) -> bool
        ensures { result ≡ holds (datum_of plain.now) (form_of self.now) }
    {
        match (self, plain) {
            (Shape::Any, _) => true,
            (Shape::Bool, Plain::Bool(_)) => true,
            (Shape::Int(least, most), Plain::Int(n)) => *least <= *n && *n <= *most,
            (Shape::Text, Plain::Text(_)) => true,
            (Shape::OneOf(words), Plain::Text(text)) => words.has(text),
            (Shape::List(items), Plain::List(list)) => items.holds_all(list),
            _ => false,
        }
    }

    /// Whether each value of this shape is known to be of the other one: they are equal, or the other one is `Any` and this
    /// one is of plain values, or the numbers or words of this one lie among the other's, or this one is `OneOf` and the
    /// other `Text`, or both are lists of items that fit.
    #[cycle(fits)]
    pub fn fits(&self, other: &Shape) -> bool
        ensures { result ≡ fits (form_of self.now) (form_of other.now) }
    {
        match (self, other) {
            (Shape::Ranges | Shape::Layers | Shape::History, Shape::Any) => false,
            (_, Shape::Any) => true,
            (Shape::Bool, Shape::Bool) => true,
            (Shape::Int(a, b), Shape::Int(c, d)) => *a > *b || (*c <= *a && *b <= *d),
            (Shape::Text | Shape::OneOf(_), Shape::Text) => true,
            (Shape::OneOf(words), Shape::OneOf(more)) => words.are_among(more),
            (Shape::List(items), Shape::List(others)) => items.fit(others),
            (Shape::Ranges, Shape::Ranges) => true,
            (Shape::Layers, Shape::Layers) => true,
            (Shape::History, Shape::History) => true,
            _ => false,
        }
    }
}

impl ItemShape {
    /// Whether each item of the list is of this shape.
    #[cycle(holds)]
    fn holds_all(&self, list: &PlainList) -> bool
        ensures { result ≡ hold (data_of list.now) self.now }
    {
        for item in list.as_slice() {
            if !self.items.holds(item) {
                return false;
            }
        }
        true
    }

    /// Whether each value of this shape is known to be of the other one.
    #[cycle(fits)]
    fn fit(&self, other: &ItemShape) -> bool
        ensures { result ≡ fits self.now other.now }
    {
        self.items.fits(&other.items)
    }
}
