ghost use Rattle.std.specs.Prelude.{◌≡◌, ◌≢◌, ◌↔◌, ◌≤ℤ◌, pos, negsuc, IfOk, IfErr, IsTrue};
ghost use Rattle.decoration.specs.Widgets.{WidgetView, IsSide, IsWidgetFault};
ghost use Rattle.decoration.specs.Sides.{widget_side};

use crate::style::Style;
use crate::widget_error::WidgetError;
use cm_plain::Str;
use std::alloc::{AllocError, Global};
use std::marker::Model;
use std::rc::Rc;

/// The greatest side of a widget; the least is -10000.
pub const MAX_SIDE: i32 = 10_000;

/// A widget: it shows a text at a place of the document (Reference Manual: Decoration.widget). Its side, from -10000 to
/// 10000, orders it among widgets of one place, and over 0 it stands after what is inserted there. Copies of a widget share
/// what it shows.
#[derive(Debug, Drop)]
pub struct Widget {
    core: Rc<WidgetCore>,
}

/// What the copies of a widget share.
#[derive(Debug, Drop)]
struct WidgetCore {
    text: Str,
    style: Style,
    side: i32,
}

impl Model for Widget {
    ghost use Rattle.decoration.specs.Widgets.{WidgetView, IsSide};

    ghost Value = { WidgetView };

    ghost view = { λ w. record { text = w.core.value.text; style = w.core.value.style; side = w.core.value.side } };

    ghost invariant = { λ w. IsSide w.core.value.side };
}

impl Widget {
    /// A widget. `Err`: `BadSide` exactly where the side is less than -10000 or more than 10000; else `NoMemory`.
    pub fn of(alloc: Global, text: Str, style: Style, side: i32) -> Result<Widget, WidgetError>
        ensures accepted { IfOk result (λ w. IsSide side) }
        ensures widget { IfOk result (λ w. w ≡ record { text = text; style = style; side = side }) }
        ensures refused { IfErr result (IsWidgetFault side) }
    {
        if side < -MAX_SIDE || side > MAX_SIDE {
            return Err(WidgetError::BadSide { side });
        }
        match Rc::new(alloc, WidgetCore { text, style, side }) {
            Ok(core) => Ok(Widget { core }),
            Err(_) => Err(WidgetError::NoMemory),
        }
    }

    /// The text that it shows.
    pub fn text(&self) -> &Str
        ensures { result.now ≡ self.now.text }
    {
        &self.core.text
    }

    /// The style of its cells.
    pub fn style(&self) -> Style
        ensures { result ≡ self.now.style }
    {
        self.core.style
    }

    /// Its side, from -10000 to 10000.
    pub fn side(&self) -> i32
        ensures value { result ≡ self.now.side }
        ensures bound { IsSide result }
    {
        self.core.side
    }

    /// The side of both of its ends: one of side 0 stays before text that is inserted at its place.
    pub(crate) fn end_side(&self) -> i32
        ensures { result ≡ widget_side self.now.side }
    {
        let side = self.core.side;
        if side > 0 { side } else { side - 1 }
    }

    /// Whether both show the same text in the same style on the same side.
    pub fn same(&self, other: &Widget) -> bool
        ensures { IsTrue result ↔ (self.now ≡ other.now) }
    {
        let (a, b) = (&self.core, &other.core);
        a.side == b.side && a.style.same(&b.style) && a.text.same(&b.text)
    }

    /// The same widget once more, which shares what it shows. `Err`: no further owner can be counted.
    pub fn try_copy(&self) -> Result<Widget, AllocError>
        ensures { IfOk result (λ copy. copy ≡ self.now) }
    {
        let core = self.core.clone()?;
        Ok(Widget { core })
    }
}
