ghost use Rattle.std.specs.Prelude.{◌≡◌, ◌↔◌, IfOk, IfErr, IsTrue, Some};
ghost use Rattle.decoration.specs.Widgets.{IsSide, IsWidgetFault};
ghost use Rattle.decoration.specs.Sides.{deco_rules, start_side, end_side, mode_of, is_point};
ghost use Rattle.decoration.specs.Places.{kind_of};

use crate::inclusive::Inclusive;
use crate::kind::Kind;
use crate::line_style::LineStyle;
use crate::mark::Mark;
use crate::replacement::Replacement;
use crate::style::Style;
use crate::widget::Widget;
use crate::widget_error::WidgetError;
use change_desc::MapMode;
use cm_plain::Str;
use range_set::{RangeValue, Ranged};
use std::alloc::{AllocError, Global};
use std::mem::size_of;

/// A decoration of a document (Reference Manual: Decoration). What a widget or a replacement shows stands on the heap, so
/// that a decoration is small: range sets keep many in a row, and move them.
#[derive(Debug, Drop)]
pub enum Deco {
    Mark(Mark),
    Widget(Widget),
    Replace(Replacement),
    Line(LineStyle),
}

/// A decoration has 16 bytes.
const _: () = prove!(size_of::<Deco>() == 16);

/// At its range it has 24.
const _: () = prove!(size_of::<Ranged<Deco>>() == 24);

impl Deco {
    /// A mark, which styles the characters of its range.
    pub fn mark(style: Style, inclusive: Inclusive) -> Deco
        ensures { result ≡ Deco.Mark (record { style = style; inclusive = inclusive }) }
    {
        Deco::Mark(Mark::new(style, inclusive))
    }

    /// A widget, which shows a text at a place. `Err`: `BadSide` exactly where the side is less than -10000 or more
    /// than 10000; else `NoMemory`.
    pub fn widget(alloc: Global, text: Str, style: Style, side: i32) -> Result<Deco, WidgetError>
        ensures accepted { IfOk result (λ deco. IsSide side) }
        ensures widget { IfOk result (λ deco. deco ≡ Deco.Widget (record { text = text; style = style; side = side })) }
        ensures refused { IfErr result (IsWidgetFault side) }
    {
        match Widget::of(alloc, text, style, side) {
            Ok(widget) => Ok(Deco::Widget(widget)),
            Err(error) => Err(error),
        }
    }

    /// A replacement, which shows a text in place of the characters of its range. `Err`: out of memory.
    pub fn replace(
        alloc: Global,
        text: Str,
        style: Style,
        inclusive: Inclusive,
    ) -> Result<Deco, AllocError>
        ensures { IfOk result (λ deco. deco ≡ Deco.Replace (record { text = text; style = style; inclusive = inclusive })) }
    {
        let replacement = Replacement::of(alloc, text, style, inclusive)?;
        Ok(Deco::Replace(replacement))
    }

    /// A line decoration, which styles a line from its start.
    pub fn line(style: Style) -> Deco
        ensures { result ≡ Deco.Line style }
    {
        Deco::Line(LineStyle::new(style))
    }

    /// What the decoration does.
    pub fn kind(&self) -> Kind
        ensures { result ≡ kind_of self.now }
    {
        match self {
            Deco::Mark(_) => Kind::Mark,
            Deco::Widget(_) => Kind::Widget,
            Deco::Replace(_) => Kind::Replace,
            Deco::Line(_) => Kind::Line,
        }
    }
}

impl RangeValue for Deco {
    ghost rules = { deco_rules };

    fn start_side(&self) -> i32 {
        match self {
            Deco::Mark(mark) => mark.inclusive().start_side(),
            Deco::Widget(widget) => widget.end_side(),
            Deco::Replace(replacement) => replacement.inclusive().start_side(),
            Deco::Line(_) => -30000,
        }
    }

    fn end_side(&self) -> i32 {
        match self {
            Deco::Mark(mark) => mark.inclusive().end_side(),
            Deco::Widget(widget) => widget.end_side(),
            Deco::Replace(replacement) => replacement.inclusive().end_side(),
            Deco::Line(_) => -30000,
        }
    }

    fn mode(&self) -> MapMode {
        match self {
            Deco::Line(_) => MapMode::TrackBefore,
            _ => MapMode::TrackDel,
        }
    }

    fn is_point(&self) -> bool {
        !matches!(self, Deco::Mark(_))
    }

    fn same(&self, other: &Deco) -> bool {
        match (self, other) {
            (Deco::Mark(a), Deco::Mark(b)) => a.same(b),
            (Deco::Widget(a), Deco::Widget(b)) => a.same(b),
            (Deco::Replace(a), Deco::Replace(b)) => a.same(b),
            (Deco::Line(a), Deco::Line(b)) => a.same(b),
            _ => false,
        }
    }

    fn try_copy(&self, _alloc: Global) -> Result<Deco, AllocError> {
        match self {
            Deco::Mark(mark) => Ok(Deco::Mark(*mark)),
            Deco::Widget(widget) => Ok(Deco::Widget(widget.try_copy()?)),
            Deco::Replace(replacement) => Ok(Deco::Replace(replacement.try_copy()?)),
            Deco::Line(style) => Ok(Deco::Line(*style)),
        }
    }
}
