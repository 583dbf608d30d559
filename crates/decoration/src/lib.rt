//! Decorations of a document, and the sets and layers that hold them.
//!
//! A `Deco` is a mark, a widget, a replacement or a line decoration; its sides and mode say how its range moves with
//! changes, and `place` refuses a range that its kind can't have. A `DecoSet` is a range set of decorations, and
//! `Layers` a list of sets, the highest precedence first. Contracts see all of them as plain data.
#![tactic(auto)]

mod color;
mod deco;
mod deco_error;
mod inclusive;
mod kind;
mod layers;
mod line_style;
mod mark;
mod placing;
mod replacement;
mod style;
mod widget;
mod widget_error;

pub use color::Color;
pub use deco::Deco;
pub use deco_error::DecoError;
pub use inclusive::Inclusive;
pub use kind::Kind;
pub use layers::{DecoSet, Layers};
pub use line_style::LineStyle;
pub use mark::Mark;
pub use placing::{place, place_line};
pub use replacement::Replacement;
pub use style::Style;
pub use widget::{MAX_SIDE, Widget};
pub use widget_error::WidgetError;
