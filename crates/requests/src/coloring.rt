// Colours and styles.
ghost use Rattle.std.specs.Prelude.{◌≡◌};
ghost use Rattle.serde_json.specs.View.{view};
ghost use Rattle.script.specs.Reading.{Gives, defaulted, optional};
ghost use Rattle.requests.specs.Styles.{color_at, color_numbered, no_style, style_of};

use decoration::{Color, Style};
use script::{LineError, defaulted, members, only_fields, refused};
use serde_json::Value;
use std::alloc::Global;

fn color_numbered(number: u64) -> Option<Color>
    ensures { result ≡ color_numbered number }
{
    match number {
        0 => Some(Color::Black),
        1 => Some(Color::Red),
        2 => Some(Color::Green),
        3 => Some(Color::Yellow),
        4 => Some(Color::Blue),
        5 => Some(Color::Magenta),
        6 => Some(Color::Cyan),
        7 => Some(Color::White),
        _ => None,
    }
}

#[tactic(auto, unfolding(crate::specs::Styles::color_at))]
fn color(alloc: Global, name: &str, value: &Value) -> Result<Color, LineError>
    ensures { Gives (λ x. x) result (color_at name.now (view value.now)) }
{
    match value.as_u64().and_then(color_numbered) {
        Some(color) => Ok(color),
        None => refused(alloc, name),
    }
}

/// The colour that the member of this name is, if there is such a member.
fn color_if_there(alloc: Global, name: &str, value: &Value) -> Result<Option<Color>, LineError>
    ensures { Gives (λ x. x) result (optional name.now color_at (view value.now)) }
{
    match value.get(name) {
        Some(member) => Ok(Some(color(alloc, name, member)?)),
        None => Ok(None),
    }
}

#[tactic(auto, unfolding(crate::specs::Styles::style_of))]
fn style(alloc: Global, name: &str, value: &Value) -> Result<Style, LineError>
    ensures { Gives (λ x. x) result (style_of name.now (view value.now)) }
{
    let members = members(alloc, name, value)?;
    let fg = color_if_there(alloc, "fg", value)?;
    let bg = color_if_there(alloc, "bg", value)?;
    let bold = defaulted(alloc, "bold", value, false)?;
    let underline = defaulted(alloc, "underline", value, false)?;
    let reverse = defaulted(alloc, "reverse", value, false)?;
    only_fields(
        alloc,
        &["fg", "bg", "bold", "underline", "reverse"],
        members,
    )?;
    Ok(Style {
        fg,
        bg,
        bold,
        underline,
        reverse,
    })
}

/// The style that the member of this name is, or none where there is no such member.
pub(crate) fn style_or_none(alloc: Global, name: &str, value: &Value) -> Result<Style, LineError>
    ensures { Gives (λ x. x) result (defaulted name.now style_of no_style (view value.now)) }
{
    match value.get(name) {
        Some(member) => style(alloc, name, member),
        None => Ok(Style::plain()),
    }
}
