ghost use Rattle.serde_json.specs.View.{view};
ghost use Rattle.script.specs.Reading.{Gives};
ghost use Rattle.requests.specs.Written.{deco_of, inclusive_of};

use crate::coloring::style_or_none;
use crate::words::kind_member;
use cm_plain::Str;
use decoration::{Inclusive, Kind, Style};
use script::{Item, LineError, defaulted, members, number_member, only_fields, text_or_empty};
use serde_json::Value;
use std::alloc::Global;

/// A decoration at a range, as it is written. It may have ends or a side that no decoration can have, and it has what its
/// kind has no use for.
#[derive(Drop)]
pub struct WrittenDeco {
    pub kind: Kind,
    /// The start of the range, in characters.
    pub from: u32,
    /// The end of the range, in characters.
    pub to: u32,
    pub style: Style,
    /// What a widget or a replacement shows.
    pub text: Str,
    /// The side of a widget.
    pub side: i32,
    /// Which ends of a mark or a replacement are inclusive.
    pub inclusive: Inclusive,
}

#[tactic(auto, unfolding(crate::specs::Written::inclusive_of))]
fn read_inclusive(alloc: Global, value: &Value) -> Result<Inclusive, LineError>
    ensures { Gives (λ x. x) result (inclusive_of (view value.now)) }
{
    let start = defaulted(alloc, "inclusiveStart", value, false)?;
    let end = defaulted(alloc, "inclusiveEnd", value, false)?;
    Ok(Inclusive { start, end })
}

/// The names of a decoration's fields, in order.
const DECO_FIELDS: [&str; 8] = [
    "kind",
    "from",
    "to",
    "style",
    "text",
    "side",
    "inclusiveStart",
    "inclusiveEnd",
];

impl Item for WrittenDeco {
    ghost item_of = { deco_of };

    #[tactic(auto, unfolding(crate::specs::Written::deco_of))]
    fn read(alloc: Global, name: &str, value: &Value) -> Result<WrittenDeco, LineError> {
        let members = members(alloc, name, value)?;
        let kind = kind_member(alloc, "kind", value)?;
        let from = number_member(alloc, "from", value)?;
        let to = defaulted(alloc, "to", value, from)?;
        let style = style_or_none(alloc, "style", value)?;
        let text = text_or_empty(alloc, "text", value)?;
        let side = defaulted(alloc, "side", value, 0)?;
        let inclusive = read_inclusive(alloc, value)?;
        only_fields(alloc, &DECO_FIELDS, members)?;
        Ok(WrittenDeco {
            kind,
            from,
            to,
            style,
            text,
            side,
            inclusive,
        })
    }
}
