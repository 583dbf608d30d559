ghost use Rattle.serde_json.specs.View.{view};
ghost use Rattle.script.specs.Command.{change_of, range_of};

use crate::fields::{members, no_item, only_fields, position, required_item};
use crate::item::Item;
use crate::member::{defaulted, number_member, text_or_empty};
use crate::refusal::LineError;
use crate::texts::inserted_text;
use change_set::Change;
use serde_json::Value;
use std::alloc::Global;

impl Item for Change {
    ghost item_of = { change_of };

    #[tactic(auto, unfolding(crate::specs::Command::change_of))]
    fn read(alloc: Global, name: &str, value: &Value) -> Result<Change, LineError> {
        let members = members(alloc, name, value)?;
        let from = number_member(alloc, "from", value)?;
        let to = defaulted(alloc, "to", value, from)?;
        let insert = text_or_empty(alloc, "insert", value)?;
        only_fields(alloc, &["from", "to", "insert"], members)?;
        Ok(Change::Span {
            from,
            to,
            insert: inserted_text(alloc, &insert)?,
        })
    }
}

/// A range from a position to a position.
impl Item for (u32, u32) {
    ghost item_of = { range_of };

    #[tactic(auto, unfolding(crate::specs::Command::range_of))]
    fn read(alloc: Global, name: &str, value: &Value) -> Result<(u32, u32), LineError> {
        let from = position(alloc, name, required_item(alloc, name, 0, value)?)?;
        let to = position(alloc, name, required_item(alloc, name, 1, value)?)?;
        no_item(alloc, name, 2, value)?;
        Ok((from, to))
    }
}
