ghost use Rattle.script.specs.Command.{annotation_of};

use crate::fields::{members, only_fields};
use crate::item::Item;
use crate::member::{required, text_member};
use crate::refusal::LineError;
use serde_json::Value;
use std::alloc::Global;
use transaction::Annotation;

impl Item for Annotation {
    ghost item_of = { annotation_of };

    #[tactic(auto, unfolding(crate::specs::Command::annotation_of))]
    fn read(alloc: Global, name: &str, object: &Value) -> Result<Annotation, LineError> {
        let members = members(alloc, name, object)?;
        let kind = text_member(alloc, "type", object)?;
        let value = required(alloc, "value", object)?;
        only_fields(alloc, &["type", "value"], members)?;
        Ok(Annotation { kind, value })
    }
}
