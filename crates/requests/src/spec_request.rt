ghost use Rattle.requests.specs.Requests.{spec_of};

use crate::named_effect::NamedEffect;
use change_set::Change;
use cm_plain::Str;
use listed::Listed;
use script::{
    Item, LineError, given_selection, list_or_empty, members, only_fields, read_flags, read_notes,
};
use serde_json::Value;
use std::alloc::Global;
use transaction::{Annotation, SelectionSpec};

/// One part of a transaction, with effects by names (Reference Manual, TransactionSpec).
#[derive(Drop)]
pub struct SpecRequest {
    /// All refer to the spec's start document.
    pub changes: Listed<Change>,
    /// The selection to be set, if any.
    pub selection: Option<SelectionSpec>,
    /// They refer to the document after the spec's own changes.
    pub effects: Listed<NamedEffect>,
    pub annotations: Listed<Annotation>,
    pub user_event: Option<Str>,
    /// Whether its start document is the one after the specs before it.
    pub sequential: bool,
    /// Whether filters are asked.
    pub filter: bool,
}

/// The names of a spec's fields, in order.
const SPEC_FIELDS: [&str; 8] = [
    "changes",
    "selection",
    "main",
    "effects",
    "annotations",
    "userEvent",
    "sequential",
    "filter",
];

impl Item for SpecRequest {
    ghost item_of = { spec_of };

    #[tactic(auto, unfolding(crate::specs::Requests::spec_of))]
    fn read(alloc: Global, name: &str, value: &Value) -> Result<SpecRequest, LineError> {
        let members = members(alloc, name, value)?;
        let changes = list_or_empty(alloc, "changes", value)?;
        let selection = given_selection(alloc, value)?;
        let effects = list_or_empty(alloc, "effects", value)?;
        let (annotations, user_event) = read_notes(alloc, value)?;
        let (sequential, filter) = read_flags(alloc, value)?;
        only_fields(alloc, &SPEC_FIELDS, members)?;
        Ok(SpecRequest {
            changes,
            selection,
            effects,
            annotations,
            user_event,
            sequential,
            filter,
        })
    }
}
