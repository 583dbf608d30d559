ghost use Rattle.serde_json.specs.View.{view};
ghost use Rattle.script.specs.Reading.{Gives};
ghost use Rattle.script.specs.Command.{notes_of, flags_of, spec_of, update_of};

use crate::command::Command;
use crate::fields::{members, only_fields};
use crate::item::{Item, list};
use crate::member::{defaulted, list_or_empty, text_if_there};
use crate::refusal::LineError;
use crate::selection_reading::given_selection;
use cm_plain::{Plain, Str};
use listed::Listed;
use serde_json::Value;
use std::alloc::Global;
use transaction::{Annotation, Spec};

/// What a spec says beside its changes, its selection and its effects: its annotations, and its user event, if it has one.
#[tactic(auto, unfolding(crate::specs::Command::notes_of))]
pub fn read_notes(
    alloc: Global,
    value: &Value,
) -> Result<(Listed<Annotation>, Option<Str>), LineError>
    ensures { Gives (λ x. x) result (notes_of (view value.now)) }
{
    let annotations = list_or_empty(alloc, "annotations", value)?;
    let event = text_if_there(alloc, "userEvent", value)?;
    Ok((annotations, event))
}

/// How a spec is taken: whether it is sequential, and whether filters are asked.
#[tactic(auto, unfolding(crate::specs::Command::flags_of))]
pub fn read_flags(alloc: Global, value: &Value) -> Result<(bool, bool), LineError>
    ensures { Gives (λ x. x) result (flags_of (view value.now)) }
{
    let sequential = defaulted(alloc, "sequential", value, false)?;
    let filter = defaulted(alloc, "filter", value, true)?;
    Ok((sequential, filter))
}

/// The names of a spec's fields, in order.
const SPEC_FIELDS: [&str; 7] = [
    "changes",
    "selection",
    "main",
    "annotations",
    "userEvent",
    "sequential",
    "filter",
];

impl Item for Spec<Plain> {
    ghost item_of = { spec_of };

    #[tactic(auto, unfolding(crate::specs::Command::spec_of))]
    fn read(alloc: Global, name: &str, value: &Value) -> Result<Spec<Plain>, LineError> {
        let members = members(alloc, name, value)?;
        let changes = list_or_empty(alloc, "changes", value)?;
        let selection = given_selection(alloc, value)?;
        let (annotations, user_event) = read_notes(alloc, value)?;
        let (sequential, filter) = read_flags(alloc, value)?;
        only_fields(alloc, &SPEC_FIELDS, members)?;
        Ok(Spec {
            changes,
            selection,
            effects: Listed::empty(alloc),
            annotations,
            user_event,
            sequential,
            filter,
        })
    }
}

/// The command `update` with this argument.
#[tactic(auto, unfolding(crate::specs::Command::update_of))]
pub(crate) fn read_update(alloc: Global, value: &Value) -> Result<Command, LineError>
    ensures { Gives (λ x. x) result (update_of (view value.now)) }
{
    let specs = list(alloc, "update", value)?;
    Ok(Command::Update(specs))
}
