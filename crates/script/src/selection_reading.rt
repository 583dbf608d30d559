ghost use Rattle.std.specs.Prelude.{[], ◌∷◌};
ghost use Rattle.serde_json.specs.View.{view};
ghost use Rattle.script.specs.Reading.{Gives, defaulted, list_of};
ghost use Rattle.script.specs.Command.{selected_of, main_of, first_selection_of, given_selection_of};

use crate::item::{Item, list};
use crate::member::{defaulted, optional};
use crate::refusal::LineError;
use listed::Listed;
use selection::Range;
use serde_json::Value;
use std::alloc::Global;
use transaction::SelectionSpec;

impl Item for Range {
    ghost item_of = { selected_of };

    #[tactic(auto, unfolding(crate::specs::Command::selected_of))]
    fn read(alloc: Global, name: &str, value: &Value) -> Result<Range, LineError> {
        let (anchor, head): (u32, u32) = Item::read(alloc, name, value)?;
        Ok(Range { anchor, head })
    }
}

fn selected_or_start(alloc: Global, name: &str, value: &Value) -> Result<Listed<Range>, LineError>
    ensures { Gives (λ x. x) result (defaulted name.now (list_of selected_of) (record { anchor = 0; head = 0 } ∷ []) (view value.now)) }
{
    match value.get(name) {
        Some(member) => list(alloc, name, member),
        None => {
            let mut ranges = Vec::with_capacity(alloc, 1)?;
            ranges.push(Range { anchor: 0, head: 0 })?;
            Ok(Listed::new(ranges))
        }
    }
}

#[tactic(auto, unfolding(crate::specs::Command::main_of))]
fn main_range(alloc: Global, value: &Value) -> Result<usize, LineError>
    ensures { Gives (λ x. x) result (main_of (view value.now)) }
{
    let main: u32 = defaulted(alloc, "main", value, 0)?;
    Ok(main as usize)
}

/// The selection of a new document.
#[tactic(auto, unfolding(crate::specs::Command::first_selection_of))]
pub fn first_selection(alloc: Global, value: &Value) -> Result<SelectionSpec, LineError>
    ensures { Gives (λ x. x) result (first_selection_of (view value.now)) }
{
    let ranges = selected_or_start(alloc, "selection", value)?;
    let main = main_range(alloc, value)?;
    Ok(SelectionSpec { ranges, main })
}

/// The selection of a spec, if it has one. The main range is looked at also where there is no selection.
#[tactic(auto, unfolding(crate::specs::Command::given_selection_of))]
pub fn given_selection(alloc: Global, value: &Value) -> Result<Option<SelectionSpec>, LineError>
    ensures { Gives (λ x. x) result (given_selection_of (view value.now)) }
{
    let ranges = optional(alloc, "selection", value)?;
    let main = main_range(alloc, value)?;
    match ranges {
        Some(ranges) => Ok(Some(SelectionSpec { ranges, main })),
        None => Ok(None),
    }
}
