ghost use Rattle.serde_json.specs.View.{view};
ghost use Rattle.script.specs.Reading.{Gives};
ghost use Rattle.requests.specs.Written.{ranges_of, written_of};

use crate::written_deco::WrittenDeco;
use cm_plain::Plain;
use listed::Listed;
use script::{Item, LineError, members, only_fields, required};
use serde_json::Value;
use std::alloc::Global;

/// A value of a facet or a field, as it is written.
#[derive(Drop)]
pub enum Written {
    /// Plain data.
    Plain(Plain),
    /// Decorations at ranges, in order.
    Ranges(Listed<WrittenDeco>),
}

#[tactic(auto, unfolding(crate::specs::Written::ranges_of))]
fn read_ranges(alloc: Global, name: &str, value: &Value) -> Result<Listed<WrittenDeco>, LineError>
    ensures { Gives (λ x. x) result (ranges_of name.now (view value.now)) }
{
    let members = members(alloc, name, value)?;
    let ranges = required(alloc, "ranges", value)?;
    only_fields(alloc, &["ranges"], members)?;
    Ok(ranges)
}

impl Item for Written {
    ghost item_of = { written_of };

    #[tactic(auto, unfolding(crate::specs::Written::written_of))]
    fn read(alloc: Global, name: &str, value: &Value) -> Result<Written, LineError> {
        if value.is_object() {
            let ranges = read_ranges(alloc, name, value)?;
            return Ok(Written::Ranges(ranges));
        }
        let plain = Item::read(alloc, name, value)?;
        Ok(Written::Plain(plain))
    }
}
