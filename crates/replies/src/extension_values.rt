ghost use Rattle.std.specs.Prelude.{◌≡◌, IfOk};
ghost use Rattle.serde_json.specs.View.{view};
ghost use Rattle.script.specs.declared.extension_refusal.ExtensionRefusal.TheVariants.{DuplicateCompartment};
ghost use Rattle.replies.specs.Refusals.{extension_data};

use crate::coded::{coded_texts, coded_value};
use crate::scalar::Scalar::Text;
use cm_plain::Str;
use script::ExtensionRefusal;
use serde_json::Value;
use std::alloc::{AllocError, Global};

fn duplicate_value<'a>(
    alloc: Global,
    compartment: &'a Str,
    first: &'a Str,
    second: &'a Str,
) -> Result<Value, AllocError>
    ensures { IfOk result (λ v. view v ≡ extension_data (DuplicateCompartment compartment.now first.now second.now)) }
{
    coded_value(
        alloc,
        "DuplicateCompartment",
        &[
            ("compartment", Text(compartment)),
            ("first", Text(first)),
            ("second", Text(second)),
        ],
    )
}

pub(crate) fn extension_value(
    alloc: Global,
    refusal: &ExtensionRefusal,
) -> Result<Value, AllocError>
    ensures { IfOk result (λ v. view v ≡ extension_data refusal.now) }
{
    match refusal {
        ExtensionRefusal::DuplicateCompartment {
            compartment,
            first,
            second,
        } => duplicate_value(alloc, compartment, first, second),
        ExtensionRefusal::CompartmentLoop { path } => {
            coded_texts(alloc, "CompartmentLoop", "path", path.as_slice())
        }
        ExtensionRefusal::Cycle { members } => {
            coded_texts(alloc, "Cycle", "members", members.as_slice())
        }
    }
}
