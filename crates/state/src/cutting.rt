// Selections of one range and of several.
ghost use Rattle.std.specs.Prelude.{◌≡◌, ◌<◌, ℕ, get_or, length, slice_get, IfOk, []};
ghost use Rattle.selection.specs.Selections.{LieIn};
ghost use Rattle.values.specs.Combining.{is_true};
ghost use Rattle.facet_slots.specs.Slotted.{plain};
ghost use Rattle.filters.specs.Shown.{allowed};
ghost use Rattle.state.specs.Cutting.{allows_several, config_allows_several, is_true_input, some_input_true};

use cm_plain::Plain;
use configuration::{Config, Defs, NodeDef};
use ext_tree::ExtId;
use facet_slots::Slots;
use registry::ALLOW_MULTIPLE_SELECTIONS;
use selection::Selection;
use std::alloc::AllocError;
use values::{Meanings, Val};

fn is_true(value: &Val) -> bool
    ensures { result ≡ is_true value.now }
{
    match value {
        Val::Plain(Plain::Bool(value)) => *value,
        _ => false,
    }
}

/// Whether selections may have several ranges in a state, in which that facet is declared. Takes no memory.
pub fn allows_several<M: Meanings>(slots: &Slots<M>) -> bool
    requires { ALLOW_MULTIPLE_SELECTIONS < length slots.now.setup.defs.facets }
    ensures { result ≡ allows_several (plain slots.now) }
{
    is_true(slots.value(ALLOW_MULTIPLE_SELECTIONS))
}

fn is_true_input(defs: &Defs<Val>, node: ExtId) -> bool
    ensures { result ≡ is_true_input (slice_get defs.now.node_defs node) }
{
    match defs.node_defs.as_slice().get(node as usize) {
        Some(NodeDef::Of(value)) => is_true(value),
        _ => false,
    }
}

fn some_input_true(defs: &Defs<Val>, nodes: &[ExtId]) -> bool
    ensures { result ≡ some_input_true defs.now.node_defs nodes.now }
{
    for node in nodes {
        if is_true_input(defs, *node) {
            return true;
        }
    }
    false
}

/// Whether selections may have several ranges in a configuration, in which that facet is declared. Takes no memory, and calls
/// no rule.
pub fn config_allows_several(defs: &Defs<Val>, config: &Config) -> bool
    requires { ALLOW_MULTIPLE_SELECTIONS < length config.now.inputs }
    ensures { result ≡ config_allows_several defs.now.node_defs config.now }
{
    some_input_true(defs, config.inputs(ALLOW_MULTIPLE_SELECTIONS))
}

/// The selection as it is where several ranges are allowed, else its main range alone. `Err`: out of memory.
pub fn cut(selection: Selection, several: bool) -> Result<Selection, AllocError>
    ensures selection { IfOk result (λ s. s ≡ allowed several selection) }
    ensures inside { IfOk result (λ s. (len : ℕ) → LieIn len selection.ranges → LieIn len s.ranges) }
{
    if several {
        Ok(selection)
    } else {
        selection.as_single()
    }
}
