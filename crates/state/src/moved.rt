// The transaction of a draft.
ghost use Rattle.std.specs.Prelude.{◌≡◌, ◌<◌, length, IfOk};
ghost use Rattle.registry.specs.declared.predeclared.TheConstants.{ALLOW_MULTIPLE_SELECTIONS};
ghost use Rattle.facet_slots.specs.Making.{IsMade};
ghost use Rattle.facet_slots.specs.Slotted.{plain};
ghost use Rattle.filters.specs.Starts.{StartsIn};
ghost use Rattle.state.specs.Drafting.{start_in};
ghost use Rattle.state.specs.Moving.{transaction_of};

use crate::start::start_of;
use facet_slots::Slots;
use filters::shown_from;
use registry::Registry;
use std::alloc::{AllocError, Global};
use transaction::Draft;
use values::{Meanings, TrView, Val};

/// The transaction of a draft in a state, as rules are shown it. What the draft has is taken over; texts are shared. `Err`: out
/// of memory.
pub fn transaction_of<M: Meanings>(
    alloc: Global,
    registry: &Registry<M>,
    slots: &Slots<M>,
    draft: Box<Draft<Val>>,
) -> Result<TrView, AllocError>
    requires several { ALLOW_MULTIPLE_SELECTIONS < length slots.now.setup.defs.facets }
    requires starts { StartsIn (start_in registry.now (plain slots.now)) draft.value }
    ensures view { IfOk result (λ view. view ≡ transaction_of registry.now (plain slots.now) draft.value) }
    ensures made { IfOk result (λ view. IsMade slots.now.scene view) }
{
    let start = start_of(registry, slots);
    let inverted = draft.inverted_effects(alloc, registry.kinds(), registry.pairs())?;
    let view = shown_from(alloc, &start, inverted, draft)?;
    view.known();
    Ok(view)
}
