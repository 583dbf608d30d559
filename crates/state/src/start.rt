// What filters go by of the state that an update starts in.
ghost use Rattle.std.specs.Prelude.{◌≡◌, ◌<◌, length};
ghost use Rattle.transaction.specs.Effects.{HasMaps};
ghost use Rattle.registry.specs.declared.predeclared.TheConstants.{ALLOW_MULTIPLE_SELECTIONS};
ghost use Rattle.registry.specs.Predeclared.{predeclared};
ghost use Rattle.facet_slots.specs.Agreement.{IsGrown};
ghost use Rattle.facet_slots.specs.Lent.{definitions};
ghost use Rattle.facet_slots.specs.Slotted.{plain};
ghost use Rattle.filters.specs.Facets.{AreFacets, facets_of};
ghost use Rattle.filters.specs.Starts.{IsStart, start_of};
ghost use Rattle.state.specs.Drafting.{facets_in, start_in};

use crate::cutting::allows_several;
use facet_slots::Slots;
use filters::{FilterFacets, Start};
use line_tree::MAX_LEN;
use registry::{CHANGE_FILTER, FILTER_DATA, Registry, TRANSACTION_EXTENDER, TRANSACTION_FILTER};
use values::Meanings;

/// The values of the facets that filters go by.
pub fn filter_facets<M: Meanings>(slots: &Slots<M>) -> FilterFacets<'_>
    requires { IsGrown (definitions predeclared) slots.now.setup.defs }
    ensures facets { facets_of result ≡ facets_in (plain slots.now) }
    ensures numbers { AreFacets M.rules (facets_of result) }
{
    slots.known();
    FilterFacets {
        change_filter: slots.value(CHANGE_FILTER),
        transaction_filter: slots.value(TRANSACTION_FILTER),
        transaction_extender: slots.value(TRANSACTION_EXTENDER),
        filter_data: slots.value(FILTER_DATA),
    }
}

/// What filters go by of the state that an update starts in.
pub fn start_of<'a, M: Meanings>(registry: &'a Registry<M>, slots: &'a Slots<M>) -> Start<'a>
    requires { ALLOW_MULTIPLE_SELECTIONS < length slots.now.setup.defs.facets }
    ensures start { start_of result ≡ start_in registry.now (plain slots.now) }
    ensures is_start { IsStart (start_of result) }
    ensures maps { HasMaps M.rules.effect_maps result.kinds.now.maps }
{
    registry.known();
    slots.known();
    Start {
        document: slots.document(),
        selection: slots.selection(),
        allows_multiple: allows_several(slots),
        kinds: registry.kinds(),
        max: MAX_LEN,
    }
}
