// The order in which values are found: the facets and fields of a configuration in dependency order, and then the facets that
// were declared since.
ghost use Rattle.std.specs.Prelude.{◌≡◌, ◌<◌, ◌≤◌, length, slice_get, Some};
ghost use Rattle.facet_slots.specs.Setups.{order_of};
ghost use Rattle.facet_slots.specs.Lent.{setup_of};

use crate::setup::Setup;
use configuration::Vertex;

/// How many facets and fields stand in the order. Takes no memory.
pub fn order_len(setup: &Setup) -> usize
    requires { length (setup_of setup.now).config.inputs ≤ length (setup_of setup.now).defs.facets }
    ensures { result ≡ length (order_of (setup_of setup.now)) }
{
    let since = setup.defs.facet_count() as usize - setup.facet_count();
    setup.order().len() + since
}

/// The facet or field at a place of the order. Takes no memory.
pub fn vertex_at(setup: &Setup, place: usize) -> Vertex
    requires placed { length (setup_of setup.now).config.inputs ≤ length (setup_of setup.now).defs.facets }
    requires inside { place < length (order_of (setup_of setup.now)) }
    ensures { slice_get (order_of (setup_of setup.now)) place ≡ Some result }
{
    match setup.order().get(place) {
        Some(vertex) => *vertex,
        None => {
            let since = place - setup.order().len();
            Vertex::Facet((setup.facet_count() + since) as u32)
        }
    }
}
