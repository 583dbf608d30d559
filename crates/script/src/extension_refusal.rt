use cm_plain::Str;
use listed::Listed;

/// Why extensions that are all known make no configuration. What has an id is named by its name.
#[derive(Debug, Drop)]
pub enum ExtensionRefusal {
    /// This compartment has two slots.
    DuplicateCompartment {
        compartment: Str,
        first: Str,
        second: Str,
    },
    /// A compartment is part of its own content: the slots from the one that has it to the one in it.
    CompartmentLoop {
        path: Listed<Str>,
    },
    /// Facets and fields depend on one another: each member on the next, and the last on the first.
    Cycle {
        members: Listed<Str>,
    },
}
