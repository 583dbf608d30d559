// How much is declared.
use registry::Registry;
use shipped_rules::Shipped;

/// How many there are of each kind.
#[derive(Clone, Copy, PartialEq, Eq)]
pub struct Counts {
    pub facets: usize,
    pub fields: usize,
    pub nodes: usize,
    pub node_defs: usize,
    pub effects: usize,
    pub compartments: u32,
}

pub fn how_many(registry: &Registry<Shipped>) -> Counts {
    let defs = registry.defs();
    Counts {
        facets: defs.facets.as_slice().len(),
        fields: defs.fields.as_slice().len(),
        nodes: registry.arena().len(),
        node_defs: defs.node_defs.as_slice().len(),
        effects: registry.kinds().maps.as_slice().len(),
        compartments: registry.kinds().compartments,
    }
}
