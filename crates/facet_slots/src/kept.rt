use crate::shelf::Shelf;
use values::Scene;

/// A document with its selection, and what is kept of the facets and fields of a state: their values, what the inputs of each
/// facet give, and whether the transition that made the state flagged them.
#[derive(Drop)]
pub struct Kept {
    pub scene: Scene,
    pub shelf: Shelf,
}
