// The definitions that a configuration is resolved over.
ghost use Rattle.std.specs.Prelude.{◌≡◌, ◌<◌, ◌+◌, ◌^◌, length};

use crate::facet_def::FacetDef;
use crate::field_def::FieldDef;
use crate::node_def::NodeDef;
use ext_tree::Links;
use listed::Listed;

/// The definitions of facets, fields and nodes, each at its id, `V` being the type of values; and what facets enable and
/// fields provide.
#[derive(Drop)]
pub struct Defs<V> {
    /// The facets by id.
    pub facets: Listed<FacetDef>,
    /// The fields by id.
    pub fields: Listed<FieldDef>,
    /// The nodes of the arena by id.
    pub node_defs: Listed<NodeDef<V>>,
    /// What inputs and fields are followed by.
    pub links: Links,
    ghost fits: { length facets + length fields < 2 ^ 32 },
}

impl<V> Defs<V> {
    /// How many facets there are. Takes no memory.
    pub fn facet_count(&self) -> u32
        ensures { result ≡ length self.now.facets }
    {
        self.facets.as_slice().len() as u32
    }

    /// How many fields there are. Takes no memory.
    pub fn field_count(&self) -> u32
        ensures { result ≡ length self.now.fields }
    {
        self.fields.as_slice().len() as u32
    }

    /// How many vertices the dependency graph has: the facets and the fields. Takes no memory.
    pub fn vertex_count(&self) -> u32
        ensures { result ≡ length self.now.facets + length self.now.fields }
    {
        self.facet_count() + self.field_count()
    }
}
