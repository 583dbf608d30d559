// A configuration over definitions, and what stands in it.
ghost use Rattle.std.specs.Prelude.{◌≡◌, MatchOption, None, Some, get_or, length, []};
ghost use Rattle.facet_slots.specs.Setups.{facet_at, field_at, field_with, init_of, node_at};
ghost use Rattle.facet_slots.specs.Lent.{facet_in, present_of, setup_of};
ghost use Rattle.std.specs.Prelude.{slice_get, option_copied};

use configuration::{Config, Defs, FacetDef, FieldDef, NodeDef, Vertex};
use values::Val;

/// A configuration over some definitions, both lent; with no configuration that of nothing.
#[derive(Clone, Copy, Drop)]
pub struct Setup<'a> {
    pub defs: &'a Defs<Val>,
    pub config: Option<&'a Config>,
}

/// A field that is present, and its first value where its node gives one, both lent.
#[derive(Clone, Copy, Drop)]
pub struct Present<'a> {
    pub def: &'a FieldDef,
    pub init: Option<&'a Val>,
}

/// The first value that a node gives its field.
fn init_at(defs: &Defs<Val>, node: u32) -> Option<&Val>
    ensures { option_copied result ≡ init_of (slice_get defs.now.node_defs node) }
{
    match defs.node_defs.as_slice().get(node as usize) {
        Some(NodeDef::Init(value)) => Some(value),
        _ => None,
    }
}

/// The input nodes of a facet, none of one that was declared after the configuration was resolved.
fn inputs_of(config: &Config, facet: u32) -> &[u32]
    ensures { result.now ≡ get_or config.now.inputs facet [] }
{
    if (facet as usize) < config.facet_count() {
        config.inputs(facet)
    } else {
        &[]
    }
}

impl<'a> Setup<'a> {
    /// How many facets were declared when the configuration was resolved. Takes no memory.
    pub fn facet_count(&self) -> usize
        ensures { result ≡ length (setup_of self.now).config.inputs }
    {
        match self.config {
            Some(config) => config.facet_count(),
            None => 0,
        }
    }

    /// For each field that was declared then its first node in flat order, none where it is absent. Takes no memory.
    pub fn fields(&self) -> &'a [Option<u32>]
        ensures { result.now ≡ (setup_of self.now).config.fields }
    {
        match self.config {
            Some(config) => config.fields(),
            None => &[],
        }
    }

    /// The facets and fields that were declared then, each once and after what it depends on. Takes no memory.
    pub fn order(&self) -> &'a [Vertex]
        ensures { result.now ≡ (setup_of self.now).config.order }
    {
        match self.config {
            Some(config) => config.order(),
            None => &[],
        }
    }

    /// The input nodes of a facet, in flat order; none of a facet that was declared after the configuration was resolved.
    /// Takes no memory.
    pub fn inputs(&self, facet: u32) -> &'a [u32]
        ensures { result.now ≡ get_or (setup_of self.now).config.inputs facet [] }
    {
        match self.config {
            Some(config) => inputs_of(config, facet),
            None => &[],
        }
    }

    /// The node of a field that is present.
    fn node(&self, field: u32) -> Option<u32>
        ensures { result ≡ node_at (setup_of self.now) field }
    {
        match self.fields().get(field as usize) {
            Some(Some(node)) => Some(*node),
            _ => None,
        }
    }

    /// A field with its first node.
    fn with_node(&self, field: u32, node: u32) -> Option<Present<'a>>
        ensures { MatchOption result (field_with (setup_of self.now) field node ≡ None) (λ p. field_with (setup_of self.now) field node ≡ Some (present_of p)) }
    {
        match self.defs.fields.as_slice().get(field as usize) {
            Some(def) => Some(Present {
                def,
                init: init_at(self.defs, node),
            }),
            None => None,
        }
    }

    /// A field, where it is present. Takes no memory.
    pub fn field(&self, field: u32) -> Option<Present<'a>>
        ensures { MatchOption result (field_at (setup_of self.now) field ≡ None) (λ p. field_at (setup_of self.now) field ≡ Some (present_of p)) }
    {
        match self.node(field) {
            Some(node) => self.with_node(field, node),
            None => None,
        }
    }

    /// A facet, where it is declared. Takes no memory.
    pub fn facet(&self, facet: u32) -> Option<&'a FacetDef>
        ensures { MatchOption result (facet_at (setup_of self.now) facet ≡ None) (λ def. facet_at (setup_of self.now) facet ≡ Some (facet_in self.now def.now facet)) }
    {
        self.defs.facets.as_slice().get(facet as usize)
    }
}
