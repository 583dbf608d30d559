// A resolved configuration.
ghost use Rattle.std.specs.Prelude.{◌≡◌, ◌<◌, IfOk, IfErr, length, get_or, []};
ghost use Rattle.ext_tree.specs.Tree.{AreLinksOlder, tree_of};
ghost use Rattle.configuration.specs.Resolved.{IsConfig, IsCause};

use crate::config_error::ConfigError;
use crate::defs::Defs;
use crate::ordering::ordered;
use crate::pairs::dependency_pairs;
use crate::present::{compartments_of, inputs_by_facet, nodes_by_field};
use crate::vertex::Vertex;
use compartments::Contents;
use ext_tree::{Arena, ExtId, Flat, flatten};
use listed::Listed;
use std::alloc::{AllocError, Global};
use std::marker::Model;

/// What the extensions of a base come to. (System Guide, Configuration.)
#[derive(Drop)]
pub struct Config {
    base: Vec<ExtId>,
    flat: Vec<ExtId>,
    inputs: Vec<Listed<ExtId>>,
    fields: Vec<Option<ExtId>>,
    order: Vec<Vertex>,
    contents: Contents,
}

impl Model for Config {
    ghost use Rattle.configuration.specs.Config.{ConfigView};

    ghost Value = { ConfigView };

    ghost view = { λ c. record {
      base = c.base.items;
      flat = c.flat.items;
      inputs = c.inputs.items;
      fields = c.fields.items;
      order = c.order.items;
      contents = c.contents;
    } };
}

fn copied(alloc: Global, ids: &[ExtId]) -> Result<Vec<ExtId>, AllocError>
    ensures { IfOk result (λ copy. copy.items ≡ ids.now) }
{
    ids.to_vec(alloc)
}

impl Config {
    /// The configuration of a base, which is a list of nodes: the root's, then what was appended. What each leaf is
    /// followed by must be older than the leaf. Refused, in this order: as `UnknownExt` with the least of the base and
    /// the set contents that is no node; as `CompartmentLoop` or `DuplicateCompartment`, whichever the walk meets first;
    /// as `Cycle` exactly where the dependencies of what is present have a circle, with its members.
    pub fn resolve<V>(
        alloc: Global,
        arena: &Arena,
        defs: &Defs<V>,
        base: &[ExtId],
        contents: &Contents,
    ) -> Result<Self, ConfigError>
        requires { AreLinksOlder arena.now defs.now.links }
        ensures config { IfOk result (λ config. IsConfig (tree_of arena.now contents.now defs.now.links) defs.now.facets defs.now.fields defs.now.node_defs base.now config) }
        ensures refuses { IfErr result (λ error. IsCause (tree_of arena.now contents.now defs.now.links) defs.now.facets defs.now.fields defs.now.node_defs base.now error) }
    {
        let Flat { order: flat, slots } = flatten(alloc, arena, base, contents, &defs.links)?;
        let nodes = arena.nodes();
        let inputs = inputs_by_facet(alloc, nodes, defs.facet_count(), &flat)?;
        let fields = nodes_by_field(alloc, nodes, defs.field_count(), &flat)?;
        let edges = dependency_pairs(alloc, defs, &inputs, &fields)?;
        let order = ordered(alloc, defs.facet_count(), defs.vertex_count(), edges)?;
        let compartments = compartments_of(alloc, nodes, &slots)?;
        Ok(Config {
            base: copied(alloc, base)?,
            flat,
            inputs,
            fields,
            order,
            contents: contents.keep_only(&compartments)?,
        })
    }

    /// The ids of the base, in order. Takes no memory.
    pub fn base(&self) -> &[ExtId]
        ensures { result.now ≡ self.now.base }
    {
        &self.base
    }

    /// The leaves in flat order, each once. Takes no memory.
    pub fn flat(&self) -> &[ExtId]
        ensures { result.now ≡ self.now.flat }
    {
        &self.flat
    }

    /// How many facets were declared: a facet is known where its id is less than this. Takes no memory.
    pub fn facet_count(&self) -> usize
        ensures { result ≡ length self.now.inputs }
    {
        self.inputs.len()
    }

    /// The input nodes of a facet that was declared, in flat order. Takes no memory.
    pub fn inputs(&self, facet: u32) -> &[ExtId]
        requires { facet < length self.now.inputs }
        ensures { result.now ≡ get_or self.now.inputs facet [] }
    {
        self.inputs[facet as usize].as_slice()
    }

    /// For each field that was declared its first node in flat order, none where it is absent. Takes no memory.
    pub fn fields(&self) -> &[Option<ExtId>]
        ensures { result.now ≡ self.now.fields }
    {
        &self.fields
    }

    /// The facets and fields that were declared, each once and after what it depends on. Takes no memory.
    pub fn order(&self) -> &[Vertex]
        ensures { result.now ≡ self.now.order }
    {
        &self.order
    }

    /// The set contents of the compartments that were met. Takes no memory.
    pub fn contents(&self) -> &Contents
        ensures { result.now ≡ self.now.contents }
    {
        &self.contents
    }
}
