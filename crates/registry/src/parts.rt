// What a registry holds.
ghost use Rattle.std.specs.Prelude.{◌≡◌, ◌<◌, ◌≤◌, ◌-◌, length, slice_get, is_none, Some, IfOk, OnOk, OnErr};
ghost use Rattle.std.specs.List.{range_with_len};
ghost use Rattle.transaction.specs.Effects.{map_of};
ghost use Rattle.values.specs.Declarations.{AreDefs, is_placed, nothing, with_compartment, with_effect, with_facet, with_field, with_node, with_pair, with_placed, max_count};
ghost use Rattle.registry.specs.PrivateUndoing.{shortened};

use crate::linked;
use crate::undo::{push_both, shorten};
use configuration::{Defs, FacetDef, FieldDef, NodeDef};
use ext_tree::{Arena, ExtId, ExtIds, Links, Node};
use listed::Listed;
use std::alloc::{AllocError, Global};
use std::marker::Model;
use transaction::EffectKinds;
use values::Val;

/// The ids from one to another.
fn ids_between(alloc: Global, first: ExtId, end: ExtId) -> Result<ExtIds, AllocError>
    ensures { IfOk result (λ ids. ids ≡ range_with_len first (end - first)) }
{
    let mut ids = Vec::new(alloc);
    for id in first..end {
        ids.push(id)?;
    }
    Ok(ExtIds::of(ids))
}

/// What a registry holds, lawful or not. Contracts see it as plain data.
#[derive(Drop)]
pub(crate) struct Parts {
    alloc: Global,
    defs: Defs<Val>,
    arena: Arena,
    placed: Vec<bool>,
    kinds: EffectKinds,
    pairs: Vec<Option<u32>>,
}

impl Model for Parts {
    ghost use Rattle.std.specs.Coded.{codes};
    ghost use Rattle.cm_plain.specs.Datum.{coded_datum};
    ghost use Rattle.values.specs.Declarations.{Declarations};

    ghost Value = { Declarations };

    ghost coded = { Prim.hlevel (codes, coded_datum) };

    ghost view = { λ p. record {
      facets = p.defs.facets;
      fields = p.defs.fields;
      nodes = p.arena;
      node_defs = p.defs.node_defs;
      links = p.defs.links;
      placed = p.placed.items;
      maps = p.kinds.maps;
      pairs = p.pairs.items;
      compartments = p.kinds.compartments;
    } };
}

impl Parts {
    /// Nothing declared. Takes no memory.
    pub fn empty(alloc: Global) -> Self
        ensures { result ≡ nothing }
    {
        Parts {
            alloc,
            defs: Defs {
                facets: Listed::empty(alloc),
                fields: Listed::empty(alloc),
                node_defs: Listed::empty(alloc),
                links: Links::empty(alloc),
            },
            arena: Arena::empty(alloc),
            placed: Vec::new(alloc),
            kinds: EffectKinds {
                maps: Listed::empty(alloc),
                compartments: 0,
            },
            pairs: Vec::new(alloc),
        }
    }

    /// The allocator.
    pub fn allocator(&self) -> Global {
        self.alloc
    }

    /// The definitions. Takes no memory.
    pub fn defs(&self) -> &Defs<Val>
        ensures { AreDefs result.now self.now }
    {
        &self.defs
    }

    /// The nodes. Takes no memory.
    pub fn arena(&self) -> &Arena
        ensures { result.now ≡ self.now.nodes }
    {
        &self.arena
    }

    /// The effect kinds, and how many compartments there are. Takes no memory.
    pub fn kinds(&self) -> &EffectKinds
        ensures maps { result.now.maps ≡ self.now.maps }
        ensures compartments { result.now.compartments ≡ self.now.compartments }
    {
        &self.kinds
    }

    /// By effect kind, the kind that undoes it, if there is one. Takes no memory.
    pub fn pairs(&self) -> &[Option<u32>]
        ensures { result.now ≡ self.now.pairs }
    {
        &self.pairs
    }

    pub fn facet_count(&self) -> usize
        ensures { result ≡ length self.now.facets }
    {
        self.defs.facets.as_slice().len()
    }

    pub fn field_count(&self) -> usize
        ensures { result ≡ length self.now.fields }
    {
        self.defs.fields.as_slice().len()
    }

    pub fn node_count(&self) -> usize
        ensures { result ≡ length self.now.nodes }
    {
        self.arena.len()
    }

    pub fn effect_count(&self) -> usize
        ensures { result ≡ length self.now.maps }
    {
        self.kinds.maps.as_slice().len()
    }

    pub fn compartment_count(&self) -> u32
        ensures { result ≡ self.now.compartments }
    {
        self.kinds.compartments
    }

    /// The definition of a facet that is declared.
    pub fn facet(&self, facet: u32) -> &FacetDef
        requires { facet < length self.now.facets }
        ensures { slice_get self.now.facets facet ≡ Some result.now }
    {
        &self.defs.facets.as_slice()[facet as usize]
    }

    /// The definition of a field that is declared.
    pub fn field(&self, field: u32) -> &FieldDef
        requires { field < length self.now.fields }
        ensures { slice_get self.now.fields field ≡ Some result.now }
    {
        &self.defs.fields.as_slice()[field as usize]
    }

    /// Whether a field is placed.
    pub fn is_placed(&self, field: u32) -> bool
        ensures { result ≡ is_placed self.now field }
    {
        match self.placed.get(field as usize) {
            Some(placed) => *placed,
            None => false,
        }
    }

    /// Adds a facet. When out of memory all is as before.
    pub fn add_facet(&mut self, def: FacetDef, enables: ExtIds) -> Result<(), AllocError>
        requires room { length self.old.facets < max_count }
        requires fields { length self.old.fields ≤ max_count }
        ensures added { OnOk result (self.new ≡ with_facet self.old def enables) }
        ensures same { OnErr result (self.new ≡ self.old) }
    {
        linked::add_facet(
            self.alloc,
            &mut self.defs.facets,
            &mut self.defs.links,
            def,
            enables,
        )?;
        Ok(())
    }

    /// Adds a field that isn't placed. When out of memory all is as before.
    pub fn add_field(&mut self, def: FieldDef) -> Result<(), AllocError>
        requires room { length self.old.fields < max_count }
        requires facets { length self.old.facets ≤ max_count }
        ensures added { OnOk result (self.new ≡ with_field self.old def) }
        ensures same { OnErr result (self.new ≡ self.old) }
    {
        self.placed.push(false)?;
        match linked::add_field(self.alloc, &mut self.defs.fields, &mut self.defs.links, def) {
            Ok(()) => Ok(()),
            Err(error) => {
                self.placed.pop();
                Err(error)
            }
        }
    }

    /// Adds a node that names known nodes alone, with its definition. When out of memory all is as before.
    pub fn add_node(&mut self, node: &Node, def: NodeDef<Val>) -> Result<ExtId, AllocError>
        requires { length self.old.nodes < max_count }
        ensures id { IfOk result (λ id. id ≡ length self.old.nodes) }
        ensures added { OnOk result (self.new ≡ with_node self.old node.now def) }
        ensures same { OnErr result (self.new ≡ self.old) }
    {
        let id = linked::add_node(
            self.alloc,
            &mut self.arena,
            &mut self.defs.node_defs,
            node,
            def,
        )?;
        Ok(id)
    }

    /// Adds the node of a field, which provides nodes. When out of memory all is as before.
    pub fn place(&mut self, field: u32, provides: ExtIds) -> Result<ExtId, AllocError>
        requires room { length self.old.nodes < max_count }
        requires placed { field < length self.old.placed }
        requires provided { field < length self.old.links.provided }
        ensures id { IfOk result (λ id. id ≡ length self.old.nodes) }
        ensures placed { OnOk result (self.new ≡ with_placed self.old field provides) }
        ensures same { OnErr result (self.new ≡ self.old) }
    {
        let id = linked::add_node(
            self.alloc,
            &mut self.arena,
            &mut self.defs.node_defs,
            &Node::Field(field),
            NodeDef::Field,
        )?;
        self.defs.links.provide(field, provides);
        self.placed[field as usize] = true;
        Ok(id)
    }

    /// The ids of the nodes from one on.
    pub fn nodes_from(&self, first: ExtId) -> Result<ExtIds, AllocError>
        requires first { first ≤ length self.now.nodes }
        requires count { length self.now.nodes ≤ max_count }
        ensures { IfOk result (λ ids. ids ≡ range_with_len first (length self.now.nodes - first)) }
    {
        ids_between(self.alloc, first, self.node_count() as u32)
    }

    /// Takes away the fields and the nodes from these counts on. Takes no memory.
    pub fn shorten(&mut self, fields: usize, nodes: usize)
        ensures { self.new ≡ shortened self.old fields nodes }
    {
        shorten(self.alloc, &mut self.defs.fields, fields);
        shorten(self.alloc, &mut self.defs.node_defs, nodes);
        self.defs.links.truncate_fields(fields);
        self.arena.truncate(nodes);
        self.placed.truncate(fields);
    }

    /// Adds an effect kind. When out of memory all is as before.
    pub fn add_effect(&mut self, map: Option<u32>) -> Result<(), AllocError>
        ensures added { OnOk result (self.new ≡ with_effect self.old map) }
        ensures same { OnErr result (self.new ≡ self.old) }
    {
        push_both(self.alloc, &mut self.kinds.maps, map, &mut self.pairs, None)?;
        Ok(())
    }

    /// Adds a compartment. Takes no memory.
    pub fn add_compartment(&mut self)
        requires { self.old.compartments < max_count }
        ensures { self.new ≡ with_compartment self.old }
    {
        self.kinds.compartments += 1;
    }

    /// The map number of an effect kind, if it has one.
    pub fn map_of(&self, effect: u32) -> Option<u32>
        ensures { result ≡ map_of self.now.maps effect }
    {
        self.kinds.map_of(effect)
    }

    /// Whether an effect kind has no pair.
    pub fn is_unpaired(&self, effect: u32) -> bool
        ensures { result ≡ is_none (map_of self.now.pairs effect) }
    {
        match self.pairs.get(effect as usize) {
            Some(pair) => pair.is_none(),
            None => true,
        }
    }

    /// Makes two effect kinds each other's pair. Takes no memory.
    pub fn pair(&mut self, effect: u32, back: u32)
        requires effect { effect < length self.old.pairs }
        requires back { back < length self.old.pairs }
        ensures { self.new ≡ with_pair self.old effect back }
    {
        self.pairs[effect as usize] = Some(back);
        self.pairs[back as usize] = Some(effect);
    }
}
