// What leaves are followed by.
ghost use Rattle.std.specs.Prelude.{◌≡◌, ◌<◌, ◌++◌, ◌∷◌, [], length, set, take, Some, IfOk, OnOk, OnErr, true, false};
ghost use Rattle.std.specs.List.{AllByRecursion};
ghost use Rattle.ext_tree.specs.Tree.{listed, linked, IsOlder, AreLinksOlder};
ghost use Rattle.ext_tree.specs.Shared.{is_list_walked};
ghost use Rattle.ext_tree.specs.declared.shared_list.SharedList.{SharedList};
ghost use Rattle.ext_tree.specs.Links.{LinkLists};

use crate::arena::Arena;
use crate::ext_ids::ExtIds;
use crate::node::{ExtId, Node};
use crate::walked_lists::WalkedLists;
use std::alloc::{AllocError, Global};
use std::marker::Model;

/// What leaves are followed by: an input of a facet by the nodes that the facet enables, each node of a field by the
/// nodes that the field provides. (Reference Manual, Facet.define, enables; StateField.define, provide.)
#[derive(Drop)]
pub struct Links {
    enabled: Vec<ExtIds>,
    provided: Vec<ExtIds>,
}

impl Model for Links {
    ghost use Rattle.ext_tree.specs.Links.{LinkLists};

    ghost Value = { LinkLists };

    ghost view = { λ l. record { enabled = l.enabled.items; provided = l.provided.items } };
}

impl Links {
    /// Links of no facet and no field.
    pub fn empty(alloc: Global) -> Self
        ensures { result ≡ record { enabled = []; provided = [] } }
    {
        Links {
            enabled: Vec::new(alloc),
            provided: Vec::new(alloc),
        }
    }

    /// Adds the next facet, which enables these nodes. When out of memory the links are as before.
    pub fn add_facet(&mut self, nodes: ExtIds) -> Result<(), AllocError>
        ensures added { OnOk result (self.new ≡ record { enabled = self.old.enabled ++ nodes ∷ []; provided = self.old.provided }) }
        ensures same { OnErr result (self.new ≡ self.old) }
    {
        self.enabled.push(nodes)?;
        Ok(())
    }

    /// Adds the next field, which provides these nodes. When out of memory the links are as before.
    pub fn add_field(&mut self, nodes: ExtIds) -> Result<(), AllocError>
        ensures added { OnOk result (self.new ≡ record { enabled = self.old.enabled; provided = self.old.provided ++ nodes ∷ [] }) }
        ensures same { OnErr result (self.new ≡ self.old) }
    {
        self.provided.push(nodes)?;
        Ok(())
    }

    /// Makes a field that was added provide these nodes, in place of those before. Takes no memory.
    pub fn provide(&mut self, field: u32, nodes: ExtIds)
        requires { field < length self.old.provided }
        ensures { self.new ≡ record { enabled = self.old.enabled; provided = set self.old.provided field nodes } }
    {
        self.provided[field as usize] = nodes;
    }

    /// Takes away the fields from a count on. Takes no memory.
    pub fn truncate_fields(&mut self, count: usize)
        ensures { self.new ≡ record { enabled = self.old.enabled; provided = take count self.old.provided } }
    {
        self.provided.truncate(count);
    }

    /// No marks on these lists, for a walk.
    pub(crate) fn unwalked(&self, alloc: Global) -> Result<WalkedLists, AllocError>
        ensures { IfOk result (λ lists. (x : SharedList) → is_list_walked lists.facets.walked.items lists.fields.walked.items x ≡ false) }
    {
        WalkedLists::new(alloc, self.enabled.len(), self.provided.len())
    }

    /// The nodes that a facet enables, none where it wasn't added. Takes no memory.
    pub fn enabled(&self, facet: u32) -> &[ExtId]
        ensures { result.now ≡ listed self.now.enabled facet }
    {
        match self.enabled.get(facet as usize) {
            Some(nodes) => nodes.ids(),
            None => &[],
        }
    }

    /// The nodes that a field provides, none where it wasn't added. Takes no memory.
    pub fn provided(&self, field: u32) -> &[ExtId]
        ensures { result.now ≡ listed self.now.provided field }
    {
        match self.provided.get(field as usize) {
            Some(nodes) => nodes.ids(),
            None => &[],
        }
    }
}

/// Whether all of some nodes are older than a node.
fn are_older(nodes: &[ExtId], node: usize) -> bool
    ensures older { result ≡ true → AllByRecursion (IsOlder node) nodes.now }
    ensures all { AllByRecursion (IsOlder node) nodes.now → result ≡ true }
{
    for other in nodes {
        if *other as usize >= node {
            return false;
        }
    }
    true
}

/// Whether what a node at a place is followed by, if it is a leaf, is older.
fn is_leaf_older(links: &Links, node: &Node, place: usize) -> bool
    ensures older { result ≡ true → AllByRecursion (IsOlder place) (linked links.now (Some node.now)) }
    ensures all { AllByRecursion (IsOlder place) (linked links.now (Some node.now)) → result ≡ true }
{
    match node {
        Node::Input(facet) => are_older(links.enabled(*facet), place),
        Node::Field(field) | Node::Init(field) => are_older(links.provided(*field), place),
        _ => true,
    }
}

/// Whether what each leaf of an arena is followed by is older than the leaf, as `flatten` needs it. Takes no memory.
pub fn are_links_older(arena: &Arena, links: &Links) -> bool
    ensures older { result ≡ true → AreLinksOlder arena.now links.now }
    ensures all { AreLinksOlder arena.now links.now → result ≡ true }
{
    let nodes = arena.nodes();
    for (place, node) in nodes.iter().enumerate() {
        if !is_leaf_older(links, node, place) {
            return false;
        }
    }
    true
}
