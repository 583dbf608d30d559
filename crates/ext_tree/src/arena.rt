// The arena of nodes.
ghost use Rattle.std.specs.Prelude.{◌≡◌, ◌<◌, ◌^◌, ◌++◌, ◌∷◌, [], length, slice_get, take, Some, None, OnOk, IfOk, OnErr, IfErr, IfSome};
ghost use Rattle.std.specs.List.{AllByRecursion};
ghost use Rattle.ext_tree.specs.Tree.{IsArena, IsMade, IsOlder, named};
ghost use Rattle.ext_tree.specs.Refusal.{unknown, refusal_of};
ghost use Rattle.ext_tree.specs.declared.node.Node.TheVariants.{Group, Prec, Slot, Input, Field, Init};
ghost use Rattle.ext_tree.specs.declared.ext_error.ExtError.TheVariants.{NoMemory};

use crate::ext_error::ExtError;
use crate::ext_ids::ExtIds;
use crate::node::{ExtId, Node};
use crate::precedence::Precedence;
use crate::unknown::least_unknown;
use std::alloc::Global;
use std::marker::Model;

/// An arena of nodes. It grows at its end, and each node names older nodes alone; the latest nodes can be taken away again.
/// Contracts see it as the list of its nodes; a node's id is its place.
#[derive(Drop)]
pub struct Arena {
    nodes: Vec<Node>,
}

impl Model for Arena {
    ghost use Rattle.std.specs.Prelude.{List};
    ghost use Rattle.ext_tree.specs.declared.node.Node.{Node};

    ghost Value = { List Node };

    ghost use Rattle.ext_tree.specs.Tree.{IsArena};

    ghost view = { λ a. a.nodes.items };

    ghost invariant = { λ a. IsArena a.nodes.items };
}

impl Arena {
    /// No nodes.
    pub fn empty(alloc: Global) -> Self
        ensures { result ≡ [] }
    {
        Arena {
            nodes: Vec::new(alloc),
        }
    }

    /// The nodes in the order of their ids. Takes no memory.
    pub fn nodes(&self) -> &[Node]
        ensures nodes { result.now ≡ self.now }
        ensures older { IsArena self.now }
    {
        &self.nodes
    }

    /// How many nodes there are: a node is known where its id is less than this. Takes no memory.
    pub fn len(&self) -> usize
        ensures { result ≡ length self.now }
    {
        self.nodes.len()
    }

    /// The node of a known id. Takes no memory.
    pub fn node(&self, id: ExtId) -> &Node
        requires { id < length self.now }
        ensures { slice_get self.now id ≡ Some result.now }
    {
        &self.nodes[id as usize]
    }

    /// Adds a node that names older nodes alone.
    fn add(&mut self, node: Node) -> Result<ExtId, ExtError>
        requires room { length self.old < 2 ^ 32 }
        requires older { AllByRecursion (IsOlder (length self.old)) (named (Some node)) }
        ensures made { IfOk result (λ id. IsMade self.old self.new id node) }
        ensures same { OnErr result (self.new ≡ self.old) }
        ensures refuses { IfErr result (λ error. error ≡ NoMemory) }
    {
        let id = self.nodes.len() as ExtId;
        self.nodes.push(node)?;
        Ok(id)
    }

    /// Adds a group of known nodes, in this order. Refused as `UnknownExt` with the least unknown member.
    pub fn group(&mut self, members: &[ExtId]) -> Result<ExtId, ExtError>
        requires { length self.old < 2 ^ 32 }
        ensures made { IfOk result (λ id. IsMade self.old self.new id (Group members.now)) }
        ensures known { OnOk result (unknown (length self.old) members.now ≡ None) }
        ensures refuses { IfErr result (λ error. IfSome (refusal_of error) (λ r. unknown (length self.old) members.now ≡ Some r)) }
        ensures same { OnErr result (self.new ≡ self.old) }
    {
        if let Some(id) = least_unknown(self.len(), members) {
            return Err(ExtError::UnknownExt { id });
        }
        let mut ids = Vec::new(*self.nodes.allocator());
        ids.extend_from_slice(members)?;
        self.add(Node::Group(ExtIds::of(ids)))
    }

    /// Adds a wrapper that gives a known node a precedence. (Reference Manual, Prec.) Refused as `UnknownExt` where the
    /// node is unknown.
    pub fn prec(&mut self, precedence: Precedence, node: ExtId) -> Result<ExtId, ExtError>
        requires { length self.old < 2 ^ 32 }
        ensures made { IfOk result (λ id. IsMade self.old self.new id (Prec precedence node)) }
        ensures known { OnOk result (unknown (length self.old) (node ∷ []) ≡ None) }
        ensures refuses { IfErr result (λ error. IfSome (refusal_of error) (λ r. unknown (length self.old) (node ∷ []) ≡ Some r)) }
        ensures same { OnErr result (self.new ≡ self.old) }
    {
        if node as usize >= self.nodes.len() {
            return Err(ExtError::UnknownExt { id: node });
        }
        self.add(Node::Prec(precedence, node))
    }

    /// Adds a slot of a compartment with a known node as its own content. (Reference Manual, Compartment.of.) Refused as
    /// `UnknownExt` where the content is unknown.
    pub fn slot(&mut self, compartment: u32, content: ExtId) -> Result<ExtId, ExtError>
        requires { length self.old < 2 ^ 32 }
        ensures made { IfOk result (λ id. IsMade self.old self.new id (Slot compartment content)) }
        ensures known { OnOk result (unknown (length self.old) (content ∷ []) ≡ None) }
        ensures refuses { IfErr result (λ error. IfSome (refusal_of error) (λ r. unknown (length self.old) (content ∷ []) ≡ Some r)) }
        ensures same { OnErr result (self.new ≡ self.old) }
    {
        if content as usize >= self.nodes.len() {
            return Err(ExtError::UnknownExt { id: content });
        }
        self.add(Node::Slot {
            compartment,
            content,
        })
    }

    /// Adds an input of a facet. (Reference Manual, Facet.of.) Its only error is out of memory.
    pub fn input(&mut self, facet: u32) -> Result<ExtId, ExtError>
        requires { length self.old < 2 ^ 32 }
        ensures made { IfOk result (λ id. IsMade self.old self.new id (Input facet)) }
        ensures same { OnErr result (self.new ≡ self.old) }
        ensures refuses { IfErr result (λ error. error ≡ NoMemory) }
    {
        self.add(Node::Input(facet))
    }

    /// Adds a field. (Reference Manual, StateField.) Its only error is out of memory.
    pub fn field(&mut self, field: u32) -> Result<ExtId, ExtError>
        requires { length self.old < 2 ^ 32 }
        ensures made { IfOk result (λ id. IsMade self.old self.new id (Field field)) }
        ensures same { OnErr result (self.new ≡ self.old) }
        ensures refuses { IfErr result (λ error. error ≡ NoMemory) }
    {
        self.add(Node::Field(field))
    }

    /// Adds the init of a field. (Reference Manual, StateField.init.) Its only error is out of memory.
    pub fn init(&mut self, field: u32) -> Result<ExtId, ExtError>
        requires { length self.old < 2 ^ 32 }
        ensures made { IfOk result (λ id. IsMade self.old self.new id (Init field)) }
        ensures same { OnErr result (self.new ≡ self.old) }
        ensures refuses { IfErr result (λ error. error ≡ NoMemory) }
    {
        self.add(Node::Init(field))
    }

    /// Takes away the nodes from a count on, which the caller made and gives up. Takes no memory.
    pub fn truncate(&mut self, count: usize)
        ensures { self.new ≡ take count self.old }
    {
        self.nodes.truncate(count);
    }
}
