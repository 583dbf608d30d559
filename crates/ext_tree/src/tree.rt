// An arena with the set contents and the links of one configuration.
ghost use Rattle.std.specs.Prelude.{◌≡◌, ◌<◌, MatchOption, Some, length, drop, true, false};
ghost use Rattle.ext_tree.specs.Unfolding.{compartment_of, is_slot_of, precedence_below, stands_on};
ghost use Rattle.ext_tree.specs.Refusal.{from_slot};
ghost use Rattle.ext_tree.specs.Flat.{is_leaf};
ghost use Rattle.ext_tree.specs.Shared.{list_after};

use crate::links::Links;
use crate::node::{ExtId, Node};
use crate::precedence::Precedence;
use crate::shared_list::SharedList;
use crate::visit::Visit;
use compartments::Contents;
use std::marker::Model;

/// The nodes of an arena as they stand in one configuration.
#[derive(Drop)]
pub struct Tree<'a> {
    pub nodes: &'a [Node],
    pub contents: &'a Contents,
    pub links: &'a Links,
}

impl<'a> Model for Tree<'a> {
    ghost use Rattle.ext_tree.specs.Tree.{Tree};

    ghost Value = { Tree };

    ghost view = { λ t. record { nodes = t.nodes.now; contents = t.contents.now; links = t.links.now } };
}

impl<'a> Tree<'a> {
    /// The compartment of a slot.
    pub fn compartment_of(&self, node: ExtId) -> Option<u32>
        ensures { result ≡ compartment_of self.now node }
    {
        match self.nodes.get(node as usize) {
            Some(Node::Slot { compartment, .. }) => Some(*compartment),
            _ => None,
        }
    }

    /// Whether a node is an input, a field or the init of one.
    pub fn is_leaf(&self, node: ExtId) -> bool
        ensures { result ≡ is_leaf self.now node }
    {
        match self.nodes.get(node as usize) {
            Some(Node::Input(_)) | Some(Node::Field(_)) | Some(Node::Init(_)) => true,
            _ => false,
        }
    }

    /// Whether a node is a slot of the compartment.
    pub fn is_slot_of(&self, compartment: u32, node: ExtId) -> bool
        ensures { result ≡ is_slot_of self.now compartment node }
    {
        match self.compartment_of(node) {
            Some(own) => compartment == own,
            None => false,
        }
    }

    /// The precedence of what a visited node is followed by.
    pub fn precedence_below(&self, visit: Visit) -> Precedence
        ensures { result ≡ precedence_below self.now visit.node visit.precedence }
    {
        match self.nodes.get(visit.node as usize) {
            Some(Node::Prec(precedence, _)) => *precedence,
            Some(Node::Input(_)) => Precedence::Default,
            _ => visit.precedence,
        }
    }

    /// The shared list that a visited node is followed by, if it is a leaf.
    pub fn list_after(&self, visit: Visit) -> Option<SharedList>
        ensures { result ≡ list_after self.now visit }
    {
        match self.nodes.get(visit.node as usize) {
            Some(Node::Input(facet)) => Some(SharedList::Enabled(*facet)),
            Some(Node::Field(field)) | Some(Node::Init(field)) => {
                Some(SharedList::Provided(*field, visit.precedence))
            }
            _ => None,
        }
    }

    /// Where the compartment's slot stands on a path.
    pub fn place_on(&self, path: &[ExtId], compartment: u32) -> Option<usize>
        ensures { MatchOption result (stands_on self.now path.now (Some compartment) ≡ false) (λ i. (stands_on self.now path.now (Some compartment) ≡ true) × (i < length path.now) × (drop i path.now ≡ from_slot self.now compartment path.now)) }
    {
        for (place, slot) in path.iter().enumerate() {
            if self.is_slot_of(compartment, *slot) {
                return Some(place);
            }
        }
        None
    }
}
