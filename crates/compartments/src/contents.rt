// What compartments were set to.
ghost use Rattle.std.specs.Prelude.{◌≡◌, ℕ, List, [], Some, ◌≢◌, IfOk, OnOk, OnErr};
ghost use Rattle.std.specs.Map.Iter.{ShowsInOrder, deref};
ghost use Rattle.compartments.specs.Contents.{content_of, with_content, AreAscending, kept_content, content_nodes};

use std::alloc::{AllocError, Global};
use std::collections::BTreeMap;
use std::collections::btree_map::Values;
use std::marker::Model;

/// The set contents of compartments: for each compartment that was set, the id of the node that is its content.
/// Contracts see the pairs of both, by compartment. (Reference Manual, Compartment.)
#[derive(Drop)]
pub struct Contents {
    nodes: BTreeMap<u32, u32>,
    alloc: Global,
}

impl Model for Contents {
    ghost Value = { List (ℕ × ℕ) };

    ghost view = { λ c. c.nodes.entries };
}

impl Contents {
    /// No compartment is set.
    pub fn empty(alloc: Global) -> Self
        ensures { result ≡ [] }
    {
        Contents {
            nodes: BTreeMap::new(alloc),
            alloc,
        }
    }

    /// The node that a compartment was set to. `None` exactly where it wasn't set. Takes no memory.
    pub fn get(&self, compartment: u32) -> Option<u32>
        ensures { result ≡ content_of self.now compartment }
    {
        self.nodes.get(&compartment).copied()
    }

    /// The nodes that compartments are set to, by compartment. Takes no memory.
    pub fn nodes(&self) -> Values<'_, u32, u32>
        ensures nodes { result ≡ content_nodes self.now }
        ensures in_order { ShowsInOrder (deref {X = ℕ}) }
        ensures ascending { AreAscending self.now }
    {
        self.nodes.values()
    }

    /// Sets the content of a compartment, in place of what it was set to before.
    /// (Reference Manual, Compartment.reconfigure.) When out of memory the contents are as before.
    pub fn set(&mut self, compartment: u32, node: u32) -> Result<(), AllocError>
        ensures set { OnOk result (self.new ≡ with_content self.old compartment node) }
        ensures here { OnOk result (content_of self.new compartment ≡ Some node) }
        ensures others { OnOk result ((c : ℕ) → c ≢ compartment → content_of self.new c ≡ content_of self.old c) }
        ensures same { OnErr result (self.new ≡ self.old) }
    {
        self.nodes.insert(compartment, node)?;
        Ok(())
    }

    /// The contents of these compartments as they are here, and of no other.
    pub fn keep_only(&self, kept: &[u32]) -> Result<Self, AllocError>
        ensures { IfOk result (λ contents. (c : ℕ) → content_of contents c ≡ kept_content kept.now self.now c) }
    {
        let mut contents = Contents::empty(self.alloc);
        for compartment in kept {
            if let Some(node) = self.get(*compartment) {
                contents.set(*compartment, node)?;
            }
        }
        Ok(contents)
    }

    /// The same contents once more.
    pub fn try_copy(&self) -> Result<Self, AllocError>
        ensures { IfOk result (λ contents. contents ≡ self.now) }
    {
        Ok(Contents {
            nodes: self.nodes.clone()?,
            alloc: self.alloc,
        })
    }
}
