// The first slot node of each compartment that a walk met.
ghost use Rattle.std.specs.Prelude.{◌≡◌, ◌≢◌, ℕ, [], Some, OnOk};
ghost use Rattle.ext_tree.specs.Refusal.{meet};
ghost use Rattle.ext_tree.specs.Marks.{kept_for, AreFirsts};

use crate::node::ExtId;
use crate::tree::Tree;
use std::alloc::{AllocError, Global};
use std::collections::BTreeMap;

/// The first slot node of each compartment that was met, in the order of meeting and by compartment.
#[derive(Drop)]
pub struct MetSlots {
    pub nodes: Vec<ExtId>,
    pub firsts: BTreeMap<u32, ExtId>,
}

/// Puts a node in a table for a compartment.
fn put(table: &mut BTreeMap<u32, ExtId>, compartment: u32, node: ExtId) -> Result<(), AllocError>
    ensures here { OnOk result (kept_for table.new.entries compartment ≡ Some node) }
    ensures others { OnOk result ((c : ℕ) → c ≢ compartment → kept_for table.new.entries c ≡ kept_for table.old.entries c) }
{
    table.insert(compartment, node)?;
    Ok(())
}

impl MetSlots {
    /// None was met.
    pub fn new(alloc: Global) -> Self
        ensures nodes { result.nodes.items ≡ [] }
        ensures firsts { result.firsts.entries ≡ [] }
    {
        MetSlots {
            nodes: Vec::new(alloc),
            firsts: BTreeMap::new(alloc),
        }
    }

    /// The first slot of a compartment that was met.
    pub fn first(&self, compartment: u32) -> Option<ExtId>
        ensures { result ≡ kept_for self.now.firsts.entries compartment }
    {
        self.firsts.get(&compartment).copied()
    }

    /// Remembers a slot, if it is the first of its compartment.
    pub fn meet(&mut self, tree: &Tree, node: ExtId) -> Result<(), AllocError>
        requires { AreFirsts tree.now self.old.nodes.items self.old.firsts.entries }
        ensures nodes { OnOk result (self.new.nodes.items ≡ meet tree.now self.old.nodes.items node) }
        ensures firsts { OnOk result (AreFirsts tree.now self.new.nodes.items self.new.firsts.entries) }
    {
        if let Some(compartment) = tree.compartment_of(node) {
            if self.first(compartment).is_none() {
                self.nodes.push(node)?;
                put(&mut self.firsts, compartment, node)?;
            }
        }
        Ok(())
    }
}
