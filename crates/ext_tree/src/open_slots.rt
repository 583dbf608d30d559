// The slot nodes on the path of a walk.
ghost use Rattle.std.specs.Prelude.{◌≡◌, ◌≢◌, ◌<◌, ◌+◌, ◌-◌, ◌^◌, ◌++◌, ◌∷◌, ℕ, [], OnOk};
ghost use Rattle.ext_tree.specs.Unfolding.{path_below, is_blocked};
ghost use Rattle.ext_tree.specs.Walking.{path_after};
ghost use Rattle.ext_tree.specs.Marks.{count_of, AreOpen};

use crate::node::ExtId;
use crate::tree::Tree;
use std::alloc::{AllocError, Global};
use std::collections::BTreeMap;

/// The slot nodes on a path, outermost first, and for each compartment that was met how many of its slots stand there.
#[derive(Drop)]
pub struct OpenSlots {
    pub path: Vec<ExtId>,
    pub counts: BTreeMap<u32, usize>,
}

/// The number that a table has for a compartment, 0 where it has none.
fn count_of(counts: &BTreeMap<u32, usize>, compartment: u32) -> usize
    ensures { result ≡ count_of counts.now.entries compartment }
{
    counts.get(&compartment).copied().unwrap_or(0)
}

/// One slot more of a compartment.
fn raise(counts: &mut BTreeMap<u32, usize>, compartment: u32) -> Result<(), AllocError>
    requires { count_of counts.old.entries compartment + 1 < 2 ^ 64 }
    ensures here { OnOk result (count_of counts.new.entries compartment ≡ count_of counts.old.entries compartment + 1) }
    ensures others { OnOk result ((c : ℕ) → c ≢ compartment → count_of counts.new.entries c ≡ count_of counts.old.entries c) }
{
    let count = count_of(counts, compartment);
    counts.insert(compartment, count + 1)?;
    Ok(())
}

/// One slot less of a compartment.
fn lower(counts: &mut BTreeMap<u32, usize>, compartment: u32)
    requires { 0 < count_of counts.old.entries compartment }
    ensures here { count_of counts.new.entries compartment ≡ count_of counts.old.entries compartment - 1 }
    ensures others { (c : ℕ) → c ≢ compartment → count_of counts.new.entries c ≡ count_of counts.old.entries c }
{
    if let Some(count) = counts.get_mut(&compartment) {
        *count -= 1;
    }
}

impl OpenSlots {
    /// No slots.
    pub fn new(alloc: Global) -> Self
        ensures path { result.path.items ≡ [] }
        ensures counts { result.counts.entries ≡ [] }
    {
        OpenSlots {
            path: Vec::new(alloc),
            counts: BTreeMap::new(alloc),
        }
    }

    /// Whether a node is a slot whose compartment stands on the path.
    pub fn holds(&self, tree: &Tree, node: ExtId) -> bool
        requires { AreOpen tree.now self.now.path.items self.now.counts.entries }
        ensures { result ≡ is_blocked tree.now node self.now.path.items }
    {
        match tree.compartment_of(node) {
            Some(compartment) => count_of(&self.counts, compartment) != 0,
            None => false,
        }
    }

    /// A slot stands on the path of what it is followed by.
    pub fn enter(&mut self, tree: &Tree, node: ExtId) -> Result<(), AllocError>
        requires { AreOpen tree.now self.old.path.items self.old.counts.entries }
        ensures path { OnOk result (self.new.path.items ≡ path_below tree.now node self.old.path.items) }
        ensures open { OnOk result (AreOpen tree.now self.new.path.items self.new.counts.entries) }
    {
        if let Some(compartment) = tree.compartment_of(node) {
            self.path.push(node)?;
            raise(&mut self.counts, compartment)?;
        }
        Ok(())
    }

    /// One slot of a node's compartment less.
    fn forget(&mut self, tree: &Tree, node: ExtId)
        requires { AreOpen tree.now (self.old.path.items ++ node ∷ []) self.old.counts.entries }
        ensures path { self.new.path.items ≡ self.old.path.items }
        ensures open { AreOpen tree.now self.new.path.items self.new.counts.entries }
    {
        if let Some(compartment) = tree.compartment_of(node) {
            lower(&mut self.counts, compartment);
        }
    }

    /// A slot that is left stands on the path no more.
    pub fn leave(&mut self, tree: &Tree, node: ExtId)
        requires { AreOpen tree.now self.old.path.items self.old.counts.entries }
        ensures path { self.new.path.items ≡ path_after tree.now node self.old.path.items }
        ensures open { AreOpen tree.now self.new.path.items self.new.counts.entries }
    {
        if tree.compartment_of(node).is_some() {
            if let Some(slot) = self.path.pop() {
                self.forget(tree, slot);
            }
        }
    }
}
