// The nodes that a flat order has taken.
ghost use Rattle.std.specs.Prelude.{◌≡◌, ◌<◌, [], length, IfOk, OnOk};
ghost use Rattle.std.specs.List.{AllByRecursion};
ghost use Rattle.ext_tree.specs.Taking.{take_in, take_level};
ghost use Rattle.ext_tree.specs.Marks.{AreTaken, IsWithin};

use crate::node::ExtId;
use crate::visit::Visit;
use std::alloc::{AllocError, Global};

/// Nodes that were taken, with a mark for each.
#[derive(Drop)]
pub struct Taken {
    pub nodes: Vec<ExtId>,
    pub marks: Vec<bool>,
}

impl Taken {
    /// No nodes, with a mark for each node less than a number.
    pub fn new(alloc: Global, nodes: usize) -> Result<Self, AllocError>
        ensures none { IfOk result (λ taken. taken.nodes.items ≡ []) }
        ensures marks { IfOk result (λ taken. AreTaken taken.nodes.items taken.marks.items) }
        ensures room { IfOk result (λ taken. length taken.marks.items ≡ nodes) }
    {
        Ok(Taken {
            nodes: Vec::new(alloc),
            marks: vec![in alloc; false; nodes]?,
        })
    }

    /// Takes a node, if it was not taken before.
    fn take_in(&mut self, node: ExtId) -> Result<(), AllocError>
        requires marks { AreTaken self.old.nodes.items self.old.marks.items }
        requires room { node < length self.old.marks.items }
        ensures taken { OnOk result (self.new.nodes.items ≡ take_in self.old.nodes.items node) }
        ensures marks { OnOk result (AreTaken self.new.nodes.items self.new.marks.items) }
        ensures room { OnOk result (length self.new.marks.items ≡ length self.old.marks.items) }
    {
        if !self.marks[node as usize] {
            self.nodes.push(node)?;
            self.marks[node as usize] = true;
        }
        Ok(())
    }

    /// Takes the leaves of one precedence.
    pub fn take_level(&mut self, leaves: &[Visit], level: usize) -> Result<(), AllocError>
        requires marks { AreTaken self.old.nodes.items self.old.marks.items }
        requires room { AllByRecursion (IsWithin (length self.old.marks.items)) leaves.now }
        ensures taken { OnOk result (self.new.nodes.items ≡ take_level leaves.now self.old.nodes.items level) }
        ensures marks { OnOk result (AreTaken self.new.nodes.items self.new.marks.items) }
        ensures room { OnOk result (length self.new.marks.items ≡ length self.old.marks.items) }
    {
        for visit in leaves {
            if visit.precedence.level() == level {
                self.take_in(visit.node)?;
            }
        }
        Ok(())
    }
}
