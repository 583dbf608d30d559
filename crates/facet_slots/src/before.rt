// What a facet had before a transition.
ghost use Rattle.std.specs.Prelude.{◌≡◌, List, MatchOption, None, Some, map};
ghost use Rattle.configuration.specs.declared.node_def.NodeDef.{NodeDef as DefOf};
ghost use Rattle.facet_slots.specs.Setups.{input_node};
ghost use Rattle.facet_slots.specs.Flags.{same_nodes as same_nodes_of};
ghost use Rattle.facet_slots.specs.Nexts.{kept_outputs as kept_outputs_of};
ghost use Rattle.facet_slots.specs.Lent.{nodes_before};

use crate::input_values::InputValues;
use configuration::{FacetDef, NodeDef};
use values::Val;

/// A facet as it was, with the definitions of nodes, its input nodes in flat order, and what each of them gave, all lent.
#[derive(Clone, Copy, Drop)]
pub struct Before<'a> {
    pub def: &'a FacetDef,
    pub node_defs: &'a [NodeDef<Val>],
    pub nodes: &'a [u32],
    pub kept: &'a [InputValues],
}

impl<'a> Before<'a> {
    /// What a node gave. Takes no memory.
    pub fn outputs(&self, node: u32) -> Option<&'a InputValues>
        ensures { MatchOption result (kept_outputs_of node (nodes_before self.now) self.now.kept.now ≡ None) (λ k. kept_outputs_of node (nodes_before self.now) self.now.kept.now ≡ Some k.now) }
    {
        let mut kept = self.kept;
        for was in self.nodes {
            match kept {
                [outputs, others @ ..] => {
                    if *was == node {
                        return Some(outputs);
                    }
                    kept = others;
                }
                [] => return None,
            }
        }
        None
    }

    /// Whether the facet has the same nodes in another list. Takes no memory.
    pub fn has_nodes(&self, nodes: &[u32]) -> bool
        ensures { (node_defs : List (DefOf Val)) → result ≡ same_nodes_of (nodes_before self.now) (map (input_node node_defs) nodes.now) }
    {
        self.nodes == nodes
    }
}
