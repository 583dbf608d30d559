// Whether an input of a slot reads something that is flagged.
ghost use Rattle.std.specs.Prelude.{◌≡◌, map, slice_get};
ghost use Rattle.configuration.specs.Pairs.{reads_of};
ghost use Rattle.facet_slots.specs.Flags.{any_flagged as any_flagged_of};
ghost use Rattle.facet_slots.specs.Lent.{flags_in};

use crate::draft::Draft;
use configuration::{Dependency, NodeDef};
use values::Val;

/// Whether a declared dependency is flagged.
fn any_flagged(reads: &[Dependency], draft: &Draft) -> bool
    ensures { result ≡ any_flagged_of draft.now.moved (flags_in draft.now.kept) reads.now }
{
    for read in reads {
        let flag = match *read {
            Dependency::Doc => draft.moved.document,
            Dependency::Selection => draft.moved.selection,
            Dependency::Facet(facet) => draft.kept.shelf.facet_flag(facet),
            Dependency::Field(field) => draft.kept.shelf.field_flag(field),
        };
        if flag {
            return true;
        }
    }
    false
}

/// Whether a dependency that an input declares is flagged. Takes no memory.
pub fn input_flagged(node_defs: &[NodeDef<Val>], node: u32, draft: &Draft) -> bool
    ensures { result ≡ any_flagged_of draft.now.moved (flags_in draft.now.kept) (reads_of (slice_get node_defs.now node)) }
{
    match node_defs.get(node as usize) {
        Some(NodeDef::Compute { rule: _, reads }) => any_flagged(reads.as_slice(), draft),
        Some(NodeDef::ComputeN { rule: _, reads }) => any_flagged(reads.as_slice(), draft),
        Some(NodeDef::From { field, rule: _ }) => {
            let reads = [Dependency::Field(*field)];
            any_flagged(&reads, draft)
        }
        _ => false,
    }
}

/// Whether a dependency that one of these inputs declares is flagged. Takes no memory.
pub fn any_input_flagged(node_defs: &[NodeDef<Val>], nodes: &[u32], draft: &Draft) -> bool
    ensures { result ≡ list_any (input_flagged_of draft.now.moved (flags_in draft.now.kept)) (map (input_node node_defs.now) nodes.now) }
{
    for node in nodes {
        if input_flagged(node_defs, *node, draft) {
            return true;
        }
    }
    false
}

ghost use Rattle.std.specs.List.{list_any};
ghost use Rattle.facet_slots.specs.Nexts.{input_flagged as input_flagged_of};
ghost use Rattle.facet_slots.specs.Setups.{input_node};
