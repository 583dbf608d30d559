// The flat order of the extensions that some roots lead to.
ghost use Rattle.std.specs.Prelude.{◌≡◌, length, IfOk, OnOk, IfErr, IfSome, Some, None};
ghost use Rattle.std.specs.List.{AllByRecursion};
ghost use Rattle.ext_tree.specs.Tree.{AreLinksOlder, IsOlder, tree_of};
ghost use Rattle.ext_tree.specs.Unfolding.{unfolding_of, UnfoldsOnce};
ghost use Rattle.ext_tree.specs.Refusal.{first_refusal, ids_of, refusal_of, slots_met};
ghost use Rattle.ext_tree.specs.Flat.{flat_order};
ghost use Rattle.ext_tree.specs.Taking.{flat};
ghost use Rattle.ext_tree.specs.Marks.{IsWithin};

use crate::arena::Arena;
use crate::ext_error::ExtError;
use crate::found::Found;
use crate::links::Links;
use crate::node::ExtId;
use crate::precedence::PRECEDENCES;
use crate::taken::Taken;
use crate::tree::Tree;
use crate::unknown::least_unknown_of_call;
use crate::visit::Visit;
use crate::walk::walk_from;
use compartments::Contents;
use std::alloc::{AllocError, Global};

/// The leaves that some roots lead to, and the slots that were met on the way.
#[derive(Drop)]
pub struct Flat {
    /// The leaves in flat order, each once.
    pub order: Vec<ExtId>,
    /// The first slot node of each compartment that was met, in the order of the walk.
    pub slots: Vec<ExtId>,
}

/// A number above all nodes of some leaves.
fn above(leaves: &[Visit]) -> usize
    ensures { AllByRecursion (IsWithin result) leaves.now }
{
    let mut room = 0;
    for visit in leaves {
        room = room.max(visit.node as usize + 1);
    }
    room
}

/// The leaves from the highest precedence to the lowest, each at its first place.
fn sorted(alloc: Global, leaves: &[Visit]) -> Result<Vec<ExtId>, AllocError>
    ensures { IfOk result (λ order. order.items ≡ flat leaves.now) }
{
    let mut taken = Taken::new(alloc, above(leaves))?;
    for level in 0..PRECEDENCES {
        taken.take_level(leaves, level)?;
    }
    Ok(taken.nodes)
}

/// The flat order of the extensions that some roots lead to, and the slots that were met: of each leaf its first
/// occurrence of highest precedence, sorted stably by precedence. What each leaf is followed by must be older than the
/// leaf (`are_links_older` tests it). Refused, in this order: as `UnknownExt` with the least of the roots and set contents
/// that is no node; as `CompartmentLoop` or `DuplicateCompartment`, whichever the walk meets first.
pub fn flatten(
    alloc: Global,
    arena: &Arena,
    roots: &[ExtId],
    contents: &Contents,
    links: &Links,
) -> Result<Flat, ExtError>
    requires { AreLinksOlder arena.now links.now }
    ensures known { OnOk result (AllByRecursion (IsOlder (length arena.now)) (ids_of (tree_of arena.now contents.now links.now) roots.now)) }
    ensures passes { OnOk result (first_refusal (tree_of arena.now contents.now links.now) roots.now ≡ None) }
    ensures order { IfOk result (λ found. found.order.items ≡ flat_order (tree_of arena.now contents.now links.now) roots.now) }
    ensures unfolds { OnOk result (UnfoldsOnce (tree_of arena.now contents.now links.now)) }
    ensures slots { IfOk result (λ found. found.slots.items ≡ slots_met (tree_of arena.now contents.now links.now) (unfolding_of (tree_of arena.now contents.now links.now) roots.now)) }
    ensures refuses { IfErr result (λ error. IfSome (refusal_of error) (λ r. first_refusal (tree_of arena.now contents.now links.now) roots.now ≡ Some r)) }
{
    if let Some(id) = least_unknown_of_call(arena.len(), roots, contents) {
        return Err(ExtError::UnknownExt { id });
    }
    let tree = Tree {
        nodes: arena.nodes(),
        contents,
        links,
    };
    let Found { leaves, slots } = walk_from(alloc, &tree, roots)?;
    let order = sorted(alloc, &leaves)?;
    Ok(Flat { order, slots })
}
