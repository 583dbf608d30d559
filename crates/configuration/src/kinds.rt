// What a node is.
ghost use Rattle.std.specs.Prelude.{◌≡◌, slice_get};
ghost use Rattle.ext_tree.specs.Unfolding.{compartment_in};
ghost use Rattle.configuration.specs.Present.{facet_in, field_in};

use ext_tree::{ExtId, Node};

/// The facet of an input.
pub fn facet_of(nodes: &[Node], node: ExtId) -> Option<u32>
    ensures { result ≡ facet_in (slice_get nodes.now node) }
{
    match nodes.get(node as usize) {
        Some(Node::Input(facet)) => Some(*facet),
        _ => None,
    }
}

/// The field of a field's node, its init included.
pub fn field_of(nodes: &[Node], node: ExtId) -> Option<u32>
    ensures { result ≡ field_in (slice_get nodes.now node) }
{
    match nodes.get(node as usize) {
        Some(Node::Field(field)) | Some(Node::Init(field)) => Some(*field),
        _ => None,
    }
}

/// The compartment of a slot.
pub fn compartment_of(nodes: &[Node], node: ExtId) -> Option<u32>
    ensures { result ≡ compartment_in (slice_get nodes.now node) }
{
    match nodes.get(node as usize) {
        Some(Node::Slot { compartment, .. }) => Some(*compartment),
        _ => None,
    }
}
