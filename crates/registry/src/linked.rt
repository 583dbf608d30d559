// Facets, fields and nodes with what stands beside them.
ghost use Rattle.std.specs.Prelude.{◌≡◌, ◌<◌, ◌^◌, ◌++◌, ◌∷◌, [], length, IfOk, OnOk, OnErr};
ghost use Rattle.ext_tree.specs.Tree.{IsMade};

use crate::undo::shorten;
use configuration::{FacetDef, FieldDef, NodeDef};
use ext_tree::{Arena, ExtError, ExtId, ExtIds, Links, Node};
use listed::Listed;
use std::alloc::{AllocError, Global};
use values::Val;

/// Adds a facet, and what it enables. When out of memory both are as before.
pub fn add_facet(
    alloc: Global,
    facets: &mut Listed<FacetDef>,
    links: &mut Links,
    def: FacetDef,
    enables: ExtIds,
) -> Result<(), AllocError>
    ensures added { OnOk result (facets.new ≡ facets.old ++ def ∷ []) }
    ensures linked { OnOk result (links.new ≡ record links.old { enabled = links.old.enabled ++ enables ∷ [] }) }
    ensures same { OnErr result (facets.new ≡ facets.old) }
    ensures links_same { OnErr result (links.new ≡ links.old) }
{
    let count = facets.as_slice().len();
    facets.push(def)?;
    match links.add_facet(enables) {
        Ok(()) => Ok(()),
        Err(error) => {
            shorten(alloc, facets, count);
            Err(error)
        }
    }
}

/// Adds a field that provides nothing yet. When out of memory both are as before.
pub fn add_field(
    alloc: Global,
    fields: &mut Listed<FieldDef>,
    links: &mut Links,
    def: FieldDef,
) -> Result<(), AllocError>
    ensures added { OnOk result (fields.new ≡ fields.old ++ def ∷ []) }
    ensures linked { OnOk result (links.new ≡ record links.old { provided = links.old.provided ++ [] ∷ [] }) }
    ensures same { OnErr result (fields.new ≡ fields.old) }
    ensures links_same { OnErr result (links.new ≡ links.old) }
{
    let count = fields.as_slice().len();
    fields.push(def)?;
    match links.add_field(ExtIds::of(Vec::new(alloc))) {
        Ok(()) => Ok(()),
        Err(error) => {
            shorten(alloc, fields, count);
            Err(error)
        }
    }
}

/// Adds a node to an arena.
fn made(arena: &mut Arena, node: &Node) -> Result<ExtId, ExtError>
    requires { length arena.old < 2 ^ 32 }
    ensures made { IfOk result (λ id. IsMade arena.old arena.new id node.now) }
    ensures same { OnErr result (arena.new ≡ arena.old) }
{
    match node {
        Node::Group(members) => arena.group(members.ids()),
        Node::Prec(precedence, node) => arena.prec(*precedence, *node),
        Node::Slot {
            compartment,
            content,
        } => arena.slot(*compartment, *content),
        Node::Input(facet) => arena.input(*facet),
        Node::Field(field) => arena.field(*field),
        Node::Init(field) => arena.init(*field),
    }
}

/// Adds a node that names known nodes alone, with its definition. When out of memory both are as before.
pub fn add_node(
    alloc: Global,
    arena: &mut Arena,
    defs: &mut Listed<NodeDef<Val>>,
    node: &Node,
    def: NodeDef<Val>,
) -> Result<ExtId, AllocError>
    requires { length arena.old < 2 ^ 32 }
    ensures made { IfOk result (λ id. IsMade arena.old arena.new id node.now) }
    ensures defined { OnOk result (defs.new ≡ defs.old ++ def ∷ []) }
    ensures same { OnErr result (arena.new ≡ arena.old) }
    ensures defs_same { OnErr result (defs.new ≡ defs.old) }
{
    let count = defs.as_slice().len();
    defs.push(def)?;
    match made(arena, node) {
        Ok(id) => Ok(id),
        Err(_) => {
            shorten(alloc, defs, count);
            Err(AllocError)
        }
    }
}
