// Definitions once more, for slots to share.
ghost use Rattle.std.specs.Prelude.{◌≡◌, IfOk};
ghost use Rattle.facet_slots.specs.Lent.{defs_of};

use configuration::{Defs, Dependency, FacetDef, FieldDef, NodeDef};
use ext_tree::Links;
use listed::Listed;
use std::alloc::{AllocError, Global};
use std::rc::Rc;
use values::Val;

fn reads_copy(alloc: Global, reads: &[Dependency]) -> Result<Listed<Dependency>, AllocError>
    ensures { IfOk result (λ copy. copy ≡ reads.now) }
{
    Ok(Listed::new(reads.to_vec(alloc)?))
}

fn ids_copy(alloc: Global, ids: &[u32]) -> Result<Listed<u32>, AllocError>
    ensures { IfOk result (λ copy. copy ≡ ids.now) }
{
    Ok(Listed::new(ids.to_vec(alloc)?))
}

fn facets_copy(alloc: Global, facets: &[FacetDef]) -> Result<Listed<FacetDef>, AllocError>
    ensures { IfOk result (λ copy. copy ≡ facets.now) }
{
    Ok(Listed::new(facets.to_vec(alloc)?))
}

fn field_copy(alloc: Global, field: &FieldDef) -> Result<FieldDef, AllocError>
    ensures { IfOk result (λ copy. copy ≡ field.now) }
{
    let reads = reads_copy(alloc, field.reads.as_slice())?;
    let listens = ids_copy(alloc, field.listens.as_slice())?;
    Ok(FieldDef {
        create: field.create,
        update: field.update,
        compare: field.compare,
        reads,
        listens,
    })
}

fn fields_copy(alloc: Global, fields: &[FieldDef]) -> Result<Listed<FieldDef>, AllocError>
    ensures { IfOk result (λ copy. copy ≡ fields.now) }
{
    let mut copy = Listed::empty(alloc);
    for field in fields {
        copy.push(field_copy(alloc, field)?)?;
    }
    Ok(copy)
}

fn node_copy(alloc: Global, node: &NodeDef<Val>) -> Result<NodeDef<Val>, AllocError>
    ensures { IfOk result (λ copy. copy ≡ node.now) }
{
    match node {
        NodeDef::Branch => Ok(NodeDef::Branch),
        NodeDef::Of(value) => Ok(NodeDef::Of(value.try_copy(alloc)?)),
        NodeDef::Compute { rule, reads } => Ok(NodeDef::Compute {
            rule: *rule,
            reads: reads_copy(alloc, reads.as_slice())?,
        }),
        NodeDef::ComputeN { rule, reads } => Ok(NodeDef::ComputeN {
            rule: *rule,
            reads: reads_copy(alloc, reads.as_slice())?,
        }),
        NodeDef::From { field, rule } => Ok(NodeDef::From {
            field: *field,
            rule: *rule,
        }),
        NodeDef::Field => Ok(NodeDef::Field),
        NodeDef::Init(value) => Ok(NodeDef::Init(value.try_copy(alloc)?)),
    }
}

fn nodes_copy(alloc: Global, nodes: &[NodeDef<Val>]) -> Result<Listed<NodeDef<Val>>, AllocError>
    ensures { IfOk result (λ copy. copy ≡ nodes.now) }
{
    let mut copy = Listed::empty(alloc);
    for node in nodes {
        copy.push(node_copy(alloc, node)?)?;
    }
    Ok(copy)
}

/// The same definitions once more, for slots to share. What leaves are followed by is left out: slots have no use for it.
/// `Err`: out of memory.
pub fn shared_defs(alloc: Global, defs: &Defs<Val>) -> Result<Rc<Defs<Val>>, AllocError>
    ensures { IfOk result (λ shared. defs_of shared.value ≡ defs_of defs.now) }
{
    let facets = facets_copy(alloc, defs.facets.as_slice())?;
    let fields = fields_copy(alloc, defs.fields.as_slice())?;
    let node_defs = nodes_copy(alloc, defs.node_defs.as_slice())?;
    let copy = Defs {
        facets,
        fields,
        node_defs,
        links: Links::empty(alloc),
    };
    match Rc::new(alloc, copy) {
        Ok(shared) => Ok(shared),
        Err(_) => Err(AllocError),
    }
}
