// What is present in a flat order: each facet's inputs, and each field's first node.
ghost use Rattle.std.specs.Prelude.{◌≡◌, IfOk, OnOk, map, length};
ghost use Rattle.configuration.specs.Present.{input_lists, field_nodes, placed, noted, compartments_of};

use crate::kinds::{compartment_of, facet_of, field_of};
use ext_tree::{ExtId, Node};
use listed::Listed;
use std::alloc::{AllocError, Global};

/// Puts an input at the end of its facet's list, if the facet is declared.
fn place(inputs: &mut Vec<Listed<ExtId>>, facet: Option<u32>, node: ExtId) -> Result<(), AllocError>
    ensures { OnOk result (inputs.new.items ≡ placed inputs.old.items facet node) }
{
    if let Some(facet) = facet {
        if (facet as usize) < inputs.len() {
            let list = &mut inputs[facet as usize];
            list.push(node)?;
        }
    }
    Ok(())
}

/// Notes the node of a field, if the field is declared and this is its first.
fn note(fields: &mut Vec<Option<ExtId>>, field: Option<u32>, node: ExtId)
    ensures { fields.new.items ≡ noted fields.old.items field node }
{
    if let Some(field) = field {
        if (field as usize) < fields.len() {
            let first = fields[field as usize].unwrap_or(node);
            fields[field as usize] = Some(first);
        }
    }
}

/// The inputs of each facet less than a count, in the order of some nodes.
pub fn inputs_by_facet(
    alloc: Global,
    nodes: &[Node],
    facets: u32,
    order: &[ExtId],
) -> Result<Vec<Listed<ExtId>>, AllocError>
    ensures { IfOk result (λ inputs. inputs.items ≡ input_lists nodes.now facets order.now) }
{
    let mut inputs = Vec::new(alloc);
    // One by one, since a list can't be copied without memory.
    for _facet in 0..facets {
        inputs.push(Listed::new(Vec::new(alloc)))?;
    }
    for node in order {
        place(&mut inputs, facet_of(nodes, *node), *node)?;
    }
    Ok(inputs)
}

/// The first node of each field less than a count, in the order of some nodes.
pub fn nodes_by_field(
    alloc: Global,
    nodes: &[Node],
    fields: u32,
    order: &[ExtId],
) -> Result<Vec<Option<ExtId>>, AllocError>
    ensures { IfOk result (λ found. found.items ≡ field_nodes nodes.now fields order.now) }
{
    let mut found = vec![in alloc; None; fields as usize]?;
    for node in order {
        note(&mut found, field_of(nodes, *node), *node);
    }
    Ok(found)
}

/// The compartments of some slots.
pub fn compartments_of(
    alloc: Global,
    nodes: &[Node],
    slots: &[ExtId],
) -> Result<Vec<u32>, AllocError>
    ensures { IfOk result (λ found. found.items ≡ compartments_of nodes.now slots.now) }
{
    let mut found = Vec::new(alloc);
    for slot in slots {
        if let Some(compartment) = compartment_of(nodes, *slot) {
            found.push(compartment)?;
        }
    }
    Ok(found)
}
