// What rules are shown.
ghost use Rattle.std.specs.Prelude.{◌≡◌, ◌∷◌, [], IfOk, map, cond, Some, None, option_map};
ghost use Rattle.facet_slots.specs.Scenes.{IsScene, reads_document, reads_selection, shown as shown_of, vertices_of};
ghost use Rattle.facet_slots.specs.Keeping.{held};
ghost use Rattle.facet_slots.specs.Found.{scene_of};

use crate::shelf::Shelf;
use configuration::{Dependency, Vertex};
use line_tree::Text;
use selection::Selection;
use std::alloc::{AllocError, Global};
use values::{Deps, Scene, SharedVal};

/// The value of a facet or field, shared; `None` for an absent field.
fn shared_value(shelf: &Shelf, vertex: Vertex) -> Result<Option<SharedVal>, AllocError>
    ensures { IfOk result (λ v. v ≡ held shelf.now.facets shelf.now.fields vertex) }
{
    match shelf.value(vertex) {
        Some(value) => Ok(Some(value.share()?)),
        None => Ok(None),
    }
}

/// The values of the declared facets and fields, shared.
fn values_read(
    alloc: Global,
    reads: &[Dependency],
    shelf: &Shelf,
) -> Result<Vec<Option<SharedVal>>, AllocError>
    ensures { IfOk result (λ vs. vs.items ≡ map (held shelf.now.facets shelf.now.fields) (vertices_of reads.now)) }
{
    let mut values = Vec::new(alloc);
    for read in reads {
        match *read {
            Dependency::Doc => {}
            Dependency::Selection => {}
            Dependency::Facet(facet) => {
                values.push(shared_value(shelf, Vertex::Facet(facet))?)?;
            }
            Dependency::Field(field) => {
                values.push(shared_value(shelf, Vertex::Field(field))?)?;
            }
        }
    }
    Ok(values)
}

/// Whether the document is declared.
fn is_document_read(reads: &[Dependency]) -> bool
    ensures { result ≡ reads_document reads.now }
{
    for read in reads {
        if let Dependency::Doc = *read {
            return true;
        }
    }
    false
}

/// Whether the selection is declared.
fn is_selection_read(reads: &[Dependency]) -> bool
    ensures { result ≡ reads_selection reads.now }
{
    for read in reads {
        if let Dependency::Selection = *read {
            return true;
        }
    }
    false
}

fn document_read(scene: &Scene, reads: &[Dependency]) -> Result<Option<Text>, AllocError>
    ensures { IfOk result (λ t. option_map (λ text. text.characters) t ≡ cond (reads_document reads.now) (Some scene.now.document.characters) None) }
{
    if is_document_read(reads) {
        Ok(Some(scene.document.try_copy()?))
    } else {
        Ok(None)
    }
}

fn selection_read(scene: &Scene, reads: &[Dependency]) -> Result<Option<Selection>, AllocError>
    ensures { IfOk result (λ s. s ≡ cond (reads_selection reads.now) (Some scene.now.selection) None) }
{
    if is_selection_read(reads) {
        Ok(Some(scene.selection.try_copy()?))
    } else {
        Ok(None)
    }
}

/// What a rule that declares one facet or field alone reads. `Err`: no further owner can be counted.
fn value_alone(shelf: &Shelf, vertex: Vertex) -> Result<Deps, AllocError>
    ensures { IfOk result (λ deps. deps ≡ record { document = None; selection = None; values = held shelf.now.facets shelf.now.fields vertex ∷ [] }) }
{
    Ok(Deps::of_value(shared_value(shelf, vertex)?))
}

/// What a rule that declares these dependencies reads. Texts and values are shared, the selection is copied. `Err`: out of memory.
pub fn shown(
    alloc: Global,
    scene: &Scene,
    reads: &[Dependency],
    shelf: &Shelf,
) -> Result<Deps, AllocError>
    requires { IsScene (scene_of scene.now) }
    ensures { IfOk result (λ deps. deps ≡ shown_of (scene_of scene.now) (held shelf.now.facets shelf.now.fields) reads.now) }
{
    match reads {
        [] => Ok(Deps::none()),
        [Dependency::Doc] => Ok(Deps::of_document(scene.document.try_copy()?)),
        [Dependency::Facet(facet)] => value_alone(shelf, Vertex::Facet(*facet)),
        [Dependency::Field(field)] => value_alone(shelf, Vertex::Field(*field)),
        _ => read(alloc, scene, reads, shelf),
    }
}

/// The same, with a walk over the dependencies for each part of what is read.
fn read(
    alloc: Global,
    scene: &Scene,
    reads: &[Dependency],
    shelf: &Shelf,
) -> Result<Deps, AllocError>
    requires { IsScene (scene_of scene.now) }
    ensures { IfOk result (λ deps. deps ≡ shown_of (scene_of scene.now) (held shelf.now.facets shelf.now.fields) reads.now) }
{
    shelf.known();
    let document = document_read(scene, reads)?;
    let selection = selection_read(scene, reads)?;
    let values = values_read(alloc, reads, shelf)?;
    Deps::new(alloc, document, selection, values)
}
