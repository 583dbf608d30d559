// The commands that delete.
ghost use Rattle.std.specs.Prelude.{◌≡◌, ◌≤◌, IfOk, length, map};
ghost use Rattle.std.specs.List.{list_all};
ghost use Rattle.selection.specs.Ranges.{high};
ghost use Rattle.selection.specs.Selections.{LieIn};
ghost use Rattle.commands.specs.Deleting.{delete_spec, deleted, has_nothing, other_end};
ghost use Rattle.commands.specs.Editing.{shown_scene};

use crate::edit_scene::EditScene;
use crate::editing::editing;
use crate::side::Side;
use change_set::{Change, InsertedText};
use line_tree::Text;
use listed::Listed;
use selection::Range;
use std::alloc::{AllocError, Global};
use transaction::Spec;
use values::Val;

/// Deletes each range, or the cluster or break before each cursor; `None` exactly where the document is read only, or where the
/// selection is a cursor at its start. (Reference Manual, deleteCharBackward.) `Err`: out of memory.
pub fn delete_back(alloc: Global, scene: &EditScene<'_>) -> Result<Option<Spec<Val>>, AllocError>
    requires { LieIn (length scene.now.doc.now.characters) scene.now.selection.now.ranges }
    ensures { IfOk result (λ spec. spec ≡ delete_spec Side.Back (shown_scene scene.now)) }
{
    delete(alloc, scene, Side::Back)
}

/// Deletes each range, or the cluster or break after each cursor; `None` exactly where the document is read only, or where the
/// selection is a cursor at its end. (Reference Manual, deleteCharForward.) `Err`: out of memory.
pub fn delete_forward(alloc: Global, scene: &EditScene<'_>) -> Result<Option<Spec<Val>>, AllocError>
    requires { LieIn (length scene.now.doc.now.characters) scene.now.selection.now.ranges }
    ensures { IfOk result (λ spec. spec ≡ delete_spec Side.Forward (shown_scene scene.now)) }
{
    delete(alloc, scene, Side::Forward)
}

/// Deletes each range, or what stands next to each cursor on a side.
fn delete(alloc: Global, scene: &EditScene<'_>, side: Side) -> Result<Option<Spec<Val>>, AllocError>
    requires { LieIn (length scene.now.doc.now.characters) scene.now.selection.now.ranges }
    ensures { IfOk result (λ spec. spec ≡ delete_spec side (shown_scene scene.now)) }
{
    if scene.read_only || all_have_nothing(side, scene.doc, scene.selection.ranges()) {
        return Ok(None);
    }
    let changes = all_deleted(alloc, side, scene.doc, scene.selection.ranges())?;
    let spec = editing(alloc, scene, changes, None, side.event())?;
    Ok(Some(spec))
}

/// Whether all ranges are cursors, and nothing stands on that side of any.
fn all_have_nothing(side: Side, text: &Text, ranges: &[Range]) -> bool
    ensures { result ≡ list_all (has_nothing side text.now.characters) ranges.now }
{
    let edge = side.edge(text);
    for range in ranges {
        if !(range.is_empty() && range.head == edge) {
            return false;
        }
    }
    true
}

/// What is deleted at each range.
fn all_deleted(
    alloc: Global,
    side: Side,
    text: &Text,
    ranges: &[Range],
) -> Result<Listed<Change>, AllocError>
    requires { LieIn (length text.now.characters) ranges.now }
    ensures { IfOk result (λ changes. changes ≡ map (deleted side text.now.characters) ranges.now) }
{
    let mut changes = Vec::new(alloc);
    for range in ranges {
        changes.push(deleted(alloc, side, text, range)?)?;
    }
    Ok(Listed::new(changes))
}

/// The range, or what stands next to a cursor on a side.
fn deleted(alloc: Global, side: Side, text: &Text, range: &Range) -> Result<Change, AllocError>
    requires { high range.now ≤ length text.now.characters }
    ensures { IfOk result (λ change. change ≡ deleted side text.now.characters range.now) }
{
    let other = other_end(side, text, range)?;
    let insert = InsertedText::of(Text::empty(alloc)?);
    Ok(Change::Span {
        from: other.min(range.head),
        to: other.max(range.head),
        insert,
    })
}

/// The range's anchor, or the place next to a cursor on a side.
fn other_end(side: Side, text: &Text, range: &Range) -> Result<u32, AllocError>
    requires { high range.now ≤ length text.now.characters }
    ensures { IfOk result (λ place. place ≡ other_end side text.now.characters range.now) }
{
    if range.is_empty() {
        side.beside(text, range.head)
    } else {
        Ok(range.anchor)
    }
}
