// The commands that insert.
ghost use Rattle.std.specs.Prelude.{◌≡◌, ◌^◌, ◌<◌, IfOk, map};
ghost use Rattle.commands.specs.Editing.{shown_scene};
ghost use Rattle.commands.specs.Inserting.{allowed_insertion, cursor_after, cursors_after, insert_spec, insertion, newline_spec, replacing};

use crate::edit_scene::EditScene;
use crate::editing::editing;
use change_set::{Change, InsertedText};
use line_tree::Text;
use listed::Listed;
use selection::Range;
use std::alloc::{AllocError, Global};
use transaction::{SelectionSpec, Spec};
use values::Val;

/// The user events of typed text and of other input (Reference Manual, Transaction.userEvent).
const INPUT_TYPE: [char; 10] = ['i', 'n', 'p', 'u', 't', '.', 't', 'y', 'p', 'e'];

const INPUT: [char; 5] = ['i', 'n', 'p', 'u', 't'];

/// Puts a text in place of each range, with a cursor after each; `None` exactly where the document is read only. (Reference
/// Manual, EditorState.replaceSelection.) `Err`: out of memory.
pub fn insert(
    alloc: Global,
    scene: &EditScene<'_>,
    text: &Text,
) -> Result<Option<Spec<Val>>, AllocError>
    ensures { IfOk result (λ spec. spec ≡ insert_spec (shown_scene scene.now) text.now.characters) }
{
    allowed_insertion(alloc, scene, text, &INPUT_TYPE)
}

/// Puts a break in place of each range, with a cursor after each; `None` exactly where the document is read only. (Reference
/// Manual, insertNewline.) `Err`: out of memory.
pub fn newline(alloc: Global, scene: &EditScene<'_>) -> Result<Option<Spec<Val>>, AllocError>
    ensures { IfOk result (λ spec. spec ≡ newline_spec (shown_scene scene.now)) }
{
    let text = Text::of(alloc, &['\n'])?;
    allowed_insertion(alloc, scene, &text, &INPUT)
}

/// An insertion, unless the document is read only.
fn allowed_insertion(
    alloc: Global,
    scene: &EditScene<'_>,
    text: &Text,
    event: &[char],
) -> Result<Option<Spec<Val>>, AllocError>
    ensures { IfOk result (λ spec. spec ≡ allowed_insertion (shown_scene scene.now) text.now.characters event.now) }
{
    if scene.read_only {
        return Ok(None);
    }
    let spec = insertion(alloc, scene, text, event)?;
    Ok(Some(spec))
}

/// A text in place of each range, with a cursor after each, under a user event.
fn insertion(
    alloc: Global,
    scene: &EditScene<'_>,
    text: &Text,
    event: &[char],
) -> Result<Spec<Val>, AllocError>
    ensures { IfOk result (λ spec. spec ≡ insertion (shown_scene scene.now) text.now.characters event.now) }
{
    let changes = all_replacing(alloc, scene.selection.ranges(), text)?;
    let ranges = cursors_after(alloc, scene.selection.ranges(), text.len())?;
    let main = scene.selection.main_index();
    let selection = SelectionSpec { ranges, main };
    editing(alloc, scene, changes, Some(selection), event)
}

/// Each range replaced by a text.
fn all_replacing(alloc: Global, ranges: &[Range], text: &Text) -> Result<Listed<Change>, AllocError>
    ensures { IfOk result (λ changes. changes ≡ map (replacing text.now.characters) ranges.now) }
{
    let mut changes = Vec::new(alloc);
    for range in ranges {
        changes.push(replacing(range, text)?)?;
    }
    Ok(Listed::new(changes))
}

/// A range replaced by a text.
fn replacing(range: &Range, text: &Text) -> Result<Change, AllocError>
    ensures { IfOk result (λ change. change ≡ replacing text.now.characters range.now) }
{
    let insert = InsertedText::of(text.try_copy()?);
    Ok(Change::Span {
        from: range.from(),
        to: range.to(),
        insert,
    })
}

/// A cursor after each text of a length that takes the place of a range.
fn cursors_after(alloc: Global, ranges: &[Range], len: u32) -> Result<Listed<Range>, AllocError>
    ensures { IfOk result (λ cursors. cursors ≡ cursors_after len 0 0 ranges.now) }
{
    let mut cursors = Vec::new(alloc);
    let mut put: u128 = 0;
    let mut taken: u128 = 0;
    for range in ranges {
        put += len as u128;
        cursors.push(cursor_after(put, taken, range))?;
        taken += (range.to() - range.from()) as u128;
    }
    Ok(Listed::new(cursors))
}

/// The cursor after the text that takes the place of a range, where so many characters are put in up to there, and so many before
/// the range are taken out.
fn cursor_after(put: u128, taken: u128, range: &Range) -> Range
    requires { put < 2 ^ 127 }
    ensures { result ≡ cursor_after put taken range.now }
{
    let place = (range.from() as u128).saturating_sub(taken) + put;
    let place = place.min(u32::MAX as u128) as u32;
    Range {
        anchor: place,
        head: place,
    }
}
