// The commands that select.
ghost use Rattle.std.specs.Prelude.{◌≡◌, ◌<◌, ◌≤◌, IfOk, length, map};
ghost use Rattle.history.specs.Selecting.{same_selection};
ghost use Rattle.selection.specs.Ranges.{high};
ghost use Rattle.selection.specs.Selections.{LieIn, normal_form};
ghost use Rattle.commands.specs.Editing.{shown_scene};
ghost use Rattle.commands.specs.Moving.{collapsed, move_spec, moved_head, moved_range, select_all_spec, selecting, selection_spec, with_head};

use crate::edit_scene::EditScene;
use crate::editing::editing;
use cursor_moves::{Move, moved};
use line_tree::Text;
use listed::Listed;
use selection::{Range, Selection, SelectionError};
use std::alloc::{AllocError, Global};
use transaction::{SelectionSpec, Spec};
use values::Val;

/// The user event of a selection (Reference Manual, Transaction.userEvent).
const SELECT: [char; 6] = ['s', 'e', 'l', 'e', 'c', 't'];

/// Moves each range, to a cursor or, where they are extended, with its anchor kept; `None` exactly where the selection would be the
/// same. Without extending, a move left or right of a range that isn't empty goes to that end of it. (Reference Manual,
/// cursorCharLeft, selectCharLeft and others.) `Err`: out of memory.
pub fn move_to(
    alloc: Global,
    scene: &EditScene<'_>,
    direction: Move,
    extend: bool,
) -> Result<Option<Spec<Val>>, AllocError>
    requires { LieIn (length scene.now.doc.now.characters) scene.now.selection.now.ranges }
    ensures { IfOk result (λ spec. spec ≡ move_spec (shown_scene scene.now) direction extend) }
{
    let ranges = scene.selection.ranges();
    let main = scene.selection.main_index();
    let moved = all_moved(alloc, scene.doc, ranges, direction, extend)?;
    selecting(alloc, scene, moved, main)
}

/// Selects the whole document; `None` exactly where it is selected so. (Reference Manual, selectAll.) `Err`: out of memory.
pub fn select_all(alloc: Global, scene: &EditScene<'_>) -> Result<Option<Spec<Val>>, AllocError>
    ensures { IfOk result (λ spec. spec ≡ select_all_spec (shown_scene scene.now)) }
{
    let mut ranges = Vec::new(alloc);
    ranges.push(Range {
        anchor: 0,
        head: scene.doc.len(),
    })?;
    selecting(alloc, scene, ranges, 0)
}

/// A selection of these ranges, of which the one with index `main` is the main one; `None` where it is the scene's own.
fn selecting(
    alloc: Global,
    scene: &EditScene<'_>,
    ranges: Vec<Range>,
    main: usize,
) -> Result<Option<Spec<Val>>, AllocError>
    requires { main < length ranges.items }
    ensures { IfOk result (λ spec. spec ≡ selecting (shown_scene scene.now) ranges.items main) }
{
    if is_selected(alloc, scene.selection, ranges.as_slice(), main)? {
        return Ok(None);
    }
    let spec = selection_of(alloc, scene, ranges, main)?;
    Ok(Some(spec))
}

/// A selection of these ranges, as a spec.
fn selection_of(
    alloc: Global,
    scene: &EditScene<'_>,
    ranges: Vec<Range>,
    main: usize,
) -> Result<Spec<Val>, AllocError>
    ensures { IfOk result (λ spec. spec ≡ selection_spec (shown_scene scene.now) ranges.items main) }
{
    let selection = SelectionSpec {
        ranges: Listed::new(ranges),
        main,
    };
    editing(alloc, scene, Listed::empty(alloc), Some(selection), &SELECT)
}

/// Whether a selection is the normal form of these ranges.
fn is_selected(
    alloc: Global,
    selection: &Selection,
    ranges: &[Range],
    main: usize,
) -> Result<bool, AllocError>
    requires { main < length ranges.now }
    ensures { IfOk result (λ is. is ≡ same_selection (normal_form ranges.now main) selection.now) }
{
    let new = normal_form(alloc, ranges, main)?;
    Ok(is_same(&new, selection))
}

fn is_same(left: &Selection, right: &Selection) -> bool
    ensures { result ≡ same_selection left.now right.now }
{
    left.same(right)
}

/// The normal form of ranges one of which is the main one.
fn normal_form(alloc: Global, ranges: &[Range], main: usize) -> Result<Selection, AllocError>
    requires { main < length ranges.now }
    ensures { IfOk result (λ selection. selection ≡ normal_form ranges.now main) }
{
    match Selection::create(alloc, ranges, main) {
        Ok(selection) => Ok(selection),
        Err(SelectionError::NoMemory) => Err(AllocError),
        Err(_) => unreachable!(),
    }
}

/// Each range after a move.
fn all_moved(
    alloc: Global,
    text: &Text,
    ranges: &[Range],
    direction: Move,
    extend: bool,
) -> Result<Vec<Range>, AllocError>
    requires { LieIn (length text.now.characters) ranges.now }
    ensures { IfOk result (λ moved. moved.items ≡ map (moved_range text.now.characters direction extend) ranges.now) }
{
    let mut moved = Vec::new(alloc);
    for range in ranges {
        moved.push(moved_range(text, range, direction, extend)?)?;
    }
    Ok(moved)
}

/// A range after a move.
fn moved_range(
    text: &Text,
    range: &Range,
    direction: Move,
    extend: bool,
) -> Result<Range, AllocError>
    requires { high range.now ≤ length text.now.characters }
    ensures { IfOk result (λ moved. moved ≡ moved_range text.now.characters direction extend range.now) }
{
    let head = moved_head(text, range, direction, extend)?;
    Ok(with_head(range, head, extend))
}

fn with_head(range: &Range, head: u32, extend: bool) -> Range
    ensures { result ≡ with_head extend range.now head }
{
    let anchor = if extend { range.anchor } else { head };
    Range { anchor, head }
}

/// Where the head of a range goes.
fn moved_head(text: &Text, range: &Range, direction: Move, extend: bool) -> Result<u32, AllocError>
    requires { high range.now ≤ length text.now.characters }
    ensures { IfOk result (λ head. head ≡ moved_head text.now.characters direction extend range.now) }
{
    if extend || range.is_empty() {
        moved(text, direction, range.head)
    } else {
        collapsed(text, range, direction)
    }
}

/// The end of a range to which a move left or right goes, or where another move goes from its head.
fn collapsed(text: &Text, range: &Range, direction: Move) -> Result<u32, AllocError>
    requires { high range.now ≤ length text.now.characters }
    ensures { IfOk result (λ head. head ≡ collapsed text.now.characters direction range.now) }
{
    match direction {
        Move::Left => Ok(range.from()),
        Move::Right => Ok(range.to()),
        other => moved(text, other, range.head),
    }
}
