// Commands of the editor that are read.
use crate::reading::{is, request};
use requests::{DoRequest, EditorCommand, Move, Request};
use std::alloc::{AllocError, Global};
use std::test::Fail;

/// What a line asks the editor to do, if it does.
fn asked(alloc: Global, line: &str) -> Option<DoRequest> {
    match request(alloc, line)? {
        Request::Do(asked) => Some(asked),
        _ => None,
    }
}

/// The command of the editor of this name.
fn command_of(alloc: Global, name: &str) -> Result<Option<EditorCommand>, AllocError> {
    let line = format!(in alloc; "{{\"do\":{{\"command\":\"{name}\"}}}}")?;
    Ok(asked(alloc, line.as_str()).map(|asked| asked.command))
}

const EDITOR_COMMANDS: &[(&str, EditorCommand)] = &[
    ("insert", EditorCommand::Insert),
    ("newline", EditorCommand::Newline),
    ("deleteBack", EditorCommand::DeleteBack),
    ("deleteForward", EditorCommand::DeleteForward),
    ("move", EditorCommand::Move),
    ("selectAll", EditorCommand::SelectAll),
    ("undo", EditorCommand::Undo),
    ("redo", EditorCommand::Redo),
    ("undoSelection", EditorCommand::UndoSelection),
    ("redoSelection", EditorCommand::RedoSelection),
];

/// The place of the first name that is read as another command.
fn first_other_command(
    alloc: Global,
    cases: &[(&str, EditorCommand)],
) -> Result<usize, AllocError> {
    for i in 0..cases.len() {
        let (name, command) = cases[i];
        if command_of(alloc, name)? != Some(command) {
            return Ok(i);
        }
    }
    Ok(cases.len())
}

#[test]
fn each_editor_command_is_read(rt: HostRuntime) -> Result<(), Fail> {
    assert!(rt; first_other_command(rt.alloc(), EDITOR_COMMANDS)? == EDITOR_COMMANDS.len());
    Ok(())
}

/// The move of this name.
fn move_of(alloc: Global, name: &str) -> Result<Option<Move>, AllocError> {
    let line = format!(in alloc; "{{\"do\":{{\"command\":\"move\",\"move\":\"{name}\"}}}}")?;
    Ok(asked(alloc, line.as_str()).map(|asked| asked.direction))
}

const MOVES: &[(&str, Move)] = &[
    ("left", Move::Left),
    ("right", Move::Right),
    ("up", Move::Up),
    ("down", Move::Down),
    ("lineStart", Move::LineStart),
    ("lineEnd", Move::LineEnd),
    ("docStart", Move::DocStart),
    ("docEnd", Move::DocEnd),
];

/// The place of the first name that is read as another move.
fn first_other_move(alloc: Global, cases: &[(&str, Move)]) -> Result<usize, AllocError> {
    for i in 0..cases.len() {
        let (name, direction) = cases[i];
        if move_of(alloc, name)? != Some(direction) {
            return Ok(i);
        }
    }
    Ok(cases.len())
}

#[test]
fn each_move_is_read(rt: HostRuntime) -> Result<(), Fail> {
    assert!(rt; first_other_move(rt.alloc(), MOVES)? == MOVES.len());
    Ok(())
}

/// Whether a line asks for a command with this text, this move, extended or not, at this time.
fn has_fields(
    alloc: Global,
    line: &str,
    text: &str,
    direction: Move,
    extend: bool,
    time: Option<i64>,
) -> Result<bool, AllocError> {
    match asked(alloc, line) {
        Some(asked) => Ok(
            is(&asked.text, text)?
                && asked.direction == direction
                && asked.extend == extend
                && asked.time == time,
        ),
        None => Ok(false),
    }
}

#[test]
fn editor_commands_have_defaults(rt: HostRuntime) -> Result<(), Fail> {
    let bare = "{\"do\":{\"command\":\"insert\"}}";
    assert!(rt; has_fields(rt.alloc(), bare, "", Move::Left, false, None)?);
    let whole =
        "{\"do\":{\"command\":\"insert\",\"text\":\"ab\",\"move\":\"up\",\"extend\":true,\"time\":-5}}";
    assert!(rt; has_fields(rt.alloc(), whole, "ab", Move::Up, true, Some(-5))?);
    Ok(())
}

/// The rows and columns of the window that a line asks for.
fn size_of(alloc: Global, line: &str) -> Option<(u32, u32)> {
    let found = request(alloc, line)?;
    size_in(&found)
}

/// The rows and columns of the window that a request is for.
fn size_in(found: &Request) -> Option<(u32, u32)> {
    match found {
        Request::View(size) => Some((size.rows, size.cols)),
        _ => None,
    }
}

#[test]
fn windows_of_any_size_are_read(rt: HostRuntime) {
    let line = "{\"view\":{\"cols\":0,\"rows\":4294967295}}";
    assert!(rt; size_of(rt.alloc(), line) == Some((4294967295, 0)));
}

/// Whether a line opens or saves this file.
fn is_of_file(alloc: Global, line: &str, file: &str) -> Result<bool, AllocError> {
    match request(alloc, line) {
        Some(found) => names_file(&found, file),
        None => Ok(false),
    }
}

/// Whether a request opens or saves this file.
fn names_file(found: &Request, file: &str) -> Result<bool, AllocError> {
    match found {
        Request::Open(asked) => is(&asked.file, file),
        Request::Save(name) => is(name, file),
        _ => Ok(false),
    }
}

#[test]
fn files_are_named(rt: HostRuntime) -> Result<(), Fail> {
    assert!(rt; is_of_file(rt.alloc(), "{\"open\":{\"file\":\"a b\"}}", "a b")?);
    assert!(rt; is_of_file(rt.alloc(), "{\"save\":{\"file\":\"\"}}", "")?);
    Ok(())
}
