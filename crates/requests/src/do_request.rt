ghost use Rattle.requests.specs.Requests.{do_of};

use crate::words::{command_member, move_or_left};
use cm_plain::Str;
use script::{Item, LineError, defaulted, members, only_fields, optional, text_or_empty};
use serde_json::Value;
use std::alloc::Global;
use term_keys::Move;

/// A command of the editor, by its name (Reference Manual, StateCommand).
#[derive(Clone, Copy, Debug, PartialEq, Eq, Drop)]
pub enum EditorCommand {
    Insert,
    Newline,
    DeleteBack,
    DeleteForward,
    Move,
    SelectAll,
    Undo,
    Redo,
    UndoSelection,
    RedoSelection,
}

/// A command of the editor that is to be done. What the command has no use for is passed over.
#[derive(Drop)]
pub struct DoRequest {
    pub command: EditorCommand,
    /// What is to be inserted, not yet cut at its line breaks.
    pub text: Str,
    /// Where the cursors are to be moved.
    pub direction: Move,
    /// Whether the moved ranges keep their anchors.
    pub extend: bool,
    /// When it is done, in milliseconds, if it is said.
    pub time: Option<i64>,
}

impl Item for DoRequest {
    ghost item_of = { do_of };

    #[tactic(auto, unfolding(crate::specs::Requests::do_of))]
    fn read(alloc: Global, name: &str, value: &Value) -> Result<DoRequest, LineError> {
        let members = members(alloc, name, value)?;
        let command = command_member(alloc, "command", value)?;
        let text = text_or_empty(alloc, "text", value)?;
        let direction = move_or_left(alloc, "move", value)?;
        let extend = defaulted(alloc, "extend", value, false)?;
        let time = optional(alloc, "time", value)?;
        only_fields(
            alloc,
            &["command", "text", "move", "extend", "time"],
            members,
        )?;
        Ok(DoRequest {
            command,
            text,
            direction,
            extend,
            time,
        })
    }
}
