ghost use Rattle.std.specs.Prelude.{◌≡◌, Some, None, option_map, if◌then◌else◌};
ghost use Rattle.std.specs.Str.{is_utf8};
ghost use Rattle.serde_json.specs.Read.{read};
ghost use Rattle.serde_json.specs.View.{view, members_view};
ghost use Rattle.script.specs.Reading.{Gives};
ghost use Rattle.script.specs.Lines.{command_of_members, command_of, command_of_data, line_command};

use crate::command::Commands;
use crate::refusal::{LineError, Refusal};
use cm_outside::MAX_LINE;
use cm_plain::Str;
use serde_json::{Map, Value};
use std::alloc::Global;

#[tactic(auto, using(crate::proofs::One::not_one))]
fn of_members<C: Commands>(alloc: Global, members: &Map<String, Value>) -> Result<C, LineError>
    ensures { Gives (λ x. x) result (command_of_members C.named (members_view members.now.entries)) }
{
    let no_command = Err(LineError::Refused(Refusal::NotCommand {
        field: Str::empty(alloc),
    }));
    if members.len() != 1 {
        return no_command;
    }
    match members.iter().next() {
        Some((name, value)) => C::read_named(alloc, name.as_str(), value),
        None => no_command,
    }
}

/// The command that a value is: an object with one member, whose name is a command's and whose value is its argument.
/// A value is refused by the first of these that holds: it is no object with one member, the name is no command's,
/// or a field is missing, of a wrong kind, out of its range or not in the command's table. The only other error is
/// out of memory.
#[tactic(auto, unfolding(crate::specs::Lines::command_of))]
pub fn command_of<C: Commands>(alloc: Global, value: &Value) -> Result<C, LineError>
    ensures { Gives (λ x. x) result (command_of C.named (view value.now)) }
{
    match value.as_object() {
        Some(members) => of_members(alloc, members),
        None => Err(LineError::Refused(Refusal::NotCommand {
            field: Str::empty(alloc),
        })),
    }
}

fn of_text<C: Commands>(alloc: Global, line: &str) -> Result<C, LineError>
    ensures { Gives (λ x. x) result (command_of_data C.named (read line.now)) }
{
    match Value::from_str(alloc, line) {
        Ok(value) => command_of(alloc, &value),
        Err(error) if error.is_memory() => Err(LineError::NoMemory),
        Err(_) => Err(LineError::Refused(Refusal::NotJson)),
    }
}

/// The line as text, where it is UTF-8.
#[tactic(auto, using(crate::proofs::Utf8::is_text, crate::proofs::Utf8::is_no_text))]
fn utf8(line: &[u8]) -> Option<&str>
    ensures { option_map (λ s. s.now) result ≡ (if is_utf8 line.now then Some line.now else None) }
{
    str::from_utf8(line).ok()
}

/// The command that a line, without its LF, asks for. It is refused by the first of these that holds: it has more than
/// 1,048,576 bytes, it isn't UTF-8, it isn't one JSON text, its value is no command. The only other error is out of memory.
#[tactic(auto, unfolding(crate::specs::Lines::line_command))]
pub fn line_command<C: Commands>(alloc: Global, line: &[u8]) -> Result<C, LineError>
    ensures { Gives (λ x. x) result (line_command C.named line.now) }
{
    if line.len() > MAX_LINE {
        return Err(LineError::Refused(Refusal::LineTooLong));
    }
    match utf8(line) {
        Some(line) => of_text(alloc, line),
        None => Err(LineError::Refused(Refusal::NotUtf8)),
    }
}
