// The commands of files.
ghost use Rattle.std.specs.Prelude.{◌≡◌, ◌≢◌, IfErr, IfOk, Ok, Err, Some};
ghost use Rattle.cm_outside.specs.Files.{found_bytes};
ghost use Rattle.facet_slots.specs.Agreement.{IsGrown};
ghost use Rattle.facet_slots.specs.Lent.{definitions};
ghost use Rattle.script.specs.Reading.{Gives};
ghost use Rattle.state.specs.Plainly.{created_from};
ghost use Rattle.values.specs.Whole.{IsWhole};
ghost use Rattle.session.specs.Filing.{at_start, opened, saved, separator_in};
ghost use Rattle.session.specs.Outcomes.{done_by};
ghost use Rattle.session.specs.PrivateSession.{IsPut};
ghost use Rattle.session.specs.State.{plain_session, plain_state};
ghost use Rattle.session.specs.Views.{facet_in};

use crate::outcome::Outcome;
use crate::putting::started_as;
use crate::session::Session;
use crate::start::created_with;
use crate::started::started;
use cm_plain::{Plain, Str};
use file_text::{FileError, file_text, saved_bytes};
use line_tree::{MAX_LEN, Text};
use registry::SAVE_SEPARATOR;
use script::{FileRefusal, LineError, Refusal};
use selection::Selection;
use state::{State, StateError};
use std::alloc::AllocError;
use values::{Kit, Meanings, Val};

/// The text that a value tells to end lines with.
fn separator_of(value: &Val) -> &[char]
    ensures { result.now ≡ separator_in value.now }
{
    match value {
        Val::Plain(Plain::Text(text)) => text.chars(),
        _ => &['\n'],
    }
}

/// The text that ends lines in a file that is saved.
fn separator<M: Meanings>(state: &State<M>) -> &[char]
    ensures { result.now ≡ separator_in (facet_in (plain_state state.now) SAVE_SEPARATOR) }
{
    state.known();
    separator_of(state.facet(SAVE_SEPARATOR))
}

/// The bytes that the command `save` writes, or `NoSession`. The only other error is out of memory.
pub(crate) fn saved<M: Meanings>(session: &Session<M>) -> Result<Vec<u8>, LineError>
    ensures { Gives (λ v. v.items) result (saved (plain_session session.now)) }
{
    let state = started(session)?;
    Ok(saved_bytes(session.alloc, state.doc(), separator(state))?)
}

/// The refusal where there is no file of this name. `Err`: out of memory.
fn missing(name: &Str) -> Result<LineError, AllocError>
    ensures { IfOk result (λ error. error ≡ LineError.Refused (Refusal.File (FileRefusal.FileMissing name.now))) }
{
    let name = name.try_copy()?;
    Ok(LineError::Refused(Refusal::File(FileRefusal::FileMissing { name })))
}

/// The refusal where its bytes aren't UTF-8. `Err`: out of memory.
fn not_utf8(name: &Str) -> Result<LineError, AllocError>
    ensures { IfOk result (λ error. error ≡ LineError.Refused (Refusal.File (FileRefusal.FileNotUtf8 name.now))) }
{
    let name = name.try_copy()?;
    Ok(LineError::Refused(Refusal::File(FileRefusal::FileNotUtf8 { name })))
}

/// The state that nodes come to over a text, with the cursor before its first character.
pub(crate) fn created_over<M: Meanings>(
    session: &Session<M>,
    kit: &Kit<M>,
    text: Text,
    base: &[u32],
) -> Result<State<M>, StateError>
    requires whole { IsWhole M.rules kit.now }
    ensures state { IfOk result (λ s. created_from M.rules session.now.world.declared base.now (record { document = text.characters; selection = at_start }) ≡ Ok (plain_state s)) }
    ensures grown { IfOk result (λ s. IsGrown s.setup.defs (definitions session.now.world.declared)) }
    ensures refused { IfErr result (λ error. error ≢ StateError.NoMemory → created_from M.rules session.now.world.declared base.now (record { document = text.characters; selection = at_start }) ≡ Err error) }
{
    let selection = Selection::single(session.alloc, 0, 0)?;
    created_with(session, kit, text, selection, base)
}

/// The state that nodes come to over the text of a file of these bytes, or the first refusal; too long a text is refused as the
/// state of it would be. The only other error is out of memory.
fn opened_from<M: Meanings>(
    session: &Session<M>,
    kit: &Kit<M>,
    name: &Str,
    base: &[u32],
    bytes: &[u8],
) -> Result<Outcome<State<M>>, LineError>
    requires whole { IsWhole M.rules kit.now }
    ensures put { IfOk result (IsPut session.now) }
    ensures done { Gives (done_by (plain_session session.now)) result (opened M.rules (plain_session session.now) name.now base.now (Some bytes.now)) }
{
    match file_text(session.alloc, bytes) {
        Ok(text) => started_as(session, created_over(session, kit, text, base)),
        Err(FileError::NotUtf8) => Err(not_utf8(name)?),
        Err(FileError::TooLong { len }) => {
            started_as(session, Err(StateError::TooLong { len, max: MAX_LEN }))
        }
        Err(FileError::NoMemory) => Err(LineError::NoMemory),
    }
}

/// The command `open`, after its file was looked up: the state that nodes come to over its text, or the first refusal. The only
/// other error is out of memory.
pub(crate) fn opened<M: Meanings>(
    session: &Session<M>,
    kit: &Kit<M>,
    name: &Str,
    base: &[u32],
    found: Option<Vec<u8>>,
) -> Result<Outcome<State<M>>, LineError>
    requires whole { IsWhole M.rules kit.now }
    ensures put { IfOk result (IsPut session.now) }
    ensures done { Gives (done_by (plain_session session.now)) result (opened M.rules (plain_session session.now) name.now base.now (found_bytes found)) }
{
    match found {
        None => Err(missing(name)?),
        Some(bytes) => opened_from(session, kit, name, base, bytes.as_slice()),
    }
}
