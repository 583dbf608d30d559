ghost use Rattle.std.specs.Prelude.{◌≡◌, ◌≤◌, None, IfOk, length};
ghost use Rattle.line_tree.specs.Text.{cut, max_len};
ghost use Rattle.collab.specs.Worlds.{AreDistinct, begun};
ghost use Rattle.script.specs.Reading.{Gives};
ghost use Rattle.collab_run.specs.Playing.{begin, free_names, text_of};

use crate::command::BeginRequest;
use crate::outcome::Outcome;
use cm_plain::Str;
use collab::{World, first_taken};
use line_tree::{MAX_LEN, Text, cut_len};
use replies::Answer;
use script::{LineError, Refusal};
use std::alloc::Global;

/// No name stands twice.
fn free_names(names: &[Str]) -> Result<(), LineError>
    ensures free { Gives (λ x. x) result (free_names names.now) }
    ensures distinct { IfOk result (λ x. AreDistinct names.now) }
{
    match first_taken(names) {
        None => Ok(()),
        Some(name) => Err(LineError::Refused(Refusal::NameTaken {
            name: name.try_copy()?,
        })),
    }
}

/// The text of some characters, which are not too many.
fn text_of(alloc: Global, doc: &Str) -> Result<Text, LineError>
    ensures text { Gives (λ t. t.characters) result (text_of doc.now) }
    ensures short { IfOk result (λ t. length t.characters ≤ max_len) }
{
    let len = cut_len(doc.chars()) as u64;
    if len > MAX_LEN as u64 {
        return Err(LineError::Refused(Refusal::TooLong { len, max: MAX_LEN }));
    }
    Ok(Text::of(alloc, doc.chars())?)
}

/// The command `begin`: a world of this text and clients of these names, in which nothing has happened.
#[tactic(auto, unfolding(crate::specs::Playing::begin))]
pub(crate) fn begin(alloc: Global, request: BeginRequest) -> Result<Outcome, LineError>
    ensures { Gives (λ o. o) result (begin request) }
{
    let names = request.clients.into_vec();
    free_names(names.as_slice())?;
    let text = text_of(alloc, &request.doc)?;
    let world = World::new(alloc, text, names)?;
    Ok(Outcome::Changed(Answer::Version(0), world))
}
