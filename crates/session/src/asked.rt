ghost use Rattle.script.specs.Reading.{Gives};
ghost use Rattle.session.specs.Asked.{selection, text};
ghost use Rattle.session.specs.State.{plain_session};

use crate::session::Session;
use crate::started::started;
use change_set::InsertedText;
use replies::Answer;
use script::LineError;
use values::Meanings;

/// The command `text`. The only error but `NoSession` is out of memory.
pub(crate) fn text_of<M: Meanings>(session: &Session<M>) -> Result<Answer, LineError>
    ensures { Gives (λ a. a) result (text (plain_session session.now)) }
{
    let state = started(session)?;
    Ok(Answer::Text(InsertedText::of(state.doc().try_copy()?)))
}

/// The command `selection`. The only error but `NoSession` is out of memory.
pub(crate) fn selection_of<M: Meanings>(session: &Session<M>) -> Result<Answer, LineError>
    ensures { Gives (λ a. a) result (selection (plain_session session.now)) }
{
    let state = started(session)?;
    Ok(Answer::Selection(state.selection().try_copy()?))
}
