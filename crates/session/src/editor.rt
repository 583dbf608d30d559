// What answers the keys of a source by frames.
ghost use Rattle.values.specs.Whole.{IsWhole};
ghost use Rattle.session.specs.Keyed.{key_machine};
ghost use Rattle.session.specs.State.{Desk, desk_of, plain_session};

use crate::session::Session;
use cm_outside::{Store, StoreFault};
use cm_plain::Str;
use key_run::AnswersKeys;
use screen::Screen;
use std::alloc::AllocError;
use term_keys::Key;
use values::{Kit, Meanings};

/// A session, and the screen that its frames are drawn on.
#[derive(Drop)]
pub(crate) struct Editor<M: Meanings> {
    pub(crate) session: Session<M>,
    pub(crate) screen: Screen,
}

/// What an editor is lent for each key: the rules, and the name of the file that Save writes.
#[derive(Drop)]
pub(crate) struct Lent<'a, M> {
    pub(crate) kit: &'a Kit<M>,
    pub(crate) file: &'a Str,
}

impl<'a, M: Meanings, D: Store> AnswersKeys<Lent<'a, M>, D> for Editor<M> {
    ghost Plain = { Desk };

    ghost told = { λ editor store. desk_of (plain_session editor.session) (D.files store) };

    ghost machine = { λ lent. key_machine M.rules lent.file.now };

    ghost faults = { D.faults };

    ghost can_lend = { λ lent. IsWhole M.rules lent.kit.now };

    fn first_frame(&mut self, _with: &Lent<'a, M>, _store: &D) -> Result<String, AllocError> {
        self.session.frame(&mut self.screen)
    }

    fn answer_key(
        &mut self,
        with: &Lent<'a, M>,
        key: Key,
        time: i64,
        store: &mut D,
    ) -> Result<String, StoreFault> {
        self.session
            .key(with.kit, store, &mut self.screen, with.file, key, time)
    }
}
