// What a session reads of its states, as types.
ghost use Rattle.std.specs.Prelude.{◌≡◌, ◌≤◌, IfOk, Ok, option_map};
ghost use Rattle.configuration.specs.declared.vertex.Vertex.TheVariants.{Field};
ghost use Rattle.facet_slots.specs.Slotted.{plain};
ghost use Rattle.registry.specs.Predeclared.{predeclared};
ghost use Rattle.typed_keys.specs.Read.{history_in, layers_in, truth_in};
ghost use Rattle.session.specs.Views.{facet_in, tab_in};

use crate::tab_size::TabSize;
use decoration::{DecoSet, Layers};
use history::History;
use registry::{DECORATIONS, HISTORY, READ_ONLY, Registry, TAB_SIZE};
use state::State;
use std::alloc::{AllocError, Global};
use std::marker::{Model, PhantomData};
use typed_keys::{FacetKey, FieldKey, KeyError};
use values::Meanings;

/// The keys of the facets and of the field that a session itself goes by.
#[derive(Drop)]
pub(crate) struct Keys<M: Meanings> {
    read_only: FacetKey<bool, bool>,
    tab_size: FacetKey<TabSize, TabSize>,
    decorations: FacetKey<DecoSet, Layers>,
    history: FieldKey<History>,
    meanings: PhantomData<M>,
}

/// A key that was made. What is declared from the start has the shapes of these types, so that the only error is out of memory.
fn made<K: Drop>(key: Result<K, KeyError>) -> Result<K, AllocError>
    ensures { IfOk result (λ k. key ≡ Ok k) }
{
    match key {
        Ok(key) => Ok(key),
        Err(_) => Err(AllocError),
    }
}

impl<M: Meanings> Model for Keys<M> {
    ghost use Rattle.session.specs.PrivateKeys.{KeysView, AreKeys};
    ghost use Rattle.std.specs.Coded.{codes};
    ghost use Rattle.cm_plain.specs.Form.{coded_form};

    ghost Value = { KeysView };

    ghost coded = { Prim.hlevel (codes, coded_form) };

    ghost view = { λ k. record { read_only = k.read_only; tab_size = k.tab_size; decorations = k.decorations; history = k.history } };

    ghost invariant = { λ k. AreKeys M.rules (record { read_only = k.read_only; tab_size = k.tab_size; decorations = k.decorations; history = k.history }) };
}

impl<M: Meanings> Keys<M> {
    /// The keys over what is declared from the start, by a registry of this and no more. `Err`: out of memory.
    pub(crate) fn new(alloc: Global, registry: &Registry<M>) -> Result<Keys<M>, AllocError>
        requires { registry.now ≡ predeclared }
    {
        let read_only = made(FacetKey::new(alloc, registry, READ_ONLY))?;
        let tab_size = made(FacetKey::new(alloc, registry, TAB_SIZE))?;
        let decorations = made(FacetKey::new(alloc, registry, DECORATIONS))?;
        let history = made(FieldKey::new(alloc, registry, HISTORY))?;
        Ok(Keys {
            read_only,
            tab_size,
            decorations,
            history,
            meanings: PhantomData,
        })
    }

    /// Whether commands may not change the document. (Reference Manual, EditorState.readOnly.) `Err`: out of memory.
    pub(crate) fn read_only(&self, alloc: Global, state: &State<M>) -> Result<bool, AllocError>
        ensures { IfOk result (λ b. b ≡ truth_in (facet_in (plain state.now) READ_ONLY)) }
    {
        state.known();
        self.read_only.get(alloc, state)
    }

    /// The tab size. (Reference Manual, EditorState.tabSize.) `Err`: out of memory.
    pub(crate) fn tab_size(&self, alloc: Global, state: &State<M>) -> Result<u8, AllocError>
        ensures value { IfOk result (λ n. n ≡ tab_in (facet_in (plain state.now) TAB_SIZE)) }
        ensures some { IfOk result (λ n. 1 ≤ n) }
        ensures few { IfOk result (λ n. n ≤ 16) }
    {
        state.known();
        let size = self.tab_size.get(alloc, state)?;
        Ok(size.columns())
    }

    /// The decorations, as sets from the highest precedence to the lowest, lent by the state.
    pub(crate) fn decorations<'a>(&self, state: &'a State<M>) -> &'a Layers
        ensures { result.now ≡ layers_in (facet_in (plain state.now) DECORATIONS) }
    {
        state.known();
        self.decorations.layers(state)
    }

    /// The history, if the state has one. `Err`: out of memory.
    pub(crate) fn history(
        &self,
        alloc: Global,
        state: &State<M>,
    ) -> Result<Option<History>, AllocError>
        ensures { IfOk result (λ history. history ≡ option_map history_in ((plain state.now).values (Field HISTORY))) }
    {
        state.known();
        self.history.get(alloc, state)
    }
}
