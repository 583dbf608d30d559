// The slots of a state, which keep what is found.
ghost use Rattle.std.specs.Prelude.{◌≡◌, IfOk};
ghost use Rattle.facet_slots.specs.Lent.{defs_of, setup_of};

use crate::first::first_kept;
use crate::heard::{end_scene, scene_copy};
use crate::kept::Kept;
use crate::setup::Setup;
use crate::transition::Transition;
use crate::walk::kept_after;
use configuration::{Config, Defs, Vertex};
use line_tree::Text;
use selection::Selection;
use std::alloc::{AllocError, Global};
use std::marker::{Model, PhantomData};
use std::rc::Rc;
use std::sync::ledger::Ledger;
use steps::Steps;
use values::{Kit, Meanings, Scene, TrView, Val};

/// The values of the facets and fields of a configuration in one state, with the document, its selection and what each input
/// gave. Contracts see the configuration over its definitions, the document as its characters, and the values by id.
#[derive(Drop)]
pub struct Slots<M: Meanings> {
    defs: Rc<Defs<Val>>,
    config: Rc<Config>,
    kept: Box<Kept>,
    meanings: PhantomData<M>,
}

impl<M: Meanings> Model for Slots<M> {
    ghost use Rattle.std.specs.Coded.{codes};
    ghost use Rattle.cm_plain.specs.Datum.{coded_datum};
    ghost use Rattle.facet_slots.specs.Lent.{defs_of, scene_in};
    ghost use Rattle.facet_slots.specs.Slotted.{Slotted, AreSlots};

    ghost Value = { Slotted };

    ghost coded = { Prim.hlevel (codes, coded_datum) };

    ghost view = { λ s. record { setup = record { defs = defs_of s.defs.value; config = s.config.value }; scene = scene_in s.kept.value; facets = s.kept.value.shelf.facets; fields = s.kept.value.shelf.fields } };

    ghost invariant = { λ s. AreSlots M.rules (record { defs = defs_of s.defs.value; config = s.config.value }) (scene_in s.kept.value) s.kept.value.shelf.facets s.kept.value.shelf.fields s.kept.value.shelf.inputs };
}

/// A configuration over its definitions, lent.
fn lent<'a>(defs: &'a Rc<Defs<Val>>, config: &'a Rc<Config>) -> Setup<'a>
    ensures { setup_of result ≡ record { defs = defs_of defs.entry.now.value; config = config.entry.now.value } }
{
    Setup {
        defs,
        config: Some(config),
    }
}

/// The same configuration once more, without a copy of it. `Err`: no further owner can be counted.
fn share_config(config: &Rc<Config>) -> Result<Rc<Config>, AllocError>
    ensures { IfOk result (λ copy. copy.value ≡ config.now.value) }
{
    let copy = config.clone()?;
    Ok(copy)
}

impl<M: Meanings> Slots<M> {
    ghost use Rattle.std.specs.Prelude.{◌≡◌, ◌<◌, ◌+◌, ◌≤◌, ℕ, length, option_copied, IfOk, None, Some};
    ghost use Rattle.std.specs.Option.{option_map};
    ghost use Rattle.facet_slots.specs.FacetValues.{facet_value};
    ghost use Rattle.facet_slots.specs.Setups.{facet_at, field_at};
    ghost use Rattle.values.specs.Whole.{IsWhole};
    ghost use Rattle.facet_slots.specs.Scenes.{IsScene};
    ghost use Rattle.facet_slots.specs.Found.{scene_of};
    ghost use Rattle.facet_slots.specs.Stepping.{Enter, Update, creation, empty_state, mid, next};
    ghost use Rattle.facet_slots.specs.Making.{IsMade};
    ghost use Rattle.facet_slots.specs.Agreement.{IsGrown};
    ghost use Rattle.facet_slots.specs.Resolving.{IsResolved};
    ghost use Rattle.facet_slots.specs.Lawful.{FacetsFit, FieldsFit, IsLawful};
    ghost use Rattle.facet_slots.specs.Due.{transition_calls};
    ghost use Rattle.facet_slots.specs.Lent.{defs_of};
    ghost use Rattle.facet_slots.specs.Slotted.{plain};

    /// The slots of a first configuration over a document with its selection: each field is created. `Err`: out of memory.
    pub fn fresh<L: Ledger>(
        alloc: Global,
        kit: &Kit<M>,
        defs: Rc<Defs<Val>>,
        config: Rc<Config>,
        scene: Scene,
        calls: &mut Steps<L>,
    ) -> Result<Self, AllocError>
        requires whole { IsWhole M.rules kit.now }
        requires resolved { IsResolved (record { defs = defs_of defs.value; config = config.value }) }
        requires lawful { IsLawful M.rules (record { defs = defs_of defs.value; config = config.value }) }
        requires is_scene { IsScene (scene_of scene) }
        ensures state { IfOk result (λ s. plain s ≡ creation M.rules (record { defs = defs_of defs.value; config = config.value }) (scene_of scene)) }
        ensures cost { calls.new ≤ calls.old + transition_calls M.rules Enter (empty_state (scene_of scene)) (record { defs = defs_of defs.value; config = config.value }) }
    {
        let kept = first_kept(alloc, kit, &lent(&defs, &config), scene, calls)?;
        kept.shelf.known();
        Ok(Slots {
            defs,
            config,
            kept,
            meanings: PhantomData,
        })
    }

    /// The slots of the mid state: the fields enter another configuration, over the same document and selection. A field that
    /// was present with an equal first value, or with none then and now, keeps its value; another one is created. Only rules
    /// that are due are called. `Err`: out of memory.
    pub fn reconfigure<L: Ledger>(
        &self,
        alloc: Global,
        kit: &Kit<M>,
        defs: Rc<Defs<Val>>,
        config: Rc<Config>,
        calls: &mut Steps<L>,
    ) -> Result<Self, AllocError>
        requires whole { IsWhole M.rules kit.now }
        requires resolved { IsResolved (record { defs = defs_of defs.value; config = config.value }) }
        requires lawful { IsLawful M.rules (record { defs = defs_of defs.value; config = config.value }) }
        requires grown { IsGrown self.now.setup.defs (defs_of defs.value) }
        ensures state { IfOk result (λ s. plain s ≡ mid M.rules (plain self.now) (record { defs = defs_of defs.value; config = config.value })) }
        ensures cost { calls.new ≤ calls.old + transition_calls M.rules Enter (plain self.now) (record { defs = defs_of defs.value; config = config.value }) }
    {
        let old: &Kept = &self.kept;
        let scene = scene_copy(&old.scene)?;
        let kept = kept_after(
            alloc,
            kit,
            &Transition::Enter,
            &lent(&self.defs, &self.config),
            old,
            &lent(&defs, &config),
            scene,
            calls,
        )?;
        kept.shelf.known();
        Ok(Slots {
            defs,
            config,
            kept,
            meanings: PhantomData,
        })
    }

    /// The slots after a transaction, in the configuration as it stands: each field has its updater's answer on its old value.
    /// Only rules that are due are called. `Err`: out of memory.
    pub fn update<L: Ledger>(
        &self,
        alloc: Global,
        kit: &Kit<M>,
        defs: Rc<Defs<Val>>,
        transaction: &TrView,
        calls: &mut Steps<L>,
    ) -> Result<Self, AllocError>
        requires whole { IsWhole M.rules kit.now }
        requires lawful { IsLawful M.rules (record { defs = defs_of defs.value; config = self.now.setup.config }) }
        requires grown { IsGrown self.now.setup.defs (defs_of defs.value) }
        requires made { IsMade self.now.scene transaction.now }
        ensures state { IfOk result (λ s. plain s ≡ next M.rules (plain self.now) (record { defs = defs_of defs.value; config = self.now.setup.config }) transaction.now) }
        ensures cost { calls.new ≤ calls.old + transition_calls M.rules (Update transaction.now) (plain self.now) (record { defs = defs_of defs.value; config = self.now.setup.config }) }
    {
        let config = share_config(&self.config)?;
        let scene = end_scene(transaction)?;
        let kept = kept_after(
            alloc,
            kit,
            &Transition::Update(transaction),
            &lent(&self.defs, &self.config),
            &self.kept,
            &lent(&defs, &config),
            scene,
            calls,
        )?;
        kept.shelf.known();
        Ok(Slots {
            defs,
            config,
            kept,
            meanings: PhantomData,
        })
    }

    /// The definitions, which others may share. Takes no memory.
    pub fn defs(&self) -> &Rc<Defs<Val>>
        ensures { defs_of result.now.value ≡ self.now.setup.defs }
    {
        &self.defs
    }

    /// The configuration. Takes no memory.
    pub fn config(&self) -> &Config
        ensures { result.now ≡ self.now.setup.config }
    {
        &self.config
    }

    /// The document. Takes no memory.
    pub fn document(&self) -> &Text
        ensures { result.now.characters ≡ self.now.scene.document }
    {
        &self.kept.scene.document
    }

    /// The selection. Takes no memory.
    pub fn selection(&self) -> &Selection
        ensures { result.now ≡ self.now.scene.selection }
    {
        &self.kept.scene.selection
    }

    /// What may be relied on in slots: a facet's value is its present inputs combined, each present field has a value of its
    /// updater's shape, and an absent one has none. Takes no memory.
    pub fn known(&self)
        ensures resolved { IsResolved self.now.setup }
        ensures lawful { IsLawful M.rules self.now.setup }
        ensures is_scene { IsScene self.now.scene }
        ensures combined { (f : ℕ) → (plain self.now).values (Vertex.Facet f) ≡ option_map (facet_value M.rules self.now.scene (plain self.now).values) (facet_at self.now.setup f) }
        ensures fields { FieldsFit M.rules self.now.setup (plain self.now).values }
        ensures facets { FacetsFit M.rules self.now.setup (plain self.now).values }
        ensures absent { (f : ℕ) → field_at self.now.setup f ≡ None → (plain self.now).values (Vertex.Field f) ≡ None }
    {
        let _ = &self.kept;
    }

    /// The value of a facet that is declared. Takes no memory.
    pub fn value(&self, facet: u32) -> &Val
        requires { facet < length self.now.setup.defs.facets }
        ensures { (plain self.now).values (Vertex.Facet facet) ≡ Some result.now }
    {
        match self.kept.shelf.facet(facet) {
            Some(value) => value.value(),
            None => unreachable!(),
        }
    }

    /// The value of a field, none where it is absent. Takes no memory.
    pub fn field(&self, field: u32) -> Option<&Val>
        ensures { option_copied result ≡ (plain self.now).values (Vertex.Field field) }
    {
        match self.kept.shelf.field(field) {
            Some(value) => Some(value.value()),
            None => None,
        }
    }
}
