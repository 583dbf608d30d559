// The state of an editor.
ghost use Rattle.std.specs.Prelude.{◌≡◌, ◌≢◌, ◌<◌, ◌≤◌, ◌+◌, Err, IfErr, IfOk, Ok, Some, is_some, length, option_copied, slice_get};
ghost use Rattle.std.specs.Option.{unwrap_or};
ghost use Rattle.values.specs.Whole.{IsWhole};
ghost use Rattle.registry.specs.Predeclared.{predeclared};
ghost use Rattle.facet_slots.specs.Agreement.{IsGrown};
ghost use Rattle.facet_slots.specs.Lawful.{FacetsFit, FieldsFit, IsLawful};
ghost use Rattle.facet_slots.specs.Resolving.{IsResolved};
ghost use Rattle.facet_slots.specs.Scenes.{IsScene};
ghost use Rattle.facet_slots.specs.Setups.{field_at};
ghost use Rattle.facet_slots.specs.Slotted.{plain};

use crate::created::{accepted, created, resolved_base};
use crate::state_error::StateError;
use crate::updated::updated;
use configuration::{Config, Vertex};
use ext_tree::ExtId;
use facet_slots::Slots;
use line_tree::Text;
use registry::{Lookup, Registry};
use selection::Selection;
use std::alloc::Global;
use std::marker::Model;
use std::sync::ledger::Ledger;
use steps::Steps;
use transaction::Spec;
use values::{Kit, Meanings, Scene, Val};

/// A state: a document with its selection, a configuration over what was declared when the state was made, and the values of
/// facets and fields. (Reference Manual, EditorState.) Contracts see it as plain data; it never changes.
#[derive(Drop)]
pub struct State<M: Meanings> {
    slots: Slots<M>,
}

impl<M: Meanings> Model for State<M> {
    ghost use Rattle.std.specs.Coded.{codes};
    ghost use Rattle.cm_plain.specs.Datum.{coded_datum};
    ghost use Rattle.facet_slots.specs.Agreement.{IsGrown};
    ghost use Rattle.facet_slots.specs.Slotted.{Slotted};
    ghost use Rattle.registry.specs.Predeclared.{predeclared};
    ghost use Rattle.facet_slots.specs.Lent.{definitions};

    ghost Value = { Slotted };

    ghost coded = { Prim.hlevel (codes, coded_datum) };

    ghost view = { λ s. s.slots };

    ghost invariant = { λ s. IsGrown (definitions predeclared) s.slots.setup.defs };
}

impl<M: Meanings> State<M> {
    ghost use Rattle.facet_slots.specs.Lent.{definitions};
    ghost use Rattle.state.specs.Creating.{creation_calls, IsCreationPaid};
    ghost use Rattle.state.specs.Plainly.{created_from, unordered, updated_from};
    ghost use Rattle.state.specs.Steps.{IsStepPaid, IsStepTo};

    /// The state that a base comes to over what is declared, with this document and this selection, which is cut to its main
    /// range unless the configuration allows several. (Reference Manual, EditorState.create.) Refused, in this order: as
    /// `TooLong`; as `SelectionOutside` with the first range that ends past the document; as `UnknownExt`; as
    /// `CompartmentLoop` or `DuplicateCompartment`; as `Cycle`. A refused call calls no rule.
    pub fn create<L: Ledger>(
        alloc: Global,
        kit: &Kit<M>,
        registry: &Registry<M>,
        document: Text,
        selection: Selection,
        base: &[ExtId],
        calls: &mut Steps<L>,
    ) -> Result<Self, StateError>
        requires whole { IsWhole M.rules kit.now }
        ensures created { IfOk result (λ s. created_from M.rules registry.now base.now (record { document = document.characters; selection = selection }) ≡ Ok (unordered (plain s))) }
        ensures grown { IfOk result (λ s. IsGrown s.setup.defs (definitions registry.now)) }
        ensures cost { IfOk result (λ s. calls.new ≤ calls.old + creation_calls M.rules s.setup (record { document = document.characters; selection = selection })) }
        ensures refused { IfErr result (λ error. error ≢ StateError.NoMemory → created_from M.rules registry.now base.now (record { document = document.characters; selection = selection }) ≡ Err error) }
        ensures uncalled { IfErr result (λ error. error ≢ StateError.NoMemory → calls.new ≡ calls.old) }
        ensures paid { IsCreationPaid M.rules registry.now base.now (record { document = document.characters; selection = selection }) calls.old calls.new }
    {
        let scene = accepted(Scene {
            document,
            selection,
        })?;
        registry.known();
        let config = resolved_base(alloc, registry, base)?;
        let slots = created(alloc, kit, registry, config, scene, calls)?;
        Ok(State { slots })
    }

    /// The state after a transaction of specs, of which filters and extenders are asked what they make. This one stays as it is.
    /// (Reference Manual, EditorState.update.) Refused, in this order: as the specs are, in the transaction's order; as `TooLong`
    /// for what change filters leave; as the specs are that transaction filters give; as the effects are that extenders give;
    /// then, where an effect is on the configuration, as `UnknownExt`; as `CompartmentLoop` or `DuplicateCompartment`; as `Cycle`.
    /// A refused call counts no call of a rule.
    pub fn update<L: Ledger>(
        &self,
        alloc: Global,
        kit: &Kit<M>,
        registry: &Registry<M>,
        specs: Vec<Spec<Val>>,
        calls: &mut Steps<L>,
    ) -> Result<Self, StateError>
        requires whole { IsWhole M.rules kit.now }
        requires grown { IsGrown self.now.setup.defs (definitions registry.now) }
        ensures updated { IfOk result (λ s. updated_from M.rules registry.now (unordered (plain self.now)) specs.items ≡ Ok (unordered (plain s))) }
        ensures grown { IfOk result (λ s. IsGrown s.setup.defs (definitions registry.now)) }
        ensures cost { IfOk result (λ s. IsStepTo M.rules registry.now (plain self.now) specs.items s.setup calls.old calls.new) }
        ensures refused { IfErr result (λ error. error ≢ StateError.NoMemory → updated_from M.rules registry.now (unordered (plain self.now)) specs.items ≡ Err error) }
        ensures uncalled { IfErr result (λ error. error ≢ StateError.NoMemory → calls.new ≡ calls.old) }
        ensures paid { IsStepPaid M.rules registry.now (plain self.now) specs.items calls.old calls.new }
    {
        match updated(alloc, kit, registry, &self.slots, specs, calls) {
            Ok(slots) => Ok(State { slots }),
            Err(error) => Err(error),
        }
    }

    /// The document. Takes no memory.
    pub fn doc(&self) -> &Text
        ensures { result.now.characters ≡ self.now.scene.document }
    {
        self.slots.document()
    }

    /// The selection, which lies in the document. Takes no memory.
    pub fn selection(&self) -> &Selection
        ensures { result.now ≡ self.now.scene.selection }
    {
        self.slots.selection()
    }

    /// The configuration. Takes no memory.
    pub fn config(&self) -> &Config
        ensures { result.now ≡ self.now.setup.config }
    {
        self.slots.config()
    }

    /// How many facets were declared when the state was made: a facet is known where its id is less than this. Takes no memory.
    pub fn facet_count(&self) -> usize
        ensures { result ≡ length self.now.setup.defs.facets }
    {
        self.slots.defs().facets.as_slice().len()
    }

    /// The value of a facet that was declared when the state was made. Takes no memory.
    pub fn facet(&self, id: u32) -> &Val
        requires { id < length self.now.setup.defs.facets }
        ensures { (plain self.now).values (Vertex.Facet id) ≡ Some result.now }
    {
        self.slots.value(id)
    }

    /// The value of a field, none exactly where it is absent. Takes no memory.
    pub fn field(&self, id: u32) -> Option<&Val>
        ensures value { option_copied result ≡ (plain self.now).values (Vertex.Field id) }
        ensures presence { is_some result ≡ is_some (field_at self.now.setup id) }
    {
        self.slots.known();
        self.slots.field(id)
    }

    /// What may be relied on in a state: its configuration was resolved over the definitions, or ones that these have grown
    /// from; these are lawful, and have what is declared from the start; and no document is too long, and the selection is one
    /// of it. Takes no memory.
    pub fn known(&self)
        ensures resolved { IsResolved self.now.setup }
        ensures lawful { IsLawful M.rules self.now.setup }
        ensures predeclared { IsGrown (definitions predeclared) self.now.setup.defs }
        ensures is_scene { IsScene self.now.scene }
        ensures fields { FieldsFit M.rules self.now.setup (plain self.now).values }
        ensures facets { FacetsFit M.rules self.now.setup (plain self.now).values }
    {
        self.slots.known();
    }
}

impl<M: Meanings> Lookup for State<M> {
    ghost use Rattle.configuration.specs.declared.vertex.Vertex.TheVariants.{Facet, Field};
    ghost use Rattle.values.specs.Reading.{nothing};

    ghost rules = { M.rules };

    ghost facet_def = { λ s id. slice_get s.setup.defs.facets id };

    ghost field_def = { λ s id. slice_get s.setup.defs.fields id };

    ghost facet_value = { λ s id. unwrap_or ((plain s).values (Facet id)) nothing };

    ghost field_value = { λ s id. (plain s).values (Field id) };

    fn facet(&self, id: u32) -> &Val {
        self.slots.known();
        self.slots.value(id)
    }

    fn field(&self, id: u32) -> Option<&Val> {
        self.slots.known();
        self.slots.field(id)
    }
}
