// The registry.
ghost use Rattle.std.specs.Prelude.{◌≡◌, ◌+◌, [], ◌∷◌, length, IfErr, IfOk, OnErr, OnOk};
ghost use Rattle.configuration.specs.declared.node_def.NodeDef.TheVariants as defs;
ghost use Rattle.ext_tree.specs.Tree.{AreLinksOlder};
ghost use Rattle.ext_tree.specs.declared.node.Node.TheVariants as nodes;
ghost use Rattle.values.specs.Rules.{Rules};
ghost use Rattle.values.specs.Declarations.{AreDefs, with_compartment, with_effect, with_facet, with_field, with_node, with_pair, with_placed};
ghost use Rattle.values.specs.Growth.{IsGrowth};
ghost use Rattle.values.specs.Lawful.{IsLawful};
ghost use Rattle.registry.specs.Predeclared.{predeclared};
ghost use Rattle.registry.specs.PrivateUndoing.{IsBegun};
ghost use Rattle.registry.specs.WholeFields.{inputs_refusals, provided_refusals, whole_field_refusals, with_inputs_from, with_provided, with_whole_field};
ghost use Rattle.registry.specs.Refusals.{IsRefused, Passes, compartment_refusals, compute_n_refusals, compute_refusals, effect_refusals, facet_refusals, field_refusals, from_refusals, group_refusals, init_refusals, input_refusals, pair_refusals, place_refusals, prec_refusals, slot_refusals};

use crate::field_ids::FieldIds;
use crate::id_sort::IdSort;
use crate::known::has_room;
use crate::parts::Parts;
use crate::provided::Provided;
use crate::refusals::{
    compute_n_refusal, compute_refusal, effect_refusal, facet_refusal, field_refusal,
    group_refusal, init_refusal, input_refusal, pair_refusal, place_refusal, prec_refusal,
    slot_refusal,
};
use crate::registry_error::RegistryError;
use configuration::{Defs, Dependency, FacetDef, FieldDef, NodeDef};
use ext_tree::{Arena, ExtId, ExtIds, Node, Precedence};
use listed::Listed;
use std::alloc::Global;
use std::marker::{Model, PhantomData};
use transaction::EffectKinds;
use values::{Meanings, Val};

/// What was declared by number of the rules of `M`. Contracts see it as plain data, which is lawful, and has grown from what is
/// declared from the start.
///
/// Each call that declares gives the new id. It is refused with the first cause in the order that its definition lists,
/// and then, as when out of memory, the registry is as before.
#[derive(Drop)]
pub struct Registry<M: Meanings> {
    parts: Parts,
    meanings: PhantomData<M>,
}

impl<M: Meanings> Model for Registry<M> {
    ghost use Rattle.std.specs.Coded.{codes};
    ghost use Rattle.cm_plain.specs.Datum.{coded_datum};
    ghost use Rattle.values.specs.Declarations.{Declarations};

    ghost Value = { Declarations };

    ghost coded = { Prim.hlevel (codes, coded_datum) };

    ghost use Rattle.registry.specs.PrivateRegistered.{IsRegistered};

    ghost view = { λ r. r.parts };

    ghost invariant = { λ r. IsRegistered M.rules r.parts };
}

impl<M: Meanings> Registry<M> {
    /// A registry of what is declared from the start. Takes no memory.
    pub(crate) fn started(parts: Parts) -> Self
        requires { parts ≡ predeclared }
        ensures { result ≡ predeclared }
    {
        Registry {
            parts,
            meanings: PhantomData,
        }
    }

    /// What may be relied on in a registry: what is declared is lawful, and has grown from what is declared from the start.
    /// Takes no memory.
    pub fn known(&self)
        ensures lawful { IsLawful M.rules self.now }
        ensures grown { IsGrowth predeclared self.now }
    {
        let _ = &self.parts;
    }

    /// The definitions that configurations are resolved over. Takes no memory.
    pub fn defs(&self) -> &Defs<Val>
        ensures defs { AreDefs result.now self.now }
        ensures lawful { IsLawful M.rules self.now }
    {
        self.parts.defs()
    }

    /// The nodes. Takes no memory.
    pub fn arena(&self) -> &Arena
        ensures nodes { result.now ≡ self.now.nodes }
        ensures lawful { IsLawful M.rules self.now }
    {
        self.parts.arena()
    }

    /// The map numbers of the effect kinds, and how many compartments there are. Takes no memory.
    pub fn kinds(&self) -> &EffectKinds
        ensures maps { result.now.maps ≡ self.now.maps }
        ensures compartments { result.now.compartments ≡ self.now.compartments }
    {
        self.parts.kinds()
    }

    /// By effect kind, the kind that undoes it, if there is one. Takes no memory.
    pub fn pairs(&self) -> &[Option<u32>]
        ensures { result.now ≡ self.now.pairs }
    {
        self.parts.pairs()
    }

    /// Declares a facet by its rules, and what it enables. (Reference Manual, Facet.define.) Refused as `UnknownId`,
    /// `UnknownRule` or `TooMany`.
    pub fn facet(&mut self, def: FacetDef, enables: ExtIds) -> Result<u32, RegistryError>
        ensures id { IfOk result (λ id. id ≡ length self.old.facets) }
        ensures declared { OnOk result (self.new ≡ with_facet self.old def enables) }
        ensures passes { OnOk result (Passes (facet_refusals M.rules self.old def enables)) }
        ensures refused { IfErr result (IsRefused (facet_refusals M.rules self.old def enables)) }
        ensures same { OnErr result (self.new ≡ self.old) }
        ensures grows { IsGrowth self.old self.new }
    {
        if let Some(error) = facet_refusal::<M>(&self.parts, &def, enables.ids()) {
            return Err(error);
        }
        let id = self.parts.facet_count() as u32;
        self.parts.add_facet(def, enables)?;
        Ok(id)
    }

    /// Declares a field by its rules, what it reads and what it listens to; it isn't placed yet. (Reference Manual,
    /// StateField.define.) Refused as `UnknownId`, `UnknownRule`, `WrongShape` or `TooMany`.
    pub fn field_declare(&mut self, def: FieldDef) -> Result<u32, RegistryError>
        ensures id { IfOk result (λ id. id ≡ length self.old.fields) }
        ensures declared { OnOk result (self.new ≡ with_field self.old def) }
        ensures passes { OnOk result (Passes (field_refusals M.rules self.old def)) }
        ensures refused { IfErr result (IsRefused (field_refusals M.rules self.old def)) }
        ensures same { OnErr result (self.new ≡ self.old) }
        ensures grows { IsGrowth self.old self.new }
    {
        field_refusal::<M>(&self.parts, &def)?;
        let id = self.parts.field_count() as u32;
        self.parts.add_field(def)?;
        Ok(id)
    }

    /// Places a field: gives it its node, and the nodes that it provides. (Reference Manual, StateField.define, provide.)
    /// Refused as `UnknownId`, `AlreadyPlaced` or `TooMany`.
    pub fn field_place(&mut self, field: u32, provides: ExtIds) -> Result<ExtId, RegistryError>
        ensures id { IfOk result (λ id. id ≡ length self.old.nodes) }
        ensures placed { OnOk result (self.new ≡ with_placed self.old field provides) }
        ensures passes { OnOk result (Passes (place_refusals self.old field provides)) }
        ensures refused { IfErr result (IsRefused (place_refusals self.old field provides)) }
        ensures same { OnErr result (self.new ≡ self.old) }
        ensures grows { IsGrowth self.old self.new }
    {
        if let Some(error) = place_refusal(&self.parts, field, provides.ids()) {
            return Err(error);
        }
        let id = self.parts.place(field, provides)?;
        Ok(id)
    }

    /// Makes inputs of facets that a rule each computes from a field's value, in order. Refused as the first `input_from` that
    /// is; then, as when out of memory, the ones before it are made.
    fn inputs_from(&mut self, field: u32, provides: &[Provided]) -> Result<(), RegistryError>
        ensures made { OnOk result (self.new ≡ with_inputs_from self.old field provides.now) }
        ensures passes { OnOk result (Passes (inputs_refusals M.rules self.old field provides.now)) }
        ensures refused { IfErr result (IsRefused (inputs_refusals M.rules self.old field provides.now)) }
        ensures begun { OnErr result (IsBegun self.old field self.new) }
        ensures grows { IsGrowth self.old self.new }
    {
        for provided in provides {
            self.input_from(provided.facet, field, provided.rule)?;
        }
        Ok(())
    }

    /// Makes such inputs, and places the field with them. Where it doesn't answer Ok, some of them are made.
    fn provide(&mut self, field: u32, provides: &[Provided]) -> Result<ExtId, RegistryError>
        ensures id { IfOk result (λ id. id ≡ length self.old.nodes + length provides.now) }
        ensures made { OnOk result (self.new ≡ with_provided self.old field provides.now) }
        ensures passes { OnOk result (Passes (provided_refusals M.rules self.old field provides.now)) }
        ensures refused { IfErr result (IsRefused (provided_refusals M.rules self.old field provides.now)) }
        ensures begun { OnErr result (IsBegun self.old field self.new) }
        ensures grows { IsGrowth self.old self.new }
    {
        let first = self.parts.node_count() as u32;
        self.inputs_from(field, provides)?;
        let inputs = self.parts.nodes_from(first)?;
        self.field_place(field, inputs)
    }

    /// Declares a field by its rules, what it reads and what it listens to, makes the inputs of facets that it provides, and
    /// places it, all or nothing. (Reference Manual, StateField.define, provide.) Refused as `field_declare`, else as the first
    /// `input_from` that is, else as `field_place`.
    pub fn field(&mut self, def: FieldDef, provides: &[Provided]) -> Result<FieldIds, RegistryError>
        ensures field { IfOk result (λ ids. ids.field ≡ length self.old.fields) }
        ensures node { IfOk result (λ ids. ids.node ≡ length self.old.nodes + length provides.now) }
        ensures declared { OnOk result (self.new ≡ with_whole_field self.old def provides.now) }
        ensures passes { OnOk result (Passes (whole_field_refusals M.rules self.old def provides.now)) }
        ensures refused { IfErr result (IsRefused (whole_field_refusals M.rules self.old def provides.now)) }
        ensures same { OnErr result (self.new ≡ self.old) }
        ensures grows { IsGrowth self.old self.new }
    {
        let fields = self.parts.field_count();
        let nodes = self.parts.node_count();
        let field = self.field_declare(def)?;
        match self.provide(field, provides) {
            Ok(node) => Ok(FieldIds { field, node }),
            Err(error) => {
                self.parts.shorten(fields, nodes);
                Err(error)
            }
        }
    }

    /// Declares an effect kind, which may have a map. (Reference Manual, StateEffect.define.) Refused as `UnknownRule` or
    /// `TooMany`.
    pub fn effect(&mut self, map: Option<u32>) -> Result<u32, RegistryError>
        ensures id { IfOk result (λ id. id ≡ length self.old.maps) }
        ensures declared { OnOk result (self.new ≡ with_effect self.old map) }
        ensures passes { OnOk result (Passes (effect_refusals M.rules self.old map)) }
        ensures refused { IfErr result (IsRefused (effect_refusals M.rules self.old map)) }
        ensures same { OnErr result (self.new ≡ self.old) }
        ensures grows { IsGrowth self.old self.new }
    {
        if let Some(error) = effect_refusal::<M>(&self.parts, map) {
            return Err(error);
        }
        let id = self.parts.effect_count() as u32;
        self.parts.add_effect(map)?;
        Ok(id)
    }

    /// Declares a compartment. (Reference Manual, Compartment.) Refused as `TooMany`. Takes no memory.
    pub fn compartment(&mut self) -> Result<u32, RegistryError>
        ensures id { IfOk result (λ id. id ≡ self.old.compartments) }
        ensures declared { OnOk result (self.new ≡ with_compartment self.old) }
        ensures passes { OnOk result (Passes (compartment_refusals self.old)) }
        ensures refused { IfErr result (IsRefused (compartment_refusals self.old)) }
        ensures same { OnErr result (self.new ≡ self.old) }
        ensures grows { IsGrowth self.old self.new }
    {
        let id = self.parts.compartment_count();
        if let Some(error) = has_room(IdSort::Compartment, id as usize) {
            return Err(error);
        }
        self.parts.add_compartment();
        Ok(id)
    }

    /// A group of nodes, in this order. Refused as `UnknownId` or `TooMany`.
    pub fn group(&mut self, of: ExtIds) -> Result<ExtId, RegistryError>
        ensures id { IfOk result (λ id. id ≡ length self.old.nodes) }
        ensures made { OnOk result (self.new ≡ with_node self.old (nodes.Group of) defs.Branch) }
        ensures passes { OnOk result (Passes (group_refusals self.old of)) }
        ensures refused { IfErr result (IsRefused (group_refusals self.old of)) }
        ensures same { OnErr result (self.new ≡ self.old) }
        ensures grows { IsGrowth self.old self.new }
    {
        if let Some(error) = group_refusal(&self.parts, of.ids()) {
            return Err(error);
        }
        let id = self.parts.add_node(&Node::Group(of), NodeDef::Branch)?;
        Ok(id)
    }

    /// A node at a precedence of its own. (Reference Manual, Prec.) Refused as `UnknownId` or `TooMany`.
    pub fn prec(&mut self, at: Precedence, of: ExtId) -> Result<ExtId, RegistryError>
        ensures id { IfOk result (λ id. id ≡ length self.old.nodes) }
        ensures made { OnOk result (self.new ≡ with_node self.old (nodes.Prec at of) defs.Branch) }
        ensures passes { OnOk result (Passes (prec_refusals self.old of)) }
        ensures refused { IfErr result (IsRefused (prec_refusals self.old of)) }
        ensures same { OnErr result (self.new ≡ self.old) }
        ensures grows { IsGrowth self.old self.new }
    {
        if let Some(error) = prec_refusal(&self.parts, of) {
            return Err(error);
        }
        let id = self.parts.add_node(&Node::Prec(at, of), NodeDef::Branch)?;
        Ok(id)
    }

    /// The slot of a compartment, with the content that it has where none is set. (Reference Manual, Compartment.of.)
    /// Refused as `UnknownId` or `TooMany`.
    pub fn slot(&mut self, compartment: u32, of: ExtId) -> Result<ExtId, RegistryError>
        ensures id { IfOk result (λ id. id ≡ length self.old.nodes) }
        ensures made { OnOk result (self.new ≡ with_node self.old (nodes.Slot compartment of) defs.Branch) }
        ensures passes { OnOk result (Passes (slot_refusals self.old compartment of)) }
        ensures refused { IfErr result (IsRefused (slot_refusals self.old compartment of)) }
        ensures same { OnErr result (self.new ≡ self.old) }
        ensures grows { IsGrowth self.old self.new }
    {
        if let Some(error) = slot_refusal(&self.parts, compartment, of) {
            return Err(error);
        }
        let node = Node::Slot {
            compartment,
            content: of,
        };
        let id = self.parts.add_node(&node, NodeDef::Branch)?;
        Ok(id)
    }

    /// An input of a facet with a value of its own. (Reference Manual, Facet.of.) Refused as `UnknownId`, `WrongShape` or
    /// `TooMany`.
    pub fn input_of(&mut self, facet: u32, value: Val) -> Result<ExtId, RegistryError>
        ensures id { IfOk result (λ id. id ≡ length self.old.nodes) }
        ensures made { OnOk result (self.new ≡ with_node self.old (nodes.Input facet) (defs.Of value)) }
        ensures passes { OnOk result (Passes (input_refusals M.rules self.old facet value)) }
        ensures refused { IfErr result (IsRefused (input_refusals M.rules self.old facet value)) }
        ensures same { OnErr result (self.new ≡ self.old) }
        ensures grows { IsGrowth self.old self.new }
    {
        input_refusal::<M>(&self.parts, facet, &value)?;
        value.known();
        let id = self
            .parts
            .add_node(&Node::Input(facet), NodeDef::Of(value))?;
        Ok(id)
    }

    /// An input of a facet that a rule computes from what it reads. (Reference Manual, Facet.compute.) Refused as
    /// `UnknownId`, `UnknownRule`, `StaticFacet`, `WrongShape` or `TooMany`.
    pub fn input_compute(
        &mut self,
        facet: u32,
        rule: u32,
        reads: Listed<Dependency>,
    ) -> Result<ExtId, RegistryError>
        ensures id { IfOk result (λ id. id ≡ length self.old.nodes) }
        ensures made { OnOk result (self.new ≡ with_node self.old (nodes.Input facet) (defs.Compute rule reads)) }
        ensures passes { OnOk result (Passes (compute_refusals M.rules self.old facet rule reads)) }
        ensures refused { IfErr result (IsRefused (compute_refusals M.rules self.old facet rule reads)) }
        ensures same { OnErr result (self.new ≡ self.old) }
        ensures grows { IsGrowth self.old self.new }
    {
        compute_refusal::<M>(&self.parts, facet, rule, reads.as_slice())?;
        let id = self
            .parts
            .add_node(&Node::Input(facet), NodeDef::Compute { rule, reads })?;
        Ok(id)
    }

    /// Inputs of a facet that a rule computes from what it reads. (Reference Manual, Facet.computeN.) Refused as
    /// `input_compute`.
    pub fn input_compute_n(
        &mut self,
        facet: u32,
        rule: u32,
        reads: Listed<Dependency>,
    ) -> Result<ExtId, RegistryError>
        ensures id { IfOk result (λ id. id ≡ length self.old.nodes) }
        ensures made { OnOk result (self.new ≡ with_node self.old (nodes.Input facet) (defs.ComputeN rule reads)) }
        ensures passes { OnOk result (Passes (compute_n_refusals M.rules self.old facet rule reads)) }
        ensures refused { IfErr result (IsRefused (compute_n_refusals M.rules self.old facet rule reads)) }
        ensures same { OnErr result (self.new ≡ self.old) }
        ensures grows { IsGrowth self.old self.new }
    {
        compute_n_refusal::<M>(&self.parts, facet, rule, reads.as_slice())?;
        let id = self
            .parts
            .add_node(&Node::Input(facet), NodeDef::ComputeN { rule, reads })?;
        Ok(id)
    }

    /// An input of a facet that a rule computes from a field's value. (Reference Manual, Facet.from.) Refused as
    /// `input_compute`.
    pub fn input_from(&mut self, facet: u32, field: u32, rule: u32) -> Result<ExtId, RegistryError>
        ensures id { IfOk result (λ id. id ≡ length self.old.nodes) }
        ensures made { OnOk result (self.new ≡ with_node self.old (nodes.Input facet) (defs.From field rule)) }
        ensures passes { OnOk result (Passes (from_refusals M.rules self.old facet field rule)) }
        ensures refused { IfErr result (IsRefused (from_refusals M.rules self.old facet field rule)) }
        ensures same { OnErr result (self.new ≡ self.old) }
        ensures grows { IsGrowth self.old self.new }
    {
        compute_refusal::<M>(&self.parts, facet, rule, &[Dependency::Field(field)])?;
        let id = self
            .parts
            .add_node(&Node::Input(facet), NodeDef::From { field, rule })?;
        Ok(id)
    }

    /// A field with a first value of its own. (Reference Manual, StateField.init.) Refused as `UnknownId` (also where the
    /// field isn't placed yet), `WrongShape` or `TooMany`.
    pub fn init(&mut self, field: u32, value: Val) -> Result<ExtId, RegistryError>
        ensures id { IfOk result (λ id. id ≡ length self.old.nodes) }
        ensures made { OnOk result (self.new ≡ with_node self.old (nodes.Init field) (defs.Init value)) }
        ensures passes { OnOk result (Passes (init_refusals M.rules self.old field value)) }
        ensures refused { IfErr result (IsRefused (init_refusals M.rules self.old field value)) }
        ensures same { OnErr result (self.new ≡ self.old) }
        ensures grows { IsGrowth self.old self.new }
    {
        init_refusal::<M>(&self.parts, field, &value)?;
        value.known();
        let id = self
            .parts
            .add_node(&Node::Init(field), NodeDef::Init(value))?;
        Ok(id)
    }

    /// Makes two effect kinds each other's inverse; they may be the same one. (Reference Manual, invertedEffects.) Refused
    /// as `UnknownId`, `BadInverse` or `InverseTaken`. Takes no memory.
    pub fn pair(&mut self, effect: u32, back: u32) -> Result<(), RegistryError>
        ensures paired { OnOk result (self.new ≡ with_pair self.old effect back) }
        ensures passes { OnOk result (Passes (pair_refusals self.old effect back)) }
        ensures refused { IfErr result (IsRefused (pair_refusals self.old effect back)) }
        ensures same { OnErr result (self.new ≡ self.old) }
        ensures grows { IsGrowth self.old self.new }
    {
        if let Some(error) = pair_refusal(&self.parts, effect, back) {
            return Err(error);
        }
        self.parts.pair(effect, back);
        Ok(())
    }
}
