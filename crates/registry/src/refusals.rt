// Why each declaration is refused.
ghost use Rattle.values.specs.Declarations.{max_count};
ghost use Rattle.std.specs.Prelude.{◌≡◌, ◌≤◌, length, slice_get, IfErr, OnOk};
ghost use Rattle.values.specs.Lawful.{AllAt, IsLawfulFacet, IsLawfulField, are_inverse};
ghost use Rattle.registry.specs.Refusals.{IsRefused, Passes, compute_n_refusals, compute_refusals, computed_names, computes, effect_refusals, facet_refusals, field_names, field_refusals, first_of, group_refusals, init_refusals, input_refusals, map_known, pair_refusals, place_refusals, prec_refusals, slot_refusals};

use crate::id_sort::IdSort;
use crate::known::{all_known, ended, has_room, known, reads_known, rule_known, unless};
use crate::parts::Parts;
use crate::registry_error::RegistryError;
use crate::rule_sort::RuleSort;
use crate::shapes::{is_computed_input, is_computed_list, is_created, is_init, is_input};
use configuration::{Dependency, FacetDef, FieldDef};
use ext_tree::ExtId;
use values::{Meanings, Val};

/// Why a facet is refused.
#[tactic(auto, using(crate::proofs::Passing::or_none))]
pub(crate) fn facet_refusal<M: Meanings>(
    parts: &Parts,
    def: &FacetDef,
    enables: &[ExtId],
) -> Option<RegistryError>
    ensures { result ≡ first_of (facet_refusals M.rules parts.now def.now enables.now) }
{
    let named = all_known(IdSort::Node, parts.node_count(), enables);
    let combine = rule_known(RuleSort::Combine, M::combiners(), def.combine);
    let input = rule_known(RuleSort::Compare, M::comparers(), def.compare_input);
    let compare = rule_known(RuleSort::Compare, M::comparers(), def.compare);
    let room = has_room(IdSort::Facet, parts.facet_count());
    named.or(combine.or(input.or(compare.or(room))))
}

/// Whether all that a field names is known.
#[tactic(auto, using(crate::proofs::Passing::or_none))]
fn field_names<M: Meanings>(parts: &Parts, def: &FieldDef) -> Option<RegistryError>
    ensures { result ≡ first_of (field_names M.rules parts.now def.now) }
{
    let reads = reads_known(
        parts.facet_count(),
        parts.field_count(),
        def.reads.as_slice(),
    );
    let listens = all_known(IdSort::Effect, parts.effect_count(), def.listens.as_slice());
    let create = rule_known(RuleSort::Create, M::creators(), def.create);
    let update = rule_known(RuleSort::Update, M::updaters(), def.update);
    let compare = rule_known(RuleSort::Compare, M::comparers(), def.compare);
    reads.or(listens.or(create.or(update.or(compare))))
}

/// Why a field is refused.
pub(crate) fn field_refusal<M: Meanings>(parts: &Parts, def: &FieldDef) -> Result<(), RegistryError>
    requires { length parts.now.fields ≤ max_count }
    ensures passes { OnOk result (Passes (field_refusals M.rules parts.now def.now)) }
    ensures refused { IfErr result (IsRefused (field_refusals M.rules parts.now def.now)) }
{
    if let Some(error) = field_names::<M>(parts, def) {
        return Err(error);
    }
    let fits = is_created::<M>(parts.allocator(), def.create, def.update)?;
    let count = parts.field_count();
    let shape = unless(fits, RegistryError::WrongShape { id: count as u32 });
    ended(shape.or(has_room(IdSort::Field, count)))
}

/// Why a field can't be placed.
#[tactic(auto, using(crate::proofs::Passing::or_none))]
pub(crate) fn place_refusal(parts: &Parts, field: u32, provides: &[ExtId]) -> Option<RegistryError>
    ensures { result ≡ first_of (place_refusals parts.now field provides.now) }
{
    let named = known(IdSort::Field, parts.field_count(), field);
    let nodes = all_known(IdSort::Node, parts.node_count(), provides);
    let unplaced = unless(
        !parts.is_placed(field),
        RegistryError::AlreadyPlaced { field },
    );
    let room = has_room(IdSort::Node, parts.node_count());
    named.or(nodes.or(unplaced.or(room)))
}

/// Whether the map of an effect kind, if it has one, is known.
fn map_known<M: Meanings>(map: Option<u32>) -> Option<RegistryError>
    ensures { result ≡ map_known M.rules map }
{
    match map {
        Some(number) => rule_known(RuleSort::EffectMap, M::effect_maps(), number),
        None => None,
    }
}

/// Why an effect kind is refused.
#[tactic(auto, using(crate::proofs::Passing::or_none))]
pub(crate) fn effect_refusal<M: Meanings>(parts: &Parts, map: Option<u32>) -> Option<RegistryError>
    ensures { result ≡ first_of (effect_refusals M.rules parts.now map) }
{
    let named = map_known::<M>(map);
    let room = has_room(IdSort::Effect, parts.effect_count());
    named.or(room)
}

/// Why a group is refused.
#[tactic(auto, using(crate::proofs::Passing::or_none))]
pub(crate) fn group_refusal(parts: &Parts, of: &[ExtId]) -> Option<RegistryError>
    ensures { result ≡ first_of (group_refusals parts.now of.now) }
{
    let named = all_known(IdSort::Node, parts.node_count(), of);
    let room = has_room(IdSort::Node, parts.node_count());
    named.or(room)
}

/// Why a precedence is refused.
#[tactic(auto, using(crate::proofs::Passing::or_none))]
pub(crate) fn prec_refusal(parts: &Parts, of: ExtId) -> Option<RegistryError>
    ensures { result ≡ first_of (prec_refusals parts.now of) }
{
    let named = known(IdSort::Node, parts.node_count(), of);
    let room = has_room(IdSort::Node, parts.node_count());
    named.or(room)
}

/// Why a slot is refused.
#[tactic(auto, using(crate::proofs::Passing::or_none))]
pub(crate) fn slot_refusal(parts: &Parts, compartment: u32, of: ExtId) -> Option<RegistryError>
    ensures { result ≡ first_of (slot_refusals parts.now compartment of) }
{
    let named = known(
        IdSort::Compartment,
        parts.compartment_count() as usize,
        compartment,
    );
    let node = known(IdSort::Node, parts.node_count(), of);
    let room = has_room(IdSort::Node, parts.node_count());
    named.or(node.or(room))
}

/// Why an input with a value is refused.
pub(crate) fn input_refusal<M: Meanings>(
    parts: &Parts,
    facet: u32,
    value: &Val,
) -> Result<(), RegistryError>
    requires { AllAt (IsLawfulFacet M.rules) parts.now.facets }
    ensures passes { OnOk result (Passes (input_refusals M.rules parts.now facet value.now)) }
    ensures refused { IfErr result (IsRefused (input_refusals M.rules parts.now facet value.now)) }
{
    if let Some(error) = known(IdSort::Facet, parts.facet_count(), facet) {
        return Err(error);
    }
    let combine = parts.facet(facet).combine;
    let fits = is_input::<M>(parts.allocator(), combine, value)?;
    let shape = unless(fits, RegistryError::WrongShape { id: facet });
    ended(shape.or(has_room(IdSort::Node, parts.node_count())))
}

/// A computed input: its facet isn't static.
fn computes(parts: &Parts, facet: u32) -> Option<RegistryError>
    ensures { result ≡ computes facet (slice_get parts.now.facets facet) }
{
    if facet as usize >= parts.facet_count() {
        return None;
    }
    unless(
        !parts.facet(facet).is_static,
        RegistryError::StaticFacet { facet },
    )
}

/// Whether all that a computed input names is known.
#[tactic(auto, using(crate::proofs::Passing::or_none))]
fn computed_names(
    parts: &Parts,
    facet: u32,
    reads: &[Dependency],
    sort: RuleSort,
    count: u32,
    rule: u32,
) -> Option<RegistryError>
    ensures { result ≡ first_of (computed_names parts.now facet reads.now sort count rule) }
{
    let named = known(IdSort::Facet, parts.facet_count(), facet);
    let read = reads_known(parts.facet_count(), parts.field_count(), reads);
    let number = rule_known(sort, count, rule);
    named.or(read.or(number.or(computes(parts, facet))))
}

/// Why an input that a rule computes is refused.
pub(crate) fn compute_refusal<M: Meanings>(
    parts: &Parts,
    facet: u32,
    rule: u32,
    reads: &[Dependency],
) -> Result<(), RegistryError>
    requires { AllAt (IsLawfulFacet M.rules) parts.now.facets }
    ensures passes { OnOk result (Passes (compute_refusals M.rules parts.now facet rule reads.now)) }
    ensures refused { IfErr result (IsRefused (compute_refusals M.rules parts.now facet rule reads.now)) }
{
    if let Some(error) = computed_names(
        parts,
        facet,
        reads,
        RuleSort::Compute,
        M::computers(),
        rule,
    ) {
        return Err(error);
    }
    let combine = parts.facet(facet).combine;
    let fits = is_computed_input::<M>(parts.allocator(), combine, rule)?;
    let shape = unless(fits, RegistryError::WrongShape { id: facet });
    ended(shape.or(has_room(IdSort::Node, parts.node_count())))
}

/// Why inputs that a rule computes are refused.
pub(crate) fn compute_n_refusal<M: Meanings>(
    parts: &Parts,
    facet: u32,
    rule: u32,
    reads: &[Dependency],
) -> Result<(), RegistryError>
    requires { AllAt (IsLawfulFacet M.rules) parts.now.facets }
    ensures passes { OnOk result (Passes (compute_n_refusals M.rules parts.now facet rule reads.now)) }
    ensures refused { IfErr result (IsRefused (compute_n_refusals M.rules parts.now facet rule reads.now)) }
{
    if let Some(error) = computed_names(
        parts,
        facet,
        reads,
        RuleSort::ComputeN,
        M::list_computers(),
        rule,
    ) {
        return Err(error);
    }
    let combine = parts.facet(facet).combine;
    let fits = is_computed_list::<M>(parts.allocator(), combine, rule)?;
    let shape = unless(fits, RegistryError::WrongShape { id: facet });
    ended(shape.or(has_room(IdSort::Node, parts.node_count())))
}

/// Why an init is refused.
pub(crate) fn init_refusal<M: Meanings>(
    parts: &Parts,
    field: u32,
    value: &Val,
) -> Result<(), RegistryError>
    requires fields { AllAt (IsLawfulField M.rules parts.now) parts.now.fields }
    requires placed { length parts.now.placed ≡ length parts.now.fields }
    ensures passes { OnOk result (Passes (init_refusals M.rules parts.now field value.now)) }
    ensures refused { IfErr result (IsRefused (init_refusals M.rules parts.now field value.now)) }
{
    let placed = unless(
        parts.is_placed(field),
        RegistryError::UnknownId {
            sort: IdSort::Field,
            id: field,
        },
    );
    if let Some(error) = placed {
        return Err(error);
    }
    let update = parts.field(field).update;
    let fits = is_init::<M>(parts.allocator(), update, value)?;
    let shape = unless(fits, RegistryError::WrongShape { id: field });
    ended(shape.or(has_room(IdSort::Node, parts.node_count())))
}

/// Whether the maps of two effect kinds undo each other: none of both, or one whose number is 1 or 2.
fn are_inverse(map: Option<u32>, back: Option<u32>) -> bool
    ensures { result ≡ are_inverse map back }
{
    match map {
        None => back.is_none(),
        Some(map) => match back {
            None => false,
            Some(back) => map == back && (map == 1 || map == 2),
        },
    }
}

/// Why two effect kinds can't be a pair.
pub(crate) fn pair_refusal(parts: &Parts, effect: u32, back: u32) -> Option<RegistryError>
    ensures { result ≡ first_of (pair_refusals parts.now effect back) }
{
    let first = known(IdSort::Effect, parts.effect_count(), effect);
    let second = known(IdSort::Effect, parts.effect_count(), back);
    let inverse = unless(
        are_inverse(parts.map_of(effect), parts.map_of(back)),
        RegistryError::BadInverse { effect, back },
    );
    let free = unless(
        parts.is_unpaired(effect),
        RegistryError::InverseTaken { effect },
    );
    let back_free = unless(
        parts.is_unpaired(back),
        RegistryError::InverseTaken { effect: back },
    );
    first.or(second.or(inverse.or(free.or(back_free))))
}
