// Declarations of fields.
ghost use Rattle.std.specs.Prelude.{◌≡◌, ◌==◌, ◌+◌, IfOk, None, OnErr, OnOk, length, position};
ghost use Rattle.script.specs.Reading.{Gives};
ghost use Rattle.registry.specs.Refusals.{is_rule};
ghost use Rattle.values.specs.Growth.{IsGrowth};
ghost use Rattle.names.specs.declared.named.Named.TheVariants.{Field};
ghost use Rattle.names.specs.Adding.{world};
ghost use Rattle.names.specs.Declaring.{all_provided, creator_fits, field_in, field_things, field_with, name_among, provided_in, provided_name};
ghost use Rattle.names.specs.Names.{meaning_of, with_name};

use crate::finding::{Effects, Facets, Reads, all_found, found};
use crate::named::Named;
use crate::names::Names;
use crate::refusing::{IdNames, id_of, settled};
use cm_plain::Str;
use configuration::{Dependency, FieldDef};
use listed::Listed;
use registry::{Provided, Registry};
use requests::{FieldDeclaration, ProvidedDeclaration};
use script::LineError;
use std::alloc::{AllocError, Global};
use values::Meanings;

/// What the ids of a field's refusals are called: its own name, where its creator doesn't fit, and else the names of the facets
/// that it provides inputs of.
#[derive(Clone, Copy)]
struct FieldIdNames<'a> {
    creator_fits: bool,
    own: &'a Str,
    provides: &'a [ProvidedDeclaration],
    provided: &'a [Provided],
}

/// The place of the first input of a facet among those that a field provides.
fn place_of(provided: &[Provided], id: u32) -> Option<usize>
    ensures { result ≡ position (λ q. q.facet == id) provided.now }
{
    provided.iter().position(|made| made.facet == id)
}

/// The name of a facet among those that a field provides inputs of, and else the field's own.
fn provided_name<'a>(
    own: &'a Str,
    provides: &'a [ProvidedDeclaration],
    provided: &[Provided],
    id: u32,
) -> &'a Str
    ensures { result.now ≡ provided_name own.now provides.now provided.now id }
{
    match place_of(provided, id) {
        None => own,
        Some(place) => match provides.get(place) {
            None => own,
            Some(declared) => &declared.facet,
        },
    }
}

impl<'a> IdNames for FieldIdNames<'a> {
    ghost names = { λ n. name_among n.creator_fits n.own.now n.provides.now n.provided.now };

    fn name(&self, id: u32) -> &Str {
        if self.creator_fits {
            provided_name(self.own, self.provides, self.provided, id)
        } else {
            self.own
        }
    }
}

/// Whether there is a rule of this number, where there are so many.
fn is_rule(count: u32, number: u32) -> bool
    ensures { result ≡ is_rule count number }
{
    1 <= number && number <= count
}

/// Whether what a creator gives is of the shape that an updater takes.
fn creator_fits<M: Meanings>(alloc: Global, create: u32, update: u32) -> Result<bool, AllocError>
    ensures { IfOk result (λ b. b ≡ creator_fits M.rules create update) }
{
    if !is_rule(M::creators(), create) || !is_rule(M::updaters(), update) {
        return Ok(false);
    }
    let output = M::create_output(alloc, create)?;
    let input = M::update_shape(alloc, update)?;
    Ok(output.fits(&input))
}

/// An input that a field provides.
fn provided_in(names: &Names, declared: &ProvidedDeclaration) -> Result<Provided, LineError>
    ensures { Gives (λ x. x) result (provided_in names.now declared.now) }
{
    let facet = found::<Facets>(names, &declared.facet)?;
    Ok(Provided {
        facet,
        rule: declared.rule,
    })
}

/// What a field provides.
fn all_provided(
    alloc: Global,
    names: &Names,
    provides: &[ProvidedDeclaration],
) -> Result<Vec<Provided>, LineError>
    ensures { Gives (λ v. v.items) result (all_provided names.now provides.now) }
{
    let mut provided = Vec::with_capacity(alloc, provides.len())?;
    for declared in provides {
        provided.push(provided_in(names, declared)?)?;
    }
    Ok(provided)
}

/// What a field's names stand for.
#[derive(Drop)]
struct FieldIds {
    reads: Vec<Dependency>,
    listens: Vec<u32>,
    provided: Vec<Provided>,
}

/// What a field's names stand for.
fn field_ids(alloc: Global, names: &Names, field: &FieldDeclaration) -> Result<FieldIds, LineError>
    ensures { Gives (λ ids. record { reads = ids.reads.items; listens = ids.listens.items; provided = ids.provided.items }) result (field_things names.now field.now) }
{
    let reads = all_found::<Reads>(alloc, names, field.names.reads.as_slice())?;
    let listens = all_found::<Effects>(alloc, names, field.names.listens.as_slice())?;
    let provided = all_provided(alloc, names, field.names.provides.as_slice())?;
    Ok(FieldIds {
        reads,
        listens,
        provided,
    })
}

/// Adds the name of the next field, which provides so many inputs, and gives how many names there were.
fn add_field<M: Meanings>(
    alloc: Global,
    registry: &Registry<M>,
    names: &mut Names,
    name: &Str,
    provided: usize,
) -> Result<usize, AllocError>
    requires { meaning_of name.now names.old ≡ None }
    ensures count { IfOk result (λ count. count ≡ length names.old) }
    ensures added { OnOk result (names.new ≡ with_name names.old name.now (Field (length registry.now.fields) (length registry.now.nodes + provided))) }
    ensures same { OnErr result (names.new ≡ names.old) }
{
    let field = registry.defs().field_count();
    let node = id_of(registry.arena().len())?;
    let more = id_of(provided)?;
    let Some(node) = node.checked_add(more) else {
        return Err(AllocError);
    };
    let count = names.len();
    names.add(alloc, name, Named::Field { field, node })?;
    Ok(count)
}

/// Declares a field whose names stand for these things.
fn declare_with<M: Meanings>(
    alloc: Global,
    registry: &mut Registry<M>,
    names: &mut Names,
    field: &FieldDeclaration,
    ids: FieldIds,
) -> Result<(), LineError>
    requires { meaning_of field.now.name names.old ≡ None }
    ensures answer { Gives (λ x. world names.new registry.new) result (field_with M.rules (world names.old registry.old) field.now (record { reads = ids.reads.items; listens = ids.listens.items; provided = ids.provided.items })) }
    ensures names_same { OnErr result (names.new ≡ names.old) }
    ensures same { OnErr result (registry.new ≡ registry.old) }
    ensures grows { IsGrowth registry.old registry.new }
{
    let rules = field.rules;
    let creator_fits = creator_fits::<M>(alloc, rules.create, rules.update)?;
    let count = add_field(alloc, registry, names, &field.name, ids.provided.len())?;
    let FieldIds {
        reads,
        listens,
        provided,
    } = ids;
    let def = FieldDef {
        create: rules.create,
        update: rules.update,
        compare: rules.compare,
        reads: Listed::new(reads),
        listens: Listed::new(listens),
    };
    let outcome = registry.field(def, provided.as_slice());
    let id_names = FieldIdNames {
        creator_fits,
        own: &field.name,
        provides: field.names.provides.as_slice(),
        provided: provided.as_slice(),
    };
    settled(alloc, names, count, outcome, &id_names)
}

/// Declares a field with its node and the inputs that it provides.
pub(crate) fn declare_field<M: Meanings>(
    alloc: Global,
    registry: &mut Registry<M>,
    names: &mut Names,
    field: &FieldDeclaration,
) -> Result<(), LineError>
    ensures answer { Gives (λ x. world names.new registry.new) result (field_in M.rules (world names.old registry.old) field.now) }
    ensures names_same { OnErr result (names.new ≡ names.old) }
    ensures same { OnErr result (registry.new ≡ registry.old) }
    ensures grows { IsGrowth registry.old registry.new }
{
    let ids = field_ids(alloc, names, field)?;
    names.free(&field.name)?;
    declare_with(alloc, registry, names, field, ids)
}
