// A facet read as a type.
use crate::carried::Carried;
use crate::key_error::KeyError;
use cm_plain::Shape;
use decoration::Layers;
use registry::{Lookup, Registry};
use std::alloc::{AllocError, Global};
use std::marker::{Model, PhantomData};
use values::{Meanings, Val};

/// A facet whose inputs are of type `I` and whose value is read as type `O` (Reference Manual, Facet).
#[derive(Drop)]
pub struct FacetKey<I: Carried, O: Carried> {
    id: u32,
    combine: u32,
    output: Shape,
    takes: PhantomData<I>,
    gives: PhantomData<O>,
}

impl<I: Carried, O: Carried> Model for FacetKey<I, O> {
    ghost use Rattle.std.specs.Prelude.{◌≡◌, true};
    ghost use Rattle.std.specs.Coded.{codes};
    ghost use Rattle.cm_plain.specs.Form.{coded_form, fits};
    ghost use Rattle.cm_plain.specs.Shape.{form_of};
    ghost use Rattle.typed_keys.specs.Keys.{FacetKeyView};

    ghost Value = { FacetKeyView };

    ghost coded = { Prim.hlevel (codes, coded_form) };

    ghost view = { λ k. record { id = k.id; combine = k.combine; output = form_of k.output } };

    ghost invariant = { λ k. fits (form_of k.output) O.form ≡ true };
}

impl<I: Carried, O: Carried> FacetKey<I, O> {
    ghost use Rattle.std.specs.Prelude.{◌≡◌, ◌≢◌, ◌<◌, true, false, length, slice_get, IfErr, IfOk, IfSome};
    ghost use Rattle.typed_keys.specs.Keys.{KnowsFacet, facet_fits, facet_key};

    /// A key of a declared facet. Refused as `WrongShape` exactly where the shape of `I` doesn't fit what the facet's combiner
    /// takes, or what that gives doesn't fit the shape of `O`.
    pub fn new<M: Meanings>(
        alloc: Global,
        registry: &Registry<M>,
        id: u32,
    ) -> Result<Self, KeyError>
        requires known { id < length registry.now.facets }
        ensures key { IfOk result (λ key. IfSome (slice_get registry.now.facets id) (λ def. key ≡ facet_key M.rules id def)) }
        ensures fits { IfOk result (λ _. IfSome (slice_get registry.now.facets id) (λ def. facet_fits M.rules I.form O.form def ≡ true)) }
        ensures wrong { IfErr result (λ error. error ≢ KeyError.NoMemory → error ≡ KeyError.WrongShape id) }
        ensures misfit { IfErr result (λ error. error ≢ KeyError.NoMemory → IfSome (slice_get registry.now.facets id) (λ def. facet_fits M.rules I.form O.form def ≡ false)) }
    {
        let combine = combiner_of(registry, id);
        let output = M::combine_output(alloc, combine)?;
        let takes = fits_input::<M, I>(alloc, combine)?;
        let gives = fits_into::<O>(alloc, &output)?;
        if takes && gives {
            Ok(FacetKey {
                id,
                combine,
                output,
                takes: PhantomData,
                gives: PhantomData,
            })
        } else {
            Err(KeyError::WrongShape { id })
        }
    }

    /// The value of the facet (Reference Manual, EditorState.facet). `Err`: out of memory.
    pub fn get<L: Lookup>(&self, alloc: Global, lookup: &L) -> Result<O, AllocError>
        requires known { KnowsFacet L.rules (L.facet_def lookup.now self.now.id) self.now }
        ensures { IfOk result (λ x. x ≡ O.read (L.facet_value lookup.now self.now.id)) }
    {
        O::from_val(alloc, lookup.facet(self.id))
    }
}

impl<I: Carried> FacetKey<I, Layers> {
    ghost use Rattle.std.specs.Prelude.{◌≡◌};
    ghost use Rattle.typed_keys.specs.Keys.{KnowsFacet};
    ghost use Rattle.typed_keys.specs.Read.{layers_in};

    /// The value of the facet (Reference Manual, EditorState.facet), lent as it stands in the lookup: what `get` gives, without memory.
    pub fn layers<'a, L: Lookup>(&self, lookup: &'a L) -> &'a Layers
        requires known { KnowsFacet L.rules (L.facet_def lookup.now self.now.id) self.now }
        ensures { result.now ≡ layers_in (L.facet_value lookup.now self.now.id) }
    {
        layers_of(lookup.facet(self.id))
    }
}

ghost use Rattle.std.specs.Prelude.{◌≡◌, ◌<◌, true, length, slice_get, IfOk, IfSome};
ghost use Rattle.cm_plain.specs.Form.{fits, layers};
ghost use Rattle.cm_plain.specs.Shape.{form_of};
ghost use Rattle.transaction.specs.Numbers.{IsNumber};
ghost use Rattle.typed_keys.specs.Read.{layers_in};
ghost use Rattle.values.specs.Vals.{is_of};

/// The layers that a value of their shape holds.
fn layers_of(value: &Val) -> &Layers
    requires { is_of layers value.now ≡ true }
    ensures { result.now ≡ layers_in value.now }
{
    match value {
        Val::Layers(all) => all,
        _ => unreachable!(),
    }
}

/// The number of a facet's combiner.
fn combiner_of<M: Meanings>(registry: &Registry<M>, id: u32) -> u32
    requires { id < length registry.now.facets }
    ensures value { IfSome (slice_get registry.now.facets id) (λ def. result ≡ def.combine) }
    ensures number { IsNumber M.rules.combiners result }
{
    let defs = registry.defs();
    defs.facets.as_slice()[id as usize].combine
}

/// Whether the shape of a type fits what a combiner takes.
fn fits_input<M: Meanings, I: Carried>(alloc: Global, combine: u32) -> Result<bool, AllocError>
    requires { IsNumber M.rules.combiners combine }
    ensures { IfOk result (λ b. b ≡ fits I.form (M.rules.combine_input combine)) }
{
    let input = M::combine_input(alloc, combine)?;
    let shape = I::shape(alloc)?;
    Ok(shape.fits(&input))
}

/// Whether a shape fits that of a type.
pub(crate) fn fits_into<O: Carried>(alloc: Global, output: &Shape) -> Result<bool, AllocError>
    ensures { IfOk result (λ b. b ≡ fits (form_of output.now) O.form) }
{
    let shape = O::shape(alloc)?;
    Ok(output.fits(&shape))
}
