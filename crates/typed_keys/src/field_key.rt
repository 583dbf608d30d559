// A field read as a type.
use crate::carried::Carried;
use crate::facet_key::fits_into;
use crate::key_error::KeyError;
use cm_plain::Shape;
use registry::{Lookup, Registry};
use std::alloc::{AllocError, Global};
use std::marker::{Model, PhantomData};
use values::Meanings;

/// A field whose value is read as type `T` (Reference Manual, StateField).
#[derive(Drop)]
pub struct FieldKey<T: Carried> {
    id: u32,
    update: u32,
    shape: Shape,
    carried: PhantomData<T>,
}

impl<T: Carried> Model for FieldKey<T> {
    ghost use Rattle.std.specs.Prelude.{◌≡◌, true};
    ghost use Rattle.std.specs.Coded.{codes};
    ghost use Rattle.cm_plain.specs.Form.{coded_form, fits};
    ghost use Rattle.cm_plain.specs.Shape.{form_of};
    ghost use Rattle.typed_keys.specs.Keys.{FieldKeyView};

    ghost Value = { FieldKeyView };

    ghost coded = { Prim.hlevel (codes, coded_form) };

    ghost view = { λ k. record { id = k.id; update = k.update; shape = form_of k.shape } };

    ghost invariant = { λ k. fits (form_of k.shape) T.form ≡ true };
}

impl<T: Carried> FieldKey<T> {
    ghost use Rattle.std.specs.Prelude.{◌≡◌, ◌≢◌, ◌<◌, true, false, length, slice_get, IfErr, IfOk, IfSome, option_map};
    ghost use Rattle.typed_keys.specs.Keys.{KnowsField, field_fits, field_key};

    /// A key of a declared field. Refused as `WrongShape` exactly where the shape of the field's updater doesn't fit that of `T`.
    pub fn new<M: Meanings>(
        alloc: Global,
        registry: &Registry<M>,
        id: u32,
    ) -> Result<Self, KeyError>
        requires known { id < length registry.now.fields }
        ensures key { IfOk result (λ key. IfSome (slice_get registry.now.fields id) (λ def. key ≡ field_key M.rules id def)) }
        ensures fits { IfOk result (λ _. IfSome (slice_get registry.now.fields id) (λ def. field_fits M.rules T.form def ≡ true)) }
        ensures wrong { IfErr result (λ error. error ≢ KeyError.NoMemory → error ≡ KeyError.WrongShape id) }
        ensures misfit { IfErr result (λ error. error ≢ KeyError.NoMemory → IfSome (slice_get registry.now.fields id) (λ def. field_fits M.rules T.form def ≡ false)) }
    {
        let update = updater_of(registry, id);
        let shape = M::update_shape(alloc, update)?;
        if fits_into::<T>(alloc, &shape)? {
            Ok(FieldKey {
                id,
                update,
                shape,
                carried: PhantomData,
            })
        } else {
            Err(KeyError::WrongShape { id })
        }
    }

    /// The value of the field; `None` exactly where it is absent (Reference Manual, EditorState.field). `Err`: out of memory.
    pub fn get<L: Lookup>(&self, alloc: Global, lookup: &L) -> Result<Option<T>, AllocError>
        requires known { KnowsField L.rules (L.field_def lookup.now self.now.id) self.now }
        ensures { IfOk result (λ value. value ≡ option_map T.read (L.field_value lookup.now self.now.id)) }
    {
        match lookup.field(self.id) {
            Some(value) => Ok(Some(T::from_val(alloc, value)?)),
            None => Ok(None),
        }
    }
}

ghost use Rattle.std.specs.Prelude.{◌≡◌, ◌<◌, length, slice_get, IfSome};
ghost use Rattle.transaction.specs.Numbers.{IsNumber};

/// The number of a field's updater.
fn updater_of<M: Meanings>(registry: &Registry<M>, id: u32) -> u32
    requires { id < length registry.now.fields }
    ensures value { IfSome (slice_get registry.now.fields id) (λ def. result ≡ def.update) }
    ensures number { IsNumber M.rules.updaters result }
{
    let defs = registry.defs();
    defs.fields.as_slice()[id as usize].update
}
