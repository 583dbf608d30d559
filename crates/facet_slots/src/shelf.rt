// The slots of facets and fields.
ghost use Rattle.std.specs.Prelude.{◌≡◌, ◌<◌, ℕ, length, map, set, slice_get, false, IfOk, IfSome, IsTrue, MatchOption, None, Some, []};
ghost use Rattle.std.specs.Option.{option_flatten, unwrap_or};
ghost use Rattle.configuration.specs.declared.vertex.Vertex.TheVariants as vertex;
ghost use Rattle.values.specs.InRange.{AreInRange, IsInRange};
ghost use Rattle.facet_slots.specs.Scenes.{IsEachInRange};
ghost use Rattle.facet_slots.specs.Keeping.{held, held_inputs};
ghost use Rattle.facet_slots.specs.Nexts.{flagged};
ghost use Rattle.facet_slots.specs.declared.place.Place.TheVariants as place;
ghost use Rattle.facet_slots.specs.Shelves.{lasts, place_flag, place_inputs, place_lasts, place_value, slot_flags, slot_inputs, slot_values, AreLasting, ArePlaced, IsStill};

use crate::facet_inputs::FacetInputs;
use crate::input_values::InputValues;
use crate::place::{Place, Places};
use crate::slot::Slot;
use configuration::Vertex;
use std::alloc::{AllocError, Global};
use std::marker::Model;
use std::rc::Rc;
use values::SharedVal;

/// The facets and fields of a state by their ids, as far as they were found. The numbers of each value lie in the ranges of their
/// types. Contracts see the values, what the inputs of each facet give, the flags, and which facets last.
#[derive(Drop)]
pub struct Shelf {
    /// The places of the facets by their ids, which states share.
    places: Rc<Vec<Place>>,
    /// Whether each facet that may last does.
    is_settled: bool,
    /// The slots of facets that don't last, `slot_count` of them, and then those of the fields by their ids.
    slots: Vec<Slot>,
    slot_count: usize,
}

impl Model for Shelf {
    ghost use Rattle.std.specs.Prelude.{drop, take};
    ghost use Rattle.std.specs.Coded.{codes};
    ghost use Rattle.cm_plain.specs.Datum.{coded_datum};
    ghost use Rattle.facet_slots.specs.Shelves.{shelved, IsShelf, Shelved};

    ghost Value = { Shelved };

    ghost coded = { Prim.hlevel (codes, coded_datum) };

    ghost view = { λ s. shelved s.places.value.items (take s.slot_count s.slots.items) (drop s.slot_count s.slots.items) };

    ghost invariant = { λ s. IsShelf s.places.value.items s.slot_count s.slots.items };
}

/// Slots in which nothing is found yet.
#[tactic(auto, using(crate::proofs::Shelving::push_in_range))]
fn no_slots(alloc: Global, count: usize) -> Result<Vec<Slot>, AllocError>
    ensures count { IfOk result (λ slots. length slots.items ≡ count) }
    ensures in_range { IfOk result (λ slots. AreInRange (slot_values slots.items)) }
{
    let mut slots = Vec::with_capacity(alloc, count)?;
    for _place in 0..count {
        slots.push(Slot {
            value: None,
            inputs: FacetInputs::none(),
            flag: false,
        })?;
    }
    Ok(slots)
}

/// What may be relied on in a value that is there: its numbers lie in the ranges of their types.
fn known_value(value: &Option<SharedVal>)
    ensures { IfSome value.now IsInRange }
{
    if let Some(value) = value {
        value.known();
    }
}

/// The value of a slot.
#[tactic(auto, using(crate::proofs::Shelving::value_at))]
fn value_at(slots: &[Slot], number: usize) -> Option<&SharedVal>
    ensures { MatchOption result (option_flatten (slice_get (slot_values slots.now) number) ≡ None) (λ v. option_flatten (slice_get (slot_values slots.now) number) ≡ Some v.now) }
{
    match slots.get(number) {
        Some(slot) => match &slot.value {
            Some(value) => Some(value),
            None => None,
        },
        None => None,
    }
}

/// What the inputs of a slot give.
#[tactic(auto, using(crate::proofs::Shelving::inputs_at))]
fn inputs_at(slots: &[Slot], number: usize) -> &[InputValues]
    ensures { result.now ≡ unwrap_or (slice_get (slot_inputs slots.now) number) [] }
{
    match slots.get(number) {
        Some(slot) => slot.inputs.as_slice(),
        None => &[],
    }
}

/// What the inputs of a slot give, once more.
#[tactic(auto, using(crate::proofs::Shelving::inputs_at))]
fn inputs_again(slots: &[Slot], number: usize) -> Result<FacetInputs, AllocError>
    ensures { IfOk result (λ inputs. inputs ≡ unwrap_or (slice_get (slot_inputs slots.now) number) []) }
{
    match slots.get(number) {
        Some(slot) => slot.inputs.share(),
        None => Ok(FacetInputs::none()),
    }
}

/// The flag of a slot.
#[tactic(auto, using(crate::proofs::Shelving::flag_at))]
fn flag_at(slots: &[Slot], number: usize) -> bool
    ensures { result ≡ unwrap_or (slice_get (slot_flags slots.now) number) false }
{
    match slots.get(number) {
        Some(slot) => slot.flag,
        None => false,
    }
}

/// The value of a facet at a place.
fn placed_value<'a>(place: &'a Place, slots: &'a [Slot]) -> Option<&'a SharedVal>
    ensures { MatchOption result (place_value slots.now place.now ≡ None) (λ v. place_value slots.now place.now ≡ Some v.now) }
{
    match place {
        Place::Lasting(value) => Some(value),
        Place::Slot(number) => value_at(slots, *number),
    }
}

/// What the inputs of a facet at a place give.
fn placed_inputs<'a>(place: &Place, slots: &'a [Slot]) -> &'a [InputValues]
    ensures { result.now ≡ place_inputs slots.now place.now }
{
    match place {
        Place::Lasting(_) => &[],
        Place::Slot(number) => inputs_at(slots, *number),
    }
}

/// What the inputs of a facet at a place give, once more.
fn placed_inputs_again(place: &Place, slots: &[Slot]) -> Result<FacetInputs, AllocError>
    ensures { IfOk result (λ inputs. inputs ≡ place_inputs slots.now place.now) }
{
    match place {
        Place::Lasting(_) => Ok(FacetInputs::none()),
        Place::Slot(number) => inputs_again(slots, *number),
    }
}

/// The flag of a facet at a place.
fn placed_flag(place: &Place, slots: &[Slot]) -> bool
    ensures { result ≡ place_flag slots.now place.now }
{
    match place {
        Place::Lasting(_) => false,
        Place::Slot(number) => flag_at(slots, *number),
    }
}

/// The number of the slot of a facet that doesn't last.
fn slot_number(places: &[Place], facet: u32) -> usize
    requires inside { facet < length places.now }
    requires lasts { unwrap_or (slice_get (map place_lasts places.now) facet) false ≡ false }
    ensures { slice_get places.now facet ≡ Some (place.Slot result) }
{
    match &places[facet as usize] {
        Place::Slot(number) => *number,
        Place::Lasting(_) => unreachable!(),
    }
}

/// A shelf with these places, in which only the facets that last are found.
#[tactic(auto, using(crate::proofs::Shelving::first_in_range, crate::proofs::Shelving::part_in_range))]
fn begun(
    alloc: Global,
    places: Rc<Vec<Place>>,
    is_settled: bool,
    slot_count: usize,
    field_count: usize,
) -> Result<Shelf, AllocError>
    requires { ArePlaced slot_count places.value.items }
    ensures facets { IfOk result (λ shelf. length shelf.facets ≡ length places.value.items) }
    ensures inputs { IfOk result (λ shelf. length shelf.inputs ≡ length places.value.items) }
    ensures facet_flags { IfOk result (λ shelf. length shelf.facet_flags ≡ length places.value.items) }
    ensures fields { IfOk result (λ shelf. length shelf.fields ≡ field_count) }
    ensures field_flags { IfOk result (λ shelf. length shelf.field_flags ≡ field_count) }
    ensures lasting { IfOk result (λ shelf. AreLasting (λ f v. slice_get places.value.items f ≡ Some (place.Lasting v)) shelf) }
{
    let count = slot_count.checked_add(field_count).ok_or(AllocError)?;
    let slots = no_slots(alloc, count)?;
    Ok(Shelf {
        places,
        is_settled,
        slots,
        slot_count,
    })
}

impl Shelf {
    /// A shelf in which only the facets that last are found. `Err`: out of memory.
    pub fn new(alloc: Global, places: Places, field_count: usize) -> Result<Shelf, AllocError>
        requires { ArePlaced places.slot_count places.list.items }
        ensures facets { IfOk result (λ shelf. length shelf.facets ≡ length places.list.items) }
        ensures inputs { IfOk result (λ shelf. length shelf.inputs ≡ length places.list.items) }
        ensures facet_flags { IfOk result (λ shelf. length shelf.facet_flags ≡ length places.list.items) }
        ensures fields { IfOk result (λ shelf. length shelf.fields ≡ field_count) }
        ensures field_flags { IfOk result (λ shelf. length shelf.field_flags ≡ field_count) }
        ensures lasting { IfOk result (λ shelf. AreLasting (λ f v. slice_get places.list.items f ≡ Some (place.Lasting v)) shelf) }
    {
        let Places {
            list,
            slot_count,
            is_settled,
        } = places;
        match Rc::new(alloc, list) {
            Ok(places) => begun(alloc, places, is_settled, slot_count, field_count),
            Err(_) => Err(AllocError),
        }
    }

    /// A shelf in which only the facets that last are found, those of this shelf. `Err`: out of memory.
    pub fn again(&self, alloc: Global, field_count: usize) -> Result<Shelf, AllocError>
        ensures facets { IfOk result (λ shelf. length shelf.facets ≡ length self.now.facets) }
        ensures inputs { IfOk result (λ shelf. length shelf.inputs ≡ length self.now.facets) }
        ensures facet_flags { IfOk result (λ shelf. length shelf.facet_flags ≡ length self.now.facets) }
        ensures fields { IfOk result (λ shelf. length shelf.fields ≡ field_count) }
        ensures field_flags { IfOk result (λ shelf. length shelf.field_flags ≡ field_count) }
        ensures lasting { IfOk result (λ shelf. AreLasting (IsStill self.now) shelf) }
    {
        let places = self.places.clone()?;
        begun(alloc, places, true, self.slot_count, field_count)
    }

    /// Whether each of so many facets that may last does. Takes no memory.
    pub fn is_settled(&self, facet_count: usize) -> bool
        ensures { IsTrue result → length self.now.facets ≡ facet_count }
    {
        self.is_settled && self.places.len() == facet_count
    }

    /// Whether a facet lasts. Takes no memory.
    #[tactic(auto, using(crate::proofs::Standings::lasts_at))]
    pub fn lasts(&self, facet: u32) -> bool
        ensures { result ≡ lasts self.now.lasting facet }
    {
        match self.places.as_slice().get(facet as usize) {
            Some(Place::Lasting(_)) => true,
            _ => false,
        }
    }

    /// No places. `Err`: out of memory.
    pub fn none(alloc: Global) -> Result<Shelf, AllocError>
        ensures facets { IfOk result (λ shelf. shelf.facets ≡ []) }
        ensures fields { IfOk result (λ shelf. shelf.fields ≡ []) }
        ensures inputs { IfOk result (λ shelf. shelf.inputs ≡ []) }
    {
        match Rc::new(alloc, Vec::new(alloc)) {
            Ok(places) => Ok(Shelf {
                places,
                is_settled: false,
                slots: Vec::new(alloc),
                slot_count: 0,
            }),
            Err(_) => Err(AllocError),
        }
    }

    /// What may be relied on in the values: their numbers lie in the ranges of their types. Reads none of them.
    pub fn known(&self)
        ensures { IsEachInRange (held self.now.facets self.now.fields) }
    {
        let _ = &self.slots;
    }

    /// The value of a facet. Takes no memory.
    #[tactic(auto, using(crate::proofs::Standings::place_value_at))]
    pub fn facet(&self, facet: u32) -> Option<&SharedVal>
        ensures { MatchOption result (held self.now.facets self.now.fields (vertex.Facet facet) ≡ None) (λ v. held self.now.facets self.now.fields (vertex.Facet facet) ≡ Some v.now) }
    {
        let (facets, _) = self.slots.as_slice().split_at(self.slot_count);
        match self.places.as_slice().get(facet as usize) {
            Some(place) => placed_value(place, facets),
            None => None,
        }
    }

    /// The value of a field, none where it is absent. Takes no memory.
    pub fn field(&self, field: u32) -> Option<&SharedVal>
        ensures { MatchOption result (held self.now.facets self.now.fields (vertex.Field field) ≡ None) (λ v. held self.now.facets self.now.fields (vertex.Field field) ≡ Some v.now) }
    {
        let (_, fields) = self.slots.as_slice().split_at(self.slot_count);
        value_at(fields, field as usize)
    }

    /// The value of a facet or field, none of an absent field. Takes no memory.
    pub fn value(&self, vertex: Vertex) -> Option<&SharedVal>
        ensures { MatchOption result (held self.now.facets self.now.fields vertex ≡ None) (λ v. held self.now.facets self.now.fields vertex ≡ Some v.now) }
    {
        match vertex {
            Vertex::Facet(facet) => self.facet(facet),
            Vertex::Field(field) => self.field(field),
        }
    }

    /// What the inputs of a facet give. Takes no memory.
    #[tactic(auto, using(crate::proofs::Standings::place_inputs_at))]
    pub fn inputs(&self, facet: u32) -> &[InputValues]
        ensures { result.now ≡ held_inputs self.now.inputs (vertex.Facet facet) }
    {
        let (facets, _) = self.slots.as_slice().split_at(self.slot_count);
        match self.places.as_slice().get(facet as usize) {
            Some(place) => placed_inputs(place, facets),
            None => &[],
        }
    }

    /// What the inputs of a facet give, once more. `Err`: no further owner can be counted.
    #[tactic(auto, using(crate::proofs::Standings::place_inputs_at))]
    pub fn share_inputs(&self, facet: u32) -> Result<FacetInputs, AllocError>
        ensures { IfOk result (λ inputs. inputs ≡ held_inputs self.now.inputs (vertex.Facet facet)) }
    {
        let (facets, _) = self.slots.as_slice().split_at(self.slot_count);
        match self.places.as_slice().get(facet as usize) {
            Some(place) => placed_inputs_again(place, facets),
            None => Ok(FacetInputs::none()),
        }
    }

    /// Whether a facet is flagged. Takes no memory.
    #[tactic(auto, using(crate::proofs::Standings::place_flag_at))]
    pub fn facet_flag(&self, facet: u32) -> bool
        ensures { result ≡ flagged self.now.facet_flags self.now.field_flags (vertex.Facet facet) }
    {
        let (facets, _) = self.slots.as_slice().split_at(self.slot_count);
        match self.places.as_slice().get(facet as usize) {
            Some(place) => placed_flag(place, facets),
            None => false,
        }
    }

    /// Whether a field is flagged. Takes no memory.
    pub fn field_flag(&self, field: u32) -> bool
        ensures { result ≡ flagged self.now.facet_flags self.now.field_flags (vertex.Field field) }
    {
        let (_, fields) = self.slots.as_slice().split_at(self.slot_count);
        flag_at(fields, field as usize)
    }

    /// Puts the slot of a facet, which there is.
    #[tactic(auto, using(crate::proofs::Shelving::first_set, crate::proofs::Shelving::first_kept, crate::proofs::Shelving::value_set, crate::proofs::Shelving::inputs_set, crate::proofs::Shelving::flag_set, crate::proofs::Shelving::value_count, crate::proofs::Shelving::set_in_range, crate::proofs::Shelving::first_count))]
    pub fn put_facet(&mut self, facet: u32, slot: Slot)
        requires inside { facet < length self.old.facets }
        requires lasts { lasts self.old.lasting facet ≡ false }
        ensures facets { self.new.facets ≡ set self.old.facets facet slot.value }
        ensures inputs { self.new.inputs ≡ set self.old.inputs facet slot.inputs }
        ensures facet_flags { self.new.facet_flags ≡ set self.old.facet_flags facet slot.flag }
        ensures fields { self.new.fields ≡ self.old.fields }
        ensures field_flags { self.new.field_flags ≡ self.old.field_flags }
        ensures lasting { self.new.lasting ≡ self.old.lasting }
    {
        known_value(&slot.value);
        let number = slot_number(self.places.as_slice(), facet);
        self.slots[number] = slot;
    }

    /// Puts the slot of a field, which there is.
    #[tactic(auto, using(crate::proofs::Shelving::other_set, crate::proofs::Shelving::other_kept, crate::proofs::Shelving::value_set, crate::proofs::Shelving::inputs_set, crate::proofs::Shelving::flag_set, crate::proofs::Shelving::value_count, crate::proofs::Shelving::set_in_range, crate::proofs::Shelving::other_count))]
    pub fn put_field(&mut self, field: u32, slot: Slot)
        requires { field < length self.old.fields }
        ensures facets { self.new.facets ≡ self.old.facets }
        ensures inputs { self.new.inputs ≡ self.old.inputs }
        ensures facet_flags { self.new.facet_flags ≡ self.old.facet_flags }
        ensures fields { self.new.fields ≡ set self.old.fields field slot.value }
        ensures field_flags { self.new.field_flags ≡ set self.old.field_flags field slot.flag }
        ensures lasting { self.new.lasting ≡ self.old.lasting }
    {
        known_value(&slot.value);
        self.slots[self.slot_count + field as usize] = slot;
    }
}
