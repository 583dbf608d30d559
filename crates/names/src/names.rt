// The names.
ghost use Rattle.std.specs.Prelude.{◌≡◌, [], None, OnErr, OnOk, length, option_map, take};
ghost use Rattle.names.specs.Names.{has_id, is_free, meaning_of, name_of, with_name};
ghost use Rattle.script.specs.Reading.{Gives};

use crate::named::Named;
use cm_plain::Str;
use indexmap::IndexMap;
use registry::IdSort;
use script::{LineError, Refusal};
use std::alloc::{AllocError, Global};
use std::marker::Model;

/// Names, each with what it stands for, in order of declaration. Contracts see them as a list.
#[derive(Drop)]
pub struct Names {
    entries: IndexMap<Vec<char>, Named>,
}

impl Model for Names {
    ghost use Rattle.std.specs.Prelude.{map};
    ghost use Rattle.names.specs.Names.{NameList};

    ghost Value = { NameList };

    ghost view = { λ n. map (λ e. (e.0.items, e.1)) n.entries.entries };
}

impl Names {
    /// No names. Takes no memory.
    pub(crate) fn empty(alloc: Global) -> Names
        ensures { result ≡ [] }
    {
        Names {
            entries: IndexMap::new(alloc),
        }
    }

    /// How many names there are. Takes no memory.
    pub fn len(&self) -> usize
        ensures { result ≡ length self.now }
    {
        self.entries.len()
    }

    /// What a name stands for, if it is declared. Takes no memory.
    pub fn get(&self, name: &Str) -> Option<Named>
        ensures { result ≡ meaning_of name.now self.now }
    {
        self.entries.get(name.chars()).copied()
    }

    /// The first name of what is known by this id among the things of a sort. It looks at the names one after the other. Takes no
    /// memory.
    pub fn name_of(&self, sort: IdSort, id: u32) -> Option<&[char]>
        ensures { option_map (λ name. name.now) result ≡ name_of sort id self.now }
    {
        for place in 0..self.entries.len() {
            match self.entries.get_index(place) {
                Some((name, thing)) => {
                    if has_id(sort, id, *thing) {
                        return Some(name.as_slice());
                    }
                }
                None => {}
            }
        }
        None
    }

    /// A name that is to be declared is not taken. `Err`: it is; or out of memory.
    pub(crate) fn free(&self, name: &Str) -> Result<(), LineError>
        ensures answer { Gives (λ x. x) result (is_free self.now name.now) }
        ensures free { OnOk result (meaning_of name.now self.now ≡ None) }
    {
        match self.get(name) {
            None => Ok(()),
            Some(_) => Err(LineError::Refused(Refusal::NameTaken {
                name: name.try_copy()?,
            })),
        }
    }

    /// Adds a name. When out of memory the names are as before.
    pub(crate) fn add(&mut self, alloc: Global, name: &Str, thing: Named) -> Result<(), AllocError>
        requires { meaning_of name.now self.old ≡ None }
        ensures added { OnOk result (self.new ≡ with_name self.old name.now thing) }
        ensures same { OnErr result (self.new ≡ self.old) }
    {
        let name = Vec::from_slice(alloc, name.chars())?;
        self.entries.insert(name, thing)?;
        Ok(())
    }

    /// Takes away the names from a count on. Takes no memory.
    pub(crate) fn shorten(&mut self, count: usize)
        ensures { self.new ≡ take count self.old }
    {
        self.entries.truncate(count);
    }
}

/// Whether a thing is known by this id among those of a sort.
fn has_id(sort: IdSort, id: u32, thing: Named) -> bool
    ensures { result ≡ has_id sort id thing }
{
    match (sort, thing) {
        (IdSort::Compartment, Named::Compartment(known)) => known == id,
        (IdSort::Effect, Named::Effect(known)) => known == id,
        (IdSort::Facet, Named::Facet(known)) => known == id,
        (IdSort::Field, Named::Field { field, node: _ }) => field == id,
        (IdSort::Node, Named::Field { field: _, node }) => node == id,
        (IdSort::Node, Named::Node(node)) => node == id,
        _ => false,
    }
}
