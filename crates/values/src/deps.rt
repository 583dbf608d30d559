ghost use Rattle.std.specs.Prelude.{◌≡◌, ◌∷◌, [], Some, None, IfOk, IfSome, option_copied, option_map};
ghost use Rattle.selection.specs.Selections.{IsSelection};
ghost use Rattle.values.specs.InRange.{AreInRange, IsInRange};
ghost use Rattle.values.specs.Views.{AreDeps, IsInside, IsShort};

use crate::shared_val::SharedVal;
use line_tree::Text;
use selection::Selection;
use std::alloc::{AllocError, Global};
use std::marker::Model;
use std::mem::size_of;

/// What a rule reads as `Deps::new` is given it: any document, selection and values, also none.
#[derive(Drop)]
pub(crate) struct Parts {
    pub(crate) document: Option<Text>,
    pub(crate) selection: Option<Selection>,
    pub(crate) values: Vec<Option<SharedVal>>,
}

/// How what a rule reads is kept: small, because each call that passes it on copies it.
#[derive(Drop)]
pub(crate) enum Reads {
    /// No document, no selection and no values.
    Nothing,
    /// The document alone.
    Document(Text),
    /// The value of one facet or field alone, `None` for an absent field.
    Value(Option<SharedVal>),
    /// Anything, on the heap.
    Parts(Box<Parts>),
}

/// What a rule reads: of the document, the selection, facets and fields those that it declares. Contracts see the document as
/// its characters. A document has at most 16,777,216 characters, a selection that is shown with it lies in it, one that is shown
/// without lies in some such document, its main range is one of its ranges, and the numbers of values lie in the ranges of their
/// types.
pub struct Deps {
    reads: Reads,
}

/// A `Deps` has 24 bytes, whatever it shows.
const _: () = prove!(size_of::<Deps>() == 24);

// Written by hand for proofs alone: those of what drops what a rule reads then don't go into how it is kept.
impl Drop for Deps {
    fn drop(self) {
        let Deps { reads } = self;
        drop(reads);
    }
}

impl Model for Deps {
    ghost use Rattle.std.specs.Coded.{codes};
    ghost use Rattle.cm_plain.specs.Datum.{coded_datum};
    ghost use Rattle.values.specs.Reads.{reads_shown};
    ghost use Rattle.values.specs.Views.{AreDeps, DepsView};

    ghost Value = { DepsView };

    ghost coded = { Prim.hlevel (codes, coded_datum) };

    ghost view = { λ d. reads_shown d.reads };

    ghost invariant = { λ d. AreDeps (reads_shown d.reads) };
}

/// What may be relied on in a value that is there: its numbers lie in the ranges of their types.
fn known_value(value: &Option<SharedVal>)
    ensures { IfSome value.now IsInRange }
{
    if let Some(value) = value {
        value.known();
    }
}

impl Deps {
    /// What a rule reads that declares nothing. Takes no memory.
    pub fn none() -> Deps
        ensures { result ≡ record { document = None; selection = None; values = [] } }
    {
        Deps {
            reads: Reads::Nothing,
        }
    }

    /// What a rule reads that declares the document alone. Takes no memory.
    pub fn of_document(document: Text) -> Deps
        requires short { IsShort (Some document.characters) }
        ensures { result ≡ record { document = Some document.characters; selection = None; values = [] } }
    {
        Deps {
            reads: Reads::Document(document),
        }
    }

    /// What a rule reads that declares one facet or field alone: its value, `None` for an absent field. Takes no memory.
    pub fn of_value(value: Option<SharedVal>) -> Deps
        ensures { result ≡ record { document = None; selection = None; values = value ∷ [] } }
    {
        // For the proof alone: the value keeps that its numbers lie in their ranges.
        known_value(&value);
        Deps {
            reads: Reads::Value(value),
        }
    }

    /// What is shown: the document and the selection, each if it is declared, and the values of the declared facets and fields
    /// in the order of their declaration, `None` for an absent field. What declares nothing, the document alone or one value alone is
    /// made by `none`, `of_document` and `of_value`, without memory. `SharedVal::known` tells of a value that its numbers lie in their
    /// ranges. `Err`: out of memory.
    pub fn new(
        alloc: Global,
        document: Option<Text>,
        selection: Option<Selection>,
        values: Vec<Option<SharedVal>>,
    ) -> Result<Deps, AllocError>
        requires short { IsShort (option_map (λ t. t.characters) document) }
        requires is_selection { IfSome selection IsSelection }
        requires inside { IsInside (option_map (λ t. t.characters) document) selection }
        requires in_range { AreInRange values.items }
        ensures { IfOk result (λ deps. deps ≡ record { document = option_map (λ t. t.characters) document; selection = selection; values = values.items }) }
    {
        let parts = Parts {
            document,
            selection,
            values,
        };
        match Box::new(alloc, parts) {
            Ok(parts) => Ok(Deps {
                reads: Reads::Parts(parts),
            }),
            Err(_) => Err(AllocError),
        }
    }

    /// The document, if it is declared.
    pub fn document(&self) -> Option<&Text>
        ensures { option_map (λ t. t.characters) (option_copied result) ≡ self.now.document }
    {
        match &self.reads {
            Reads::Nothing => None,
            Reads::Document(document) => Some(document),
            Reads::Value(_) => None,
            Reads::Parts(parts) => parts.document.as_ref(),
        }
    }

    /// The selection, if it is declared.
    pub fn selection(&self) -> Option<&Selection>
        ensures { option_copied result ≡ self.now.selection }
    {
        match &self.reads {
            Reads::Nothing => None,
            Reads::Document(_) => None,
            Reads::Value(_) => None,
            Reads::Parts(parts) => parts.selection.as_ref(),
        }
    }

    /// The values of the declared facets and fields in the order of their declaration, `None` for an absent field.
    pub fn values(&self) -> &[Option<SharedVal>]
        ensures { result.now ≡ self.now.values }
    {
        match &self.reads {
            Reads::Nothing => &[],
            Reads::Document(_) => &[],
            Reads::Value(value) => std::slice::from_ref(value),
            Reads::Parts(parts) => parts.values.as_slice(),
        }
    }

    /// What may be relied on in what is shown.
    pub fn known(&self)
        ensures { AreDeps self.now }
    {
        let _ = &self.reads;
    }
}
