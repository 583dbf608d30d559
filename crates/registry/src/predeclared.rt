// What is declared from the start.
ghost use Rattle.std.specs.Prelude.{◌≡◌, ◌<◌, ◌≤◌, ◌+◌, ◌∷◌, [], length, IfOk, OnOk};
ghost use Rattle.values.specs.Declarations.{max_count, with_facet, with_field, with_placed};
ghost use Rattle.registry.specs.Predeclared.{combined_by, history_def, predeclared, with_facets};

use crate::parts::Parts;
use crate::registry::Registry;
use configuration::{Dependency, FacetDef, FieldDef};
use ext_tree::ExtIds;
use listed::Listed;
use std::alloc::{AllocError, Global};
use values::Meanings;

/// The facet of the text that ends lines in a file that is saved.
pub const SAVE_SEPARATOR: u32 = 0;
/// The facet that allows several ranges in a selection. (Reference Manual, EditorState.allowMultipleSelections.)
pub const ALLOW_MULTIPLE_SELECTIONS: u32 = 1;
/// The facet of how many columns a tab goes on to a multiple of. (Reference Manual, EditorState.tabSize.)
pub const TAB_SIZE: u32 = 2;
/// The facet that keeps commands from changing the document. (Reference Manual, EditorState.readOnly.)
pub const READ_ONLY: u32 = 3;
/// The facet of change guards by number. (Reference Manual, EditorState.changeFilter.)
pub const CHANGE_FILTER: u32 = 4;
/// The facet of transaction filters by number. (Reference Manual, EditorState.transactionFilter.)
pub const TRANSACTION_FILTER: u32 = 5;
/// The facet of transaction extenders by number. (Reference Manual, EditorState.transactionExtender.)
pub const TRANSACTION_EXTENDER: u32 = 6;
/// The facet of sets of decorations. (Reference Manual, EditorView.decorations.)
pub const DECORATIONS: u32 = 7;
/// The facet of the least depth of a history and the delay of a new group. (Reference Manual, history.)
pub const HISTORY_CONFIG: u32 = 8;
/// The facet that filters and extenders are shown.
pub const FILTER_DATA: u32 = 9;
/// The effect kind `note`.
pub const NOTE: u32 = 0;
/// The field of the history.
pub const HISTORY: u32 = 0;
/// The node of the field of the history. (Reference Manual, history.)
pub const HISTORY_NODE: u32 = 0;

/// A facet by its combiner, whose inputs and values are the same where they are equal.
fn combined_by(combine: u32, is_static: bool) -> FacetDef
    ensures { result ≡ combined_by combine is_static }
{
    FacetDef {
        combine,
        compare_input: 1,
        compare: 1,
        is_static,
    }
}

/// The reads of the history's rules.
fn history_reads(alloc: Global) -> Result<Listed<Dependency>, AllocError>
    ensures { IfOk result (λ reads. reads ≡ history_def.reads) }
{
    let mut reads = Listed::empty(alloc);
    reads.push(Dependency::Facet(HISTORY_CONFIG))?;
    Ok(reads)
}

impl Parts {
    /// Adds a facet that enables nothing.
    fn add_facet_alone(&mut self, alloc: Global, def: FacetDef) -> Result<(), AllocError>
        requires room { length self.old.facets < max_count }
        requires fields { length self.old.fields ≤ max_count }
        ensures { OnOk result (self.new ≡ with_facet self.old def []) }
    {
        self.add_facet(def, ExtIds::of(Vec::new(alloc)))
    }

    /// Adds facets that enable nothing.
    fn add_facets(&mut self, alloc: Global, defs: &[FacetDef]) -> Result<(), AllocError>
        requires room { length self.old.facets + length defs.now ≤ max_count }
        requires fields { length self.old.fields ≤ max_count }
        ensures { OnOk result (self.new ≡ with_facets self.old defs.now) }
    {
        for def in defs {
            self.add_facet_alone(alloc, *def)?;
        }
        Ok(())
    }

    /// Adds the field of the history.
    fn add_history(&mut self, alloc: Global) -> Result<(), AllocError>
        requires room { length self.old.fields < max_count }
        requires facets { length self.old.facets ≤ max_count }
        ensures { OnOk result (self.new ≡ with_field self.old history_def) }
    {
        let reads = history_reads(alloc)?;
        self.add_field(FieldDef {
            create: 6,
            update: 6,
            compare: 1,
            reads,
            listens: Listed::empty(alloc),
        })
    }

    /// Places the field of the history, which provides nothing.
    fn place_history(&mut self, alloc: Global) -> Result<(), AllocError>
        requires room { length self.old.nodes < max_count }
        requires placed { 0 < length self.old.placed }
        requires provided { 0 < length self.old.links.provided }
        ensures { OnOk result (self.new ≡ with_placed self.old 0 []) }
    {
        self.place(HISTORY, ExtIds::of(Vec::new(alloc)))?;
        Ok(())
    }
}

/// What is declared from the start. `Err`: out of memory.
fn predeclared(alloc: Global) -> Result<Parts, AllocError>
    ensures { IfOk result (λ parts. parts ≡ predeclared) }
{
    let mut parts = Parts::empty(alloc);
    parts.add_facets(
        alloc,
        &[
            combined_by(8, true),
            combined_by(3, true),
            combined_by(7, false),
            combined_by(13, false),
            combined_by(9, false),
            combined_by(10, false),
            combined_by(11, false),
            combined_by(6, false),
            combined_by(12, false),
            combined_by(1, false),
        ],
    )?;
    parts.add_effect(None)?;
    parts.add_history(alloc)?;
    parts.place_history(alloc)?;
    Ok(parts)
}

impl<M: Meanings> Registry<M> {
    /// What is declared from the start. It is lawful, whatever the rules are. `Err`: out of memory.
    pub fn new(alloc: Global) -> Result<Self, AllocError>
        ensures { IfOk result (λ registry. registry ≡ predeclared) }
    {
        let parts = predeclared(alloc)?;
        Ok(Registry::started(parts))
    }
}
