// The names that are taken from the start.
ghost use Rattle.std.specs.Prelude.{◌≡◌, [], IfOk, None, OnOk, take};
ghost use Rattle.std.specs.Str.{chars};
ghost use Rattle.names.specs.Known.{IsKept};
ghost use Rattle.names.specs.Names.{meaning_of, with_name};
ghost use Rattle.names.specs.Predeclared.{predeclared_names};
ghost use Rattle.registry.specs.Predeclared.{predeclared};

use crate::named::Named;
use crate::names::Names;
use cm_plain::Str;
use registry::{
    ALLOW_MULTIPLE_SELECTIONS, CHANGE_FILTER, DECORATIONS, FILTER_DATA, HISTORY, HISTORY_CONFIG,
    HISTORY_NODE, NOTE, READ_ONLY, SAVE_SEPARATOR, TAB_SIZE, TRANSACTION_EXTENDER,
    TRANSACTION_FILTER,
};
use std::alloc::{AllocError, Global};

impl Names {
    /// Adds a name that is no other's.
    fn take(&mut self, alloc: Global, name: &str, thing: Named) -> Result<(), AllocError>
        requires { meaning_of (chars name.now) self.old ≡ None }
        ensures { OnOk result (self.new ≡ with_name self.old (chars name.now) thing) }
    {
        let name = Str::of_text(alloc, name)?;
        self.add(alloc, &name, thing)
    }

    /// Adds the names of the document, of the selection and of the first three facets, where there are no names yet.
    fn take_first(&mut self, alloc: Global) -> Result<(), AllocError>
        requires { self.old ≡ [] }
        ensures { OnOk result (self.new ≡ take 5 predeclared_names) }
    {
        self.take(alloc, "doc", Named::Doc)?;
        self.take(alloc, "selection", Named::Selection)?;
        self.take(alloc, "saveSeparator", Named::Facet(SAVE_SEPARATOR))?;
        self.take(
            alloc,
            "allowMultipleSelections",
            Named::Facet(ALLOW_MULTIPLE_SELECTIONS),
        )?;
        self.take(alloc, "tabSize", Named::Facet(TAB_SIZE))
    }

    /// Adds the names of the next five facets.
    fn take_facets(&mut self, alloc: Global) -> Result<(), AllocError>
        requires { self.old ≡ take 5 predeclared_names }
        ensures { OnOk result (self.new ≡ take 10 predeclared_names) }
    {
        self.take(alloc, "readOnly", Named::Facet(READ_ONLY))?;
        self.take(alloc, "changeFilter", Named::Facet(CHANGE_FILTER))?;
        self.take(alloc, "transactionFilter", Named::Facet(TRANSACTION_FILTER))?;
        self.take(
            alloc,
            "transactionExtender",
            Named::Facet(TRANSACTION_EXTENDER),
        )?;
        self.take(alloc, "decorations", Named::Facet(DECORATIONS))
    }

    /// Adds the names of the last two facets, of the effect kind and of the field.
    fn take_last(&mut self, alloc: Global) -> Result<(), AllocError>
        requires { self.old ≡ take 10 predeclared_names }
        ensures { OnOk result (self.new ≡ predeclared_names) }
    {
        self.take(alloc, "historyConfig", Named::Facet(HISTORY_CONFIG))?;
        self.take(alloc, "filterData", Named::Facet(FILTER_DATA))?;
        self.take(alloc, "note", Named::Effect(NOTE))?;
        self.take(
            alloc,
            "history",
            Named::Field {
                field: HISTORY,
                node: HISTORY_NODE,
            },
        )
    }

    /// The names of the document, of the selection and of what a registry has from the start. `Err`: out of memory.
    pub fn new(alloc: Global) -> Result<Names, AllocError>
        ensures names { IfOk result (λ names. names ≡ predeclared_names) }
        ensures kept { IfOk result (λ names. IsKept names predeclared) }
    {
        let mut names = Names::empty(alloc);
        names.take_first(alloc)?;
        names.take_facets(alloc)?;
        names.take_last(alloc)?;
        Ok(names)
    }
}
