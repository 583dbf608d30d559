// Which shared lists were walked to their end.
ghost use Rattle.std.specs.Prelude.{◌≡◌, ◌⊎◌, IfOk, Some, true, false};
ghost use Rattle.ext_tree.specs.Shared.{list_after, is_list_walked, is_walked_after};
ghost use Rattle.ext_tree.specs.declared.shared_list.SharedList.{SharedList};
ghost use Rattle.ext_tree.specs.declared.shared_list.SharedList.TheVariants.{Enabled, Provided};

use crate::memo::Memo;
use crate::precedence::Precedence;
use crate::shared_list::SharedList;
use crate::tree::Tree;
use crate::visit::Visit;
use std::alloc::{AllocError, Global};

/// A mark for what each facet enables, and one for what each field provides at each precedence.
#[derive(Drop)]
pub struct WalkedLists {
    pub facets: Memo,
    pub fields: Memo,
}

impl WalkedLists {
    /// No marks, for this many facets and fields.
    pub fn new(alloc: Global, facets: usize, fields: usize) -> Result<Self, AllocError>
        ensures { IfOk result (λ lists. (x : SharedList) → is_list_walked lists.facets.walked.items lists.fields.walked.items x ≡ false) }
    {
        Ok(WalkedLists {
            facets: Memo::new(alloc, facets)?,
            fields: Memo::new(alloc, fields)?,
        })
    }

    /// Whether a list is marked.
    pub fn is_walked(&self, list: SharedList) -> bool
        ensures { result ≡ is_list_walked self.now.facets.walked.items self.now.fields.walked.items list }
    {
        match list {
            SharedList::Enabled(facet) => self.facets.is_walked(Visit {
                node: facet,
                precedence: Precedence::Default,
            }),
            SharedList::Provided(field, precedence) => {
                self.fields.is_walked(Visit {
                    node: field,
                    precedence,
                })
            }
        }
    }

    /// Whether what a visited node is followed by is a list that is marked.
    pub fn is_walked_after(&self, tree: &Tree, visit: Visit) -> bool
        ensures { result ≡ is_walked_after (is_list_walked self.now.facets.walked.items self.now.fields.walked.items) (list_after tree.now visit) }
    {
        match tree.list_after(visit) {
            Some(list) => self.is_walked(list),
            None => false,
        }
    }

    /// Marks what a facet enables.
    fn mark_enabled(&mut self, facet: u32)
        ensures { (x : SharedList) → is_list_walked self.new.facets.walked.items self.new.fields.walked.items x ≡ true → (Some x ≡ Some (Enabled facet)) ⊎ (is_list_walked self.old.facets.walked.items self.old.fields.walked.items x ≡ true) }
    {
        self.facets.mark(Visit {
            node: facet,
            precedence: Precedence::Default,
        });
    }

    /// Marks what a field provides at a precedence.
    fn mark_provided(&mut self, field: u32, precedence: Precedence)
        ensures { (x : SharedList) → is_list_walked self.new.facets.walked.items self.new.fields.walked.items x ≡ true → (Some x ≡ Some (Provided field precedence)) ⊎ (is_list_walked self.old.facets.walked.items self.old.fields.walked.items x ≡ true) }
    {
        self.fields.mark(Visit {
            node: field,
            precedence,
        });
    }

    /// Marks a list, if there is one.
    pub fn mark_list(&mut self, list: Option<SharedList>)
        ensures { (x : SharedList) → is_list_walked self.new.facets.walked.items self.new.fields.walked.items x ≡ true → (Some x ≡ list) ⊎ (is_list_walked self.old.facets.walked.items self.old.fields.walked.items x ≡ true) }
    {
        match list {
            Some(SharedList::Enabled(facet)) => self.mark_enabled(facet),
            Some(SharedList::Provided(field, precedence)) => self.mark_provided(field, precedence),
            None => {}
        }
    }
}
