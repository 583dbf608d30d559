// The definitions of a state, which states share until more is declared.
ghost use Rattle.std.specs.Prelude.{◌≡◌, ◌&&◌, eqb, length, IfOk};
ghost use Rattle.facet_slots.specs.Agreement.{IsGrown};
ghost use Rattle.facet_slots.specs.Lent.{defs_of};

use configuration::Defs;
use facet_slots::shared_defs;
use std::alloc::{AllocError, Global};
use std::rc::Rc;
use values::Val;

/// Whether both have as many facets, fields and nodes.
fn same_counts(kept: &Defs<Val>, declared: &Defs<Val>) -> bool
    ensures { result ≡ (eqb (length kept.now.facets) (length declared.now.facets) && eqb (length kept.now.fields) (length declared.now.fields) && eqb (length kept.now.node_defs) (length declared.now.node_defs)) }
{
    kept.facet_count() == declared.facet_count()
        && kept.field_count() == declared.field_count()
        && kept.node_defs.as_slice().len() == declared.node_defs.as_slice().len()
}

/// The definitions that there are by now: those that a state keeps, without a copy of them, where nothing was declared since.
/// `Err`: out of memory.
pub fn definitions_now(
    alloc: Global,
    kept: &Rc<Defs<Val>>,
    declared: &Defs<Val>,
) -> Result<Rc<Defs<Val>>, AllocError>
    requires { IsGrown (defs_of kept.now.value) (defs_of declared.now) }
    ensures { IfOk result (λ defs. defs_of defs.value ≡ defs_of declared.now) }
{
    if same_counts(kept, declared) {
        let same = kept.clone()?;
        Ok(same)
    } else {
        shared_defs(alloc, declared)
    }
}
