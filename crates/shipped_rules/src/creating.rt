ghost use Rattle.std.specs.Prelude.{◌≡◌, IfOk, []};
ghost use Rattle.values.specs.Creating.{create};
ghost use Rattle.cm_plain.specs.declared.plain.Plain.TheVariants as plain;

use crate::reading::{document_length, first_plain};
use cm_plain::Plain;
use history::History;
use range_set::RangeSet;
use std::alloc::{AllocError, Global};
use values::{Deps, Val};

/// What the creator of a number makes of what is read. `Err`: out of memory.
pub fn create(alloc: Global, number: u32, deps: &Deps) -> Result<Val, AllocError>
    ensures { IfOk result (λ v. v ≡ create number deps.now) }
{
    match number {
        1 => Ok(Val::Plain(Plain::Unit)),
        2 => Ok(Val::Plain(Plain::Int(0))),
        3 => Ok(document_length(deps)),
        4 => Ok(empty_list(alloc)),
        5 => Ok(Val::Ranges(RangeSet::empty(alloc))),
        6 => Ok(Val::History(History::empty(alloc)?)),
        7 => first_plain(alloc, deps),
        _ => first_plain(alloc, deps),
    }
}

/// The empty list.
fn empty_list(alloc: Global) -> Val
    ensures { result ≡ Val.Plain (plain.List []) }
{
    match Plain::list(Vec::new(alloc)) {
        Ok(list) => Val::Plain(list),
        Err(_) => unreachable!(),
    }
}
