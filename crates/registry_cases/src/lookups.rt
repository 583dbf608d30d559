// Values by id: the tab size, and a field that may be absent.
ghost use Rattle.std.specs.Prelude.{◌≡◌, true, false, cond, eqb, [], Some, None};
ghost use Rattle.std.specs.Option.{ForSome};
ghost use Rattle.registry.specs.Predeclared.{combined_by};
ghost use Rattle.values.specs.Shipped.{shipped};
ghost use Rattle.values.specs.Vals.{is_of};

use cm_plain::Plain;
use registry::{Lookup, TAB_SIZE};
use std::test::*;
use values::Val;

/// The value of the facet of the tab size, and that of field 1, a whole number.
#[derive(Drop)]
struct Few {
    tab_size: Val,
    count: Option<Val>,
    ghost tab_size_fits: { is_of (shipped.combine_output 7) tab_size ≡ true },
    ghost count_fits: { ForSome count (λ v. is_of (shipped.update_shape 2) v ≡ true) },
}

impl Lookup for Few {
    ghost rules = { shipped };

    ghost facet_def = { λ few id. cond (eqb id 2) (Some (combined_by 7 false)) None };

    ghost field_def = { λ few id. cond (eqb id 1) (Some (record { create = 2; update = 2; compare = 1; reads = []; listens = [] })) None };

    ghost facet_value = { λ few id. few.tab_size };

    ghost field_value = { λ few id. few.count };

    fn facet(&self, _id: u32) -> &Val {
        self.tab_size.known();
        &self.tab_size
    }

    fn field(&self, _id: u32) -> Option<&Val> {
        match &self.count {
            Some(value) => {
                value.known();
                Some(value)
            }
            None => None,
        }
    }
}

/// Few values with the field absent.
fn absent() -> Few {
    Few {
        tab_size: Val::Plain(Plain::Int(4)),
        count: None,
    }
}

fn present() -> Few {
    Few {
        tab_size: Val::Plain(Plain::Int(8)),
        count: Some(Val::Plain(Plain::Int(-5))),
    }
}

fn number(value: &Val) -> Option<i64> {
    match value {
        Val::Plain(Plain::Int(number)) => Some(*number),
        _ => None,
    }
}

fn tab_size(few: &Few) -> Option<i64> {
    number(few.facet(TAB_SIZE))
}

fn count(few: &Few) -> Option<i64> {
    match few.field(1) {
        Some(value) => number(value),
        None => None,
    }
}

fn has(few: Few, width: i64, counted: Option<i64>) -> bool {
    tab_size(&few) == Some(width) && count(&few) == counted
}

#[test]
fn values_by_id(rt: HostRuntime) {
    assert!(rt; has(absent(), 4, None));
    assert!(rt; has(present(), 8, Some(-5)));
}
