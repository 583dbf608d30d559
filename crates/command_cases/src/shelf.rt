// A lookup that knows one facet and one field, by every id.
use registry::Lookup;
use values::Val;

/// The value of a facet of truth values, and that of a field of histories, if it is present.
#[derive(Drop)]
pub(crate) struct Shelf {
    pub(crate) flag: Val,
    pub(crate) kept: Option<Val>,
    ghost flag_shape: { is_of booleans flag ≡ true },
    ghost flag_range: { in_range flag ≡ true },
    ghost kept_shape: { option_map_or (is_of history) kept true ≡ true },
    ghost kept_range: { option_map_or in_range kept true ≡ true },
}

ghost use Rattle.std.specs.Prelude.{◌≡◌, true};
ghost use Rattle.std.specs.Option.{option_map_or};
ghost use Rattle.cm_plain.specs.Form.{booleans, history};
ghost use Rattle.values.specs.InRange.{in_range};
ghost use Rattle.values.specs.Vals.{is_of};

impl Lookup for Shelf {
    ghost use Rattle.std.specs.Prelude.{Some};
    ghost use Rattle.registry.specs.Predeclared.{combined_by, history_def};
    ghost use Rattle.std.specs.Prelude.{false};
    ghost use Rattle.values.specs.Shipped.{shipped};

    ghost rules = { shipped };

    ghost facet_def = { λ s id. Some (combined_by 13 false) };

    ghost field_def = { λ s id. Some history_def };

    ghost facet_value = { λ s id. s.flag };

    ghost field_value = { λ s id. s.kept };

    fn facet(&self, _id: u32) -> &Val {
        &self.flag
    }

    fn field(&self, _id: u32) -> Option<&Val> {
        self.kept.as_ref()
    }
}
