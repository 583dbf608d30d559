// Values by id.
ghost use Rattle.std.specs.Prelude.{◌≡◌, ℕ, Option, Some, None, IsSome, IfSome, MatchOption};
ghost use Rattle.values.specs.Vals.{IsOf};

use values::Val;

/// What has the values of facets and fields by id, each of the shape that its definition gives.
pub trait Lookup {
    ghost use Rattle.configuration.specs.declared.facet_def.FacetDef.{FacetDef};
    ghost use Rattle.configuration.specs.declared.field_def.FieldDef.{FieldDef};
    ghost use Rattle.values.specs.declared.val.Val.{Val};
    ghost use Rattle.values.specs.Rules.{Rules};

    /// What the numbers of rules mean.
    ghost rules: { Rules };

    /// The definition of a facet that is known.
    ghost facet_def: { Self → ℕ → Option FacetDef };

    /// The definition of a field that is known.
    ghost field_def: { Self → ℕ → Option FieldDef };

    ghost facet_value: { Self → ℕ → Val };

    /// The value of a field, where it is present.
    ghost field_value: { Self → ℕ → Option Val };

    /// The value of a facet, which is of the output shape of its combiner.
    fn facet(&self, id: u32) -> &Val
        requires known { IsSome (facet_def self.now id) }
        ensures value { result.now ≡ facet_value self.now id }
        ensures fits { IfSome (facet_def self.now id) (λ def. IsOf (rules.combine_output def.combine) result.now) };

    /// The value of a field, which is of the shape of its updater; none where the field is absent.
    fn field(&self, id: u32) -> Option<&Val>
        requires known { IsSome (field_def self.now id) }
        ensures value { MatchOption result (field_value self.now id ≡ None) (λ v. field_value self.now id ≡ Some v.now) }
        ensures fits { IfSome result (λ v. IfSome (field_def self.now id) (λ def. IsOf (rules.update_shape def.update) v.now)) };
}
