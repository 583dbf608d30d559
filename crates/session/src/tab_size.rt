// Tab sizes as values carry them.
ghost use Rattle.std.specs.Prelude.{◌≡◌, ◌≤◌, true, IfOk, refl};
ghost use Rattle.cm_plain.specs.Shape.{form_of};
ghost use Rattle.values.specs.Vals.{is_of};
ghost use Rattle.session.specs.Views.{of_tab, tab_form, tab_in};

use cm_plain::{Plain, Shape};
use std::alloc::{AllocError, Global};
use std::marker::Model;
use typed_keys::Carried;
use values::Val;

/// The number of columns that a tab goes on to a multiple of, from 1 to 16 where a value carries it. (Reference Manual,
/// EditorState.tabSize.)
#[derive(Drop)]
pub struct TabSize {
    columns: u8,
}

impl Model for TabSize {
    ghost use Rattle.std.specs.Prelude.{ℕ, ◌≤◌};

    ghost Value = { ℕ };

    ghost view = { λ t. t.columns };

    ghost invariant = { λ t. (1 ≤ t.columns) × (t.columns ≤ 16) };
}

impl TabSize {
    /// The number of columns.
    pub fn columns(&self) -> u8
        ensures value { result ≡ self.now }
        ensures some { 1 ≤ result }
        ensures few { result ≤ 16 }
    {
        self.columns
    }
}

impl Carried for TabSize {
    ghost form = { tab_form };

    ghost carried = { of_tab };

    ghost read = { tab_in };

    fn shape(_alloc: Global) -> Result<Shape, AllocError> {
        Ok(Shape::Int(1, 16))
    }

    fn to_val(&self, _alloc: Global) -> Result<Val, AllocError> {
        Ok(Val::Plain(Plain::Int(i64::from(self.columns))))
    }

    fn from_val(_alloc: Global, value: &Val) -> Result<TabSize, AllocError>
        requires { is_of tab_form value.now ≡ true }
        ensures { IfOk result (λ x. x ≡ tab_in value.now) }
    {
        match value {
            Val::Plain(Plain::Int(columns)) => Ok(TabSize {
                columns: *columns as u8,
            }),
            _ => unreachable!(),
        }
    }

    ghost round_trip = { λ x. refl };
}
