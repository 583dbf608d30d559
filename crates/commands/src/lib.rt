//! The commands of an editor: what each sends as a transaction, if it does anything (Reference Manual, StateCommand).
//!
//! A command looks at an `EditScene` and answers a spec or `None`; it changes nothing. A layer above may rely on each answer being
//! exactly the spec that the command's definition names, and so on `None` coming exactly where that has nothing to send. A
//! command that deletes or moves reads the lines of the selection's heads alone.
#![tactic(auto)]

mod deleting;
mod edit_scene;
mod editing;
mod inserting;
mod moving;
mod side;
mod undoing;

pub use cursor_moves::Move;
pub use deleting::{delete_back, delete_forward};
pub use edit_scene::EditScene;
pub use inserting::{insert, newline};
pub use moving::{move_to, select_all};
pub use undoing::{redo, redo_selection, undo, undo_selection};
