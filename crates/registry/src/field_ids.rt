// The ids of a field.
use ext_tree::ExtId;

/// The ids of a field that is placed.
#[derive(Clone, Copy, Debug)]
pub struct FieldIds {
    pub field: u32,
    /// Its node.
    pub node: ExtId,
}
