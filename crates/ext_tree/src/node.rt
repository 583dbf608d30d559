// The nodes of extensions.
use crate::ext_ids::ExtIds;
use crate::precedence::Precedence;

/// The id of a node: its place in the arena, from 0 on.
pub type ExtId = u32;

/// An extension as a node of an arena. It names older nodes alone. (Reference Manual, Extension.)
#[derive(Drop)]
pub enum Node {
    /// Extensions together, in this order.
    Group(ExtIds),
    /// An extension at a precedence of its own. (Reference Manual, Prec.)
    Prec(Precedence, ExtId),
    /// The place of a compartment, with the content that it has where none was set. (Reference Manual,
    /// Compartment.of.)
    Slot { compartment: u32, content: ExtId },
    /// An input of a facet, by the facet's id. (Reference Manual, Facet.of, compute.)
    Input(u32),
    /// A field, by its id. (Reference Manual, StateField.)
    Field(u32),
    /// A field with a first value of its own, by the field's id. (Reference Manual, StateField.init.)
    Init(u32),
}
