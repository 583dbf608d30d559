// What has ids.

/// What is declared by an id of its own: ids of each sort run from 0.
#[derive(Clone, Copy, Debug, PartialEq, Eq)]
pub enum IdSort {
    Compartment,
    Effect,
    Facet,
    Field,
    Node,
}
