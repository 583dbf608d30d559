/// What a save that fails leaves.
#[derive(Clone, Copy, Debug, PartialEq, Eq)]
pub enum Leaves {
    /// The file as it was.
    AsBefore,
    /// The file as it was asked.
    AsAsked,
}
