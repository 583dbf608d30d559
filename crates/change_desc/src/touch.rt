/// How the changes of a description meet a range of the old text (Reference Manual, ChangeDesc.touchesRange).
#[derive(Clone, Copy, PartialEq, Eq, Debug, Drop)]
pub enum Touch {
    /// No replaced range overlaps or touches it.
    No,
    /// The first replaced range that overlaps or touches it doesn't go on beyond both of its ends.
    Yes,
    /// The first replaced range that overlaps or touches it goes on beyond both of its ends.
    Cover,
}
