/// Whether the newest Change that can be undone, which is also called a group, is still open to further changes.
#[derive(Clone, Copy, PartialEq, Eq, Debug, Drop)]
pub enum Group {
    /// It is not, or there is none, or a Select is newer.
    Closed,
    /// It is, and had its last change at this time, in milliseconds, if one was given.
    Open { last: Option<i64> },
}
