use crate::edit::Edit;

/// A line of a workload: its text, or what it does.
#[derive(Clone, Copy, Debug, PartialEq, Drop)]
pub enum MadeLine {
    /// A line before the transactions or the summary, without LF.
    Text(&'static str),
    /// The line of a transaction that does this edit at a time in milliseconds.
    Edit { time: u32, edit: Edit },
}
