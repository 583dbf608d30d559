ghost use Rattle.std.specs.Prelude.{◌≡◌, ◌+◌, ◌*◌, ◌<◌, ◌≤◌, ◌^◌};
ghost use Rattle.workload.specs.Edits.{edit_of, length_after};

/// What a transaction does. Positions and sizes are in characters.
#[derive(Clone, Copy, Debug, PartialEq, Drop)]
pub enum Edit {
    /// A text is inserted: its size, in a workload from 1 to 8, and the draw that chose its first letter.
    Insert { at: u32, size: u8, letter: u32 },
    /// The characters between two positions, which may be equal, are deleted.
    Delete { from: u32, to: u32 },
    /// The effect `mark` is set between two positions, which may be equal.
    Mark { from: u32, to: u32 },
}

/// What three draws do to a document of `len` characters.
#[tactic(auto, using(crate::proofs::Texts::made_size))]
pub(crate) fn chosen(len: u32, a: u32, b: u32, c: u32) -> Edit
    requires { len < 2 ^ 31 }
    ensures edit { result ≡ edit_of len a b c }
    ensures few { length_after len result ≤ len + 8 }
{
    let at = c % (len + 1);
    let more = b % 8;
    match a % 4 {
        0 => Edit::Delete {
            from: at,
            to: len.min(at + more),
        },
        1 => Edit::Mark {
            from: at,
            to: len.min(at + 1 + more),
        },
        _ => Edit::Insert {
            at,
            size: 1 + more as u8,
            letter: c,
        },
    }
}

/// The length of a document of `len` characters after the edit that three draws chose for it.
#[tactic(auto, using(crate::proofs::Texts::made_size))]
pub(crate) fn new_length(len: u32, edit: Edit) -> u32
    requires { length_after len edit < 2 ^ 31 }
    ensures { result ≡ length_after len edit }
{
    match edit {
        Edit::Insert {
            at: _,
            size,
            letter: _,
        } => len + u32::from(size),
        Edit::Delete { from, to } => len.saturating_sub(to.saturating_sub(from)),
        Edit::Mark { from: _, to: _ } => len,
    }
}
