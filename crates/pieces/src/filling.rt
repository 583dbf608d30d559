// Pieces that are put one after the other, of which those that are wanted are kept.
ghost use Rattle.std.specs.Prelude.{◌≡◌, ◌+◌, ◌*◌, ◌-◌, ◌^◌, ◌≤◌, chars, IfOk, OnOk};
ghost use Rattle.pieces.specs.Edge.{is_past};
ghost use Rattle.pieces.specs.Filling.{GoalFits, after, begun, is_full, is_passed, is_reached, put, width_in};

use crate::edge::Edge;
use crate::goal::Goal;
use crate::piece::{Piece, Pieces};
use cells::columns_of;
use decoration::Style;
use std::alloc::{AllocError, Global};
use std::marker::Model;

/// The pieces of a block that are kept so far, what is wanted of all, the column in which the next one begins, which
/// counts only where some are wanted, and whether a piece was left out since all that are wanted are kept.
#[derive(Drop)]
pub(crate) struct Filling {
    pieces: Pieces,
    goal: Goal,
    at: u128,
    over: bool,
}

impl Model for Filling {
    ghost use Rattle.std.specs.Prelude.{◌^◌, ◌≤◌};
    ghost use Rattle.pieces.specs.Filling.{GoalFits, FillingView};

    ghost Value = { FillingView };

    ghost view = { λ f. record { pieces = f.pieces; goal = f.goal; at = f.at; over = f.over } };

    ghost invariant = { λ f. GoalFits f.goal × (f.at ≤ 2 ^ 126) };
}

impl Filling {
    /// No pieces yet, of a block of this style.
    pub(crate) fn new(alloc: Global, style: Style, goal: Goal) -> Filling
        requires { GoalFits goal }
        ensures { result ≡ begun style goal }
    {
        Filling {
            pieces: Pieces::none(alloc, style),
            goal,
            at: 0,
            over: false,
        }
    }

    /// Whether all that is wanted is kept.
    fn is_full(&self) -> bool
        ensures { result ≡ is_full self.now }
    {
        self.over || is_reached(self.goal, !self.pieces.is_empty(), self.at)
    }

    /// Whether a piece was left out.
    pub(crate) fn is_over(&self) -> bool
        ensures { result ≡ self.now.over }
    {
        self.over
    }

    /// Puts a piece; its text is copied only if it is kept. `Err`: out of memory.
    pub(crate) fn push(
        &mut self,
        alloc: Global,
        place: u32,
        text: &str,
        style: Style,
        before_cursor: bool,
    ) -> Result<(), AllocError>
        ensures { OnOk result (self.new ≡ put self.old (record { place = place; text = chars text.now; style = style; before_cursor = before_cursor })) }
    {
        if self.is_full() {
            self.over = true;
            return Ok(());
        }
        let end = end_of(self.goal, self.at, text)?;
        self.push_before(alloc, place, text, style, before_cursor, end)
    }

    /// Keeps a piece that ends before column `end`, or passes it over. `Err`: out of memory.
    fn push_before(
        &mut self,
        alloc: Global,
        place: u32,
        text: &str,
        style: Style,
        before_cursor: bool,
        end: u128,
    ) -> Result<(), AllocError>
        requires { end ≤ 2 ^ 126 }
        ensures { OnOk result (self.new ≡ after self.old (record { place = place; text = chars text.now; style = style; before_cursor = before_cursor }) end) }
    {
        if self.pieces.is_empty() && is_passed(self.goal, end, place, before_cursor) {
            self.pieces.start_at(end);
        } else {
            let text = String::from_str(alloc, text)?;
            self.pieces
                .push(Piece::new(place, text, style, before_cursor))?;
        }
        self.at = end;
        Ok(())
    }

    /// The pieces that are kept.
    pub(crate) fn into_pieces(self) -> Pieces
        ensures { result ≡ self.pieces }
    {
        self.pieces
    }
}

/// Whether all that is wanted is kept, where there are some pieces or none and the next one begins in column `at`.
fn is_reached(goal: Goal, some: bool, at: u128) -> bool
    ensures { result ≡ is_reached goal some at }
{
    match goal {
        Goal::Whole => false,
        Goal::Shown(edge) => is_past(edge, at),
        Goal::At { .. } => some,
    }
}

fn is_past(edge: Edge, at: u128) -> bool
    ensures { result ≡ is_past edge at }
{
    at >= edge.left && at - edge.left >= edge.cols as u128
}

/// Whether a piece that ends before column `end` stands before all that is wanted.
fn is_passed(goal: Goal, end: u128, place: u32, before_cursor: bool) -> bool
    ensures { result ≡ is_passed goal end place before_cursor }
{
    match goal {
        Goal::Whole => false,
        Goal::Shown(edge) => end <= edge.left,
        Goal::At { pos, .. } => place < pos || (place == pos && before_cursor),
    }
}

/// The column after a piece that begins in column `at`. `Err`: past column 2 ^ 120, which counts as out of memory.
fn end_of(goal: Goal, at: u128, text: &str) -> Result<u128, AllocError>
    requires { GoalFits goal }
    ensures value { IfOk result (λ end. end ≡ at + width_in goal at (chars text.now)) }
    ensures bound { IfOk result (λ end. end ≤ 2 ^ 126) }
{
    if at >= 1 << 120 {
        return Err(AllocError);
    }
    Ok(at + width_in(goal, at, text))
}

/// How many columns a piece takes that begins in column `at`, where some are wanted.
fn width_in(goal: Goal, at: u128, text: &str) -> u128
    requires { GoalFits goal }
    ensures value { result ≡ width_in goal at (chars text.now) }
    ensures bound { result ≤ 16 * (2 ^ 64 - 1) }
{
    match goal {
        Goal::Whole => 0,
        Goal::Shown(edge) => columns_of(text, edge.tab, at),
        Goal::At { tab, .. } => columns_of(text, tab, at),
    }
}
