// The runs of a row.
ghost use Rattle.std.specs.Prelude.{List, ◌≡◌, ◌≤◌, ◌++◌, [], ◌∷◌, if◌then◌else◌, length, take, chars, encode_utf8_all, IfOk, OnOk};
ghost use Rattle.std.specs.String.{string_bytes};
ghost use Rattle.line_rows.specs.Run.{RunView, cell_text, is_bare, joined, joined_from, run_of, runs_of, trimmed};
ghost use Rattle.line_rows.specs.declared.rows.StyledCell.{StyledCell};

use crate::rows::StyledCell;
use decoration::Style;
use pieces::same_style;
use std::alloc::{AllocError, Global};
use std::marker::Model;
use std::mem;

/// A longest part of a row in one style, with a space for each blank.
#[derive(Drop)]
pub struct Run {
    text: String,
    style: Style,
}

impl Model for Run {
    ghost use Rattle.std.specs.String.{string_bytes};
    ghost use Rattle.std.specs.Str.{chars};
    ghost use Rattle.line_rows.specs.Run.{RunView};

    ghost Value = { RunView };

    ghost view = { λ r. record { text = chars (string_bytes r.text); style = r.style } };
}

impl Run {
    /// The text.
    pub fn text(&self) -> &str
        ensures { result.now ≡ encode_utf8_all self.now.text }
    {
        self.text.as_str()
    }

    /// The style.
    pub fn style(&self) -> Style
        ensures { result ≡ self.now.style }
    {
        self.style
    }

    /// A run without text.
    fn empty(alloc: Global, style: Style) -> Run
        ensures { result ≡ record { text = []; style = style } }
    {
        Run {
            text: String::new(alloc),
            style,
        }
    }

    /// Adds the cell's text: a space for a blank, the cluster that begins in the cell, or nothing.
    fn push(&mut self, cell: &StyledCell) -> Result<(), AllocError>
        ensures { OnOk result (self.new ≡ record { text = self.old.text ++ cell_text cell.now.cell; style = self.old.style }) }
    {
        push_cell(&mut self.text, cell)?;
        Ok(())
    }
}

fn push_cell(text: &mut String, cell: &StyledCell) -> Result<(), AllocError>
    ensures { OnOk result (string_bytes text.new ≡ string_bytes text.old ++ encode_utf8_all (cell_text cell.now.cell)) }
{
    if cell.cell.is_blank() {
        text.push(' ')?;
        return Ok(());
    }
    match cell.cell.cluster() {
        Some(cluster) => push_characters(text, cluster),
        None => Ok(()),
    }
}

fn push_characters(text: &mut String, characters: &[char]) -> Result<(), AllocError>
    ensures { OnOk result (string_bytes text.new ≡ string_bytes text.old ++ encode_utf8_all characters.now) }
{
    for character in characters {
        text.push(*character)?;
    }
    Ok(())
}

/// The runs of a row: its cells up to the last one that isn't a blank without style, cut where the style changes.
/// `Err`: out of memory.
pub fn runs_of(alloc: Global, cells: &[StyledCell]) -> Result<Vec<Run>, AllocError>
    ensures { IfOk result (λ runs. runs.items ≡ runs_of cells.now) }
{
    joined(alloc, &cells[..trimmed_len(cells)])
}

/// How many cells stand up to the last one that isn't a blank without style.
fn trimmed_len(cells: &[StyledCell]) -> usize
    ensures within { result ≤ length cells.now }
    ensures value { take result cells.now ≡ trimmed cells.now }
{
    let mut len = 0;
    for i in 0..cells.len() {
        len = len_with(&cells[i], len, i + 1);
    }
    len
}

/// How many cells stand up to the last one that isn't a blank without style, where the cell is the last of `end` and
/// `len` is that number of those before it.
fn len_with(cell: &StyledCell, len: usize, end: usize) -> usize
    ensures { result ≡ (if is_bare cell.now then len else end) }
{
    if is_bare(cell) { len } else { end }
}

/// Whether the cell is a blank without style.
fn is_bare(cell: &StyledCell) -> bool
    ensures { result ≡ is_bare cell.now }
{
    cell.cell.is_blank() && same_style(cell.style, Style::plain())
}

/// The cells cut where the style changes.
fn joined(alloc: Global, cells: &[StyledCell]) -> Result<Vec<Run>, AllocError>
    ensures { IfOk result (λ runs. runs.items ≡ joined cells.now) }
{
    match cells {
        [] => Ok(Vec::new(alloc)),
        [first, rest @ ..] => joined_from(alloc, first, rest),
    }
}

/// The runs of these cells, where the first is in the first run.
fn joined_from(
    alloc: Global,
    first: &StyledCell,
    rest: &[StyledCell],
) -> Result<Vec<Run>, AllocError>
    ensures { IfOk result (λ runs. runs.items ≡ joined_from (run_of first.now) rest.now) }
{
    let mut runs = Vec::new(alloc);
    let mut run = one_cell(alloc, first)?;
    for cell in rest {
        push_cell_run(alloc, &mut runs, &mut run, cell)?;
    }
    runs.push(run)?;
    Ok(runs)
}

/// Adds the cell to the run, or, where its style is another, adds the run to the runs and begins another.
fn push_cell_run(
    alloc: Global,
    runs: &mut Vec<Run>,
    run: &mut Run,
    cell: &StyledCell,
) -> Result<(), AllocError>
    ensures { OnOk result ((cells : List StyledCell) → runs.new.items ++ joined_from run.new cells ≡ runs.old.items ++ joined_from run.old (cell.now ∷ cells)) }
{
    if same_style(cell.style, run.style()) {
        run.push(cell)?;
    } else {
        let next = one_cell(alloc, cell)?;
        runs.push(mem::replace(run, next))?;
    }
    Ok(())
}

/// The run of one cell.
fn one_cell(alloc: Global, cell: &StyledCell) -> Result<Run, AllocError>
    ensures { IfOk result (λ run. run ≡ run_of cell.now) }
{
    let mut run = Run::empty(alloc, cell.style);
    run.push(cell)?;
    Ok(run)
}
