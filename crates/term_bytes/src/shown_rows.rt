// Rows as a reply has them.
ghost use Rattle.std.specs.Prelude.{◌≡◌, IfOk, map};
ghost use Rattle.term_bytes.specs.Shown.{shown_row, shown_run};

use crate::style_bytes::separated_codes;
use cm_plain::Str;
use line_rows::{Run, StyledCell, runs_of};
use listed::Listed;
use replies::ShownRun;
use std::alloc::{AllocError, Global};

/// The runs of a row of cells, each as its text and the codes of its style. `Err`: out of memory.
pub fn shown_row(alloc: Global, cells: &[StyledCell]) -> Result<Listed<ShownRun>, AllocError>
    ensures { IfOk result (λ shown. shown ≡ shown_row cells.now) }
{
    let runs = runs_of(alloc, cells)?;
    let shown = shown_runs(alloc, runs.as_slice())?;
    Ok(Listed::new(shown))
}

fn shown_runs(alloc: Global, runs: &[Run]) -> Result<Vec<ShownRun>, AllocError>
    ensures { IfOk result (λ shown. shown.items ≡ map shown_run runs.now) }
{
    let mut shown = Vec::with_capacity(alloc, runs.len())?;
    for run in runs {
        shown.push(shown_run(alloc, run)?)?;
    }
    Ok(shown)
}

/// A run's text, and the codes of its style.
fn shown_run(alloc: Global, run: &Run) -> Result<ShownRun, AllocError>
    ensures { IfOk result (λ shown. shown ≡ shown_run run.now) }
{
    let text = Str::of_text(alloc, run.text())?;
    let codes = separated_codes(alloc, run.style())?;
    let codes = Str::of_text(alloc, codes.as_str())?;
    Ok(ShownRun { text, codes })
}
