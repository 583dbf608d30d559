// The bytes of a frame.
ghost use Rattle.std.specs.Prelude.{◌≡◌, [], ◌++◌, chars, false, IfOk, OnOk};
ghost use Rattle.std.specs.String.{string_bytes};
ghost use Rattle.term_bytes.specs.Frame.{change_bytes, frame, place, row, run_bytes, runs_from};
ghost use Rattle.term_bytes.specs.Reading.{AreLaid, ReadsBack, has_control};

use crate::style_bytes::push_style;
use decoration::Style;
use line_rows::{Cursor, Run, same_style};
use std::alloc::{AllocError, Global};

/// The bytes that draw these rows, from the first row of a terminal on, and put the cursor where it stands. Where no run
/// has a control character, as in the runs of laid rows, they read back as the rows and the cursor. `Err`: out of memory.
pub fn frame(alloc: Global, rows: &[Vec<Run>], cursor: Cursor) -> Result<String, AllocError>
    ensures bytes { IfOk result (λ text. string_bytes text ≡ frame rows.now cursor.row cursor.column) }
    ensures read_back { IfOk result (λ text. ReadsBack rows.now cursor.row cursor.column (chars (string_bytes text))) }
    ensures laid { AreLaid rows.now → has_control rows.now ≡ false }
{
    rows_and_cursor(alloc, rows, cursor)
}

/// The bytes of `frame`.
fn rows_and_cursor(alloc: Global, rows: &[Vec<Run>], cursor: Cursor) -> Result<String, AllocError>
    ensures { IfOk result (λ text. string_bytes text ≡ frame rows.now cursor.row cursor.column) }
{
    let mut out = String::from_str(alloc, "\x1b[H")?;
    let mut number: u64 = 0;
    for runs in rows {
        number += 1;
        push_place(&mut out, number, 1)?;
        push_row(&mut out, runs)?;
    }
    push_place(
        &mut out,
        u64::from(cursor.row) + 1,
        u64::from(cursor.column) + 1,
    )?;
    Ok(out)
}

/// Puts the cursor at a row and a column, both from 1.
fn push_place(out: &mut String, row: u64, column: u64) -> Result<(), AllocError>
    ensures { OnOk result (string_bytes out.new ≡ string_bytes out.old ++ place row column) }
{
    write!(out, "\x1b[{row};{column}H")
}

/// A row's runs, and the rest of the line without style.
fn push_row(out: &mut String, runs: &[Run]) -> Result<(), AllocError>
    ensures { OnOk result (string_bytes out.new ≡ string_bytes out.old ++ row runs.now) }
{
    let mut before = Style::plain();
    for run in runs {
        push_run(out, before, run)?;
        before = run.style();
    }
    push_end(out, before)?;
    out.push_str("\x1b[K")?;
    Ok(())
}

/// `ESC [ 0 m` after a run that has a style.
fn push_end(out: &mut String, before: Style) -> Result<(), AllocError>
    ensures { OnOk result (string_bytes out.new ≡ string_bytes out.old ++ runs_from before []) }
{
    if !same_style(before, Style::plain()) {
        out.push_str("\x1b[0m")?;
    }
    Ok(())
}

/// A run after one of the style `before`.
fn push_run(out: &mut String, before: Style, run: &Run) -> Result<(), AllocError>
    ensures { OnOk result (string_bytes out.new ≡ string_bytes out.old ++ run_bytes before run.now) }
{
    let style = run.style();
    push_change(out, before, style)?;
    out.push_str(run.text())?;
    Ok(())
}

/// The bytes of a style that differs from the one before.
fn push_change(out: &mut String, before: Style, style: Style) -> Result<(), AllocError>
    ensures { OnOk result (string_bytes out.new ≡ string_bytes out.old ++ change_bytes before style) }
{
    if !same_style(style, before) {
        push_style(out, style)?;
    }
    Ok(())
}
