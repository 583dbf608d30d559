// The bytes that set a style (ECMA-48, select graphic rendition).
ghost use Rattle.std.specs.Prelude.{◌≡◌, ◌<◌, ◌++◌, chars, drop, slice_index, IfOk, OnOk};
ghost use Rattle.std.specs.String.{string_bytes};
ghost use Rattle.term_bytes.specs.Frame.{color_code, flag_code, separated_codes, style_bytes, style_codes};

use decoration::{Color, Style};
use std::alloc::{AllocError, Global};

/// The codes of a style, separated by semicolons; empty where there is no style. `Err`: out of memory.
pub fn separated_codes(alloc: Global, style: Style) -> Result<String, AllocError>
    ensures bytes { IfOk result (λ text. string_bytes text ≡ separated_codes style) }
    ensures characters { IfOk result (λ text. chars (string_bytes text) ≡ separated_codes style) }
{
    let mut codes = String::new(alloc);
    push_codes(&mut codes, style)?;
    remove_first(&mut codes);
    Ok(codes)
}

/// Removes the first character, if there is one.
fn remove_first(text: &mut String)
    requires ascii { slice_index (string_bytes text.old) 0 < 128 }
    ensures { string_bytes text.new ≡ drop 1 (string_bytes text.old) }
{
    if !text.is_empty() {
        text.remove(0);
    }
}

/// `ESC [ 0`, the codes of a style and `m`.
pub(crate) fn push_style(out: &mut String, style: Style) -> Result<(), AllocError>
    ensures { OnOk result (string_bytes out.new ≡ string_bytes out.old ++ style_bytes style) }
{
    out.push_str("\x1b[0")?;
    push_codes(out, style)?;
    out.push_str("m")?;
    Ok(())
}

/// The codes of a style, each after a semicolon.
fn push_codes(out: &mut String, style: Style) -> Result<(), AllocError>
    ensures { OnOk result (string_bytes out.new ≡ string_bytes out.old ++ style_codes style) }
{
    push_flag(out, style.bold, ";1")?;
    push_flag(out, style.underline, ";4")?;
    push_flag(out, style.reverse, ";7")?;
    push_color(out, ";3", style.fg)?;
    push_color(out, ";4", style.bg)
}

fn push_flag(out: &mut String, wanted: bool, code: &str) -> Result<(), AllocError>
    ensures { OnOk result (string_bytes out.new ≡ string_bytes out.old ++ flag_code wanted code.now) }
{
    if wanted {
        out.push_str(code)?;
    }
    Ok(())
}

fn push_color(out: &mut String, code: &str, color: Option<Color>) -> Result<(), AllocError>
    ensures { OnOk result (string_bytes out.new ≡ string_bytes out.old ++ color_code code.now color) }
{
    if let Some(color) = color {
        let number = color.number();
        write!(out, "{code}{number}")?;
    }
    Ok(())
}
