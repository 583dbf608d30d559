// The styles of places under ranges that style them.
ghost use Rattle.std.specs.Prelude.{◌≡◌, ◌+◌, ℕ, ◌<◌, length, IfOk};
ghost use Rattle.std.specs.List.{slice_index_or};
ghost use Rattle.decoration.specs.declared.style.Style.{Style};
ghost use Rattle.pieces.specs.Styles.{plain};
ghost use Rattle.pieces.specs.Shading.{covers, style_at, styled};

use crate::styles::over;
use decoration::Style;
use std::alloc::{AllocError, Global};

/// So many ranges or fewer are gone through for each cluster; where there are more, the style of each character is listed.
const FEW_RANGES: usize = 4;

/// A style over the characters from the place `from` to before the place `to`.
#[derive(Clone, Copy, Drop)]
pub(crate) struct StyleRange {
    pub(crate) from: u32,
    pub(crate) to: u32,
    pub(crate) style: Style,
}

/// The style of the character at a place, where the ranges stand from the outermost to the innermost.
pub(crate) fn style_at(line: Style, ranges: &[StyleRange], place: u32) -> Style
    ensures { result ≡ style_at line ranges.now place }
{
    let mut style = line;
    for range in ranges {
        style = styled(style, *range, place);
    }
    style
}

/// The style with the range's over it, if the range covers the place.
fn styled(under: Style, range: StyleRange, place: u32) -> Style
    ensures { result ≡ styled under range place }
{
    if range.from <= place && place < range.to {
        over(under, range.style)
    } else {
        under
    }
}

/// The style of each of `len` characters from the place `at` on, or of none where the ranges are few. `Err`: out of memory.
pub(crate) fn styles_of(
    alloc: Global,
    at: u32,
    len: u32,
    line: Style,
    ranges: &[StyleRange],
) -> Result<Vec<Style>, AllocError>
    ensures { IfOk result (λ styles. (p : ℕ) (d : Style) → p < length styles.items → slice_index_or styles.items p d ≡ style_at line ranges.now (at + p)) }
{
    if ranges.len() <= FEW_RANGES {
        return Ok(Vec::new(alloc));
    }
    let mut styles = vec![in alloc; line; len as usize]?;
    for range in ranges {
        apply(&mut styles, *range, at);
    }
    Ok(styles)
}

/// Puts the range's style over those of the characters that it covers, the first of which stands at the place `at`.
fn apply(styles: &mut Vec<Style>, range: StyleRange, at: u32)
    ensures len { length styles.new.items ≡ length styles.old.items }
    ensures value { (p : ℕ) → p < length styles.old.items → slice_index_or styles.new.items p plain ≡ styled (slice_index_or styles.old.items p plain) range (at + p) }
{
    let end = (range.to.saturating_sub(at) as usize).min(styles.len());
    let from = (range.from.saturating_sub(at) as usize).min(end);
    for place in from..end {
        styles[place] = over(styles[place], range.style);
    }
}
