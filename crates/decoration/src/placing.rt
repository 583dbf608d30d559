ghost use Rattle.std.specs.Prelude.{◌≡◌, ◌↔◌, IfOk, IfErr, IsOk, IsTrue, Some, None};
ghost use Rattle.decoration.specs.declared.deco.Deco.TheVariants as decos;
ghost use Rattle.decoration.specs.declared.deco_error.DecoError.TheVariants as errors;
ghost use Rattle.decoration.specs.Places.{place_fault, kind_of, is_line_start};

use crate::deco::Deco;
use crate::deco_error::DecoError;
use crate::style::Style;
use line_tree::Text;
use range_set::Ranged;

/// A decoration at the range from one place to another, in characters (Reference Manual: Decoration.range). `Err`:
/// `Reversed` where the range ends before it starts; else `EmptyMark` of an empty mark, `NotEmpty` of a widget or a line
/// decoration over characters, `BadReplace` of an empty replacement.
pub fn place(deco: Deco, from: u32, to: u32) -> Result<Ranged<Deco>, DecoError>
    ensures accepted { IsOk result ↔ (place_fault (kind_of deco) from to ≡ None) }
    ensures placed { IfOk result (λ range. range ≡ record { from = from; to = to; value = deco }) }
    ensures refused { IfErr result (λ error. place_fault (kind_of deco) from to ≡ Some error) }
{
    match deco.kind().check(from, to) {
        Ok(()) => Ok(Ranged {
            from,
            to,
            value: deco,
        }),
        Err(error) => Err(error),
    }
}

/// A line decoration at the start of a line of the text. `Err`: `NotLineStart` exactly where no line starts at the place.
pub fn place_line(text: &Text, pos: u32, style: Style) -> Result<Ranged<Deco>, DecoError>
    ensures accepted { IsOk result ↔ IsTrue (is_line_start text.now.characters pos) }
    ensures placed { IfOk result (λ range. range ≡ record { from = pos; to = pos; value = decos.Line style }) }
    ensures refused { IfErr result (λ error. error ≡ errors.NotLineStart pos) }
{
    if starts_line(text, pos) {
        Ok(Ranged {
            from: pos,
            to: pos,
            value: Deco::line(style),
        })
    } else {
        Err(DecoError::NotLineStart { pos })
    }
}

/// Whether a line of the text starts at the place.
fn starts_line(text: &Text, pos: u32) -> bool
    ensures { result ≡ is_line_start text.now.characters pos }
{
    if pos > text.len() {
        return false;
    }
    let line = text.line_at(pos);
    line.from == pos
}
