ghost use Rattle.std.specs.Prelude.{◌≡◌, ◌↔◌, IfOk, IsTrue};
ghost use Rattle.decoration.specs.Replacements.{ReplacementView};

use crate::inclusive::Inclusive;
use crate::style::Style;
use cm_plain::Str;
use std::alloc::{AllocError, Global};
use std::marker::Model;
use std::rc::Rc;

/// A replacement: it shows a text in place of the characters of its range (Reference Manual: Decoration.replace). Copies of
/// a replacement share what it shows.
#[derive(Debug, Drop)]
pub struct Replacement {
    core: Rc<ReplacementCore>,
}

/// What the copies of a replacement share.
#[derive(Debug, Drop)]
struct ReplacementCore {
    text: Str,
    style: Style,
    inclusive: Inclusive,
}

impl Model for Replacement {
    ghost use Rattle.decoration.specs.Replacements.{ReplacementView};

    ghost Value = { ReplacementView };

    ghost view = { λ r. record { text = r.core.value.text; style = r.core.value.style; inclusive = r.core.value.inclusive } };
}

impl Replacement {
    /// A replacement. `Err`: out of memory.
    pub fn of(
        alloc: Global,
        text: Str,
        style: Style,
        inclusive: Inclusive,
    ) -> Result<Replacement, AllocError>
        ensures { IfOk result (λ r. r ≡ record { text = text; style = style; inclusive = inclusive }) }
    {
        let core = ReplacementCore {
            text,
            style,
            inclusive,
        };
        match Rc::new(alloc, core) {
            Ok(core) => Ok(Replacement { core }),
            Err(_) => Err(AllocError),
        }
    }

    /// The text that it shows.
    pub fn text(&self) -> &Str
        ensures { result.now ≡ self.now.text }
    {
        &self.core.text
    }

    /// The style of its cells.
    pub fn style(&self) -> Style
        ensures { result ≡ self.now.style }
    {
        self.core.style
    }

    /// Which of its ends take in text that is inserted there.
    pub fn inclusive(&self) -> Inclusive
        ensures { result ≡ self.now.inclusive }
    {
        self.core.inclusive
    }

    /// Whether both show the same text in the same style, with the same ends inclusive.
    pub fn same(&self, other: &Replacement) -> bool
        ensures { IsTrue result ↔ (self.now ≡ other.now) }
    {
        let (a, b) = (&self.core, &other.core);
        a.style.same(&b.style) && a.inclusive.same(&b.inclusive) && a.text.same(&b.text)
    }

    /// The same replacement once more, which shares what it shows. `Err`: no further owner can be counted.
    pub fn try_copy(&self) -> Result<Replacement, AllocError>
        ensures { IfOk result (λ copy. copy ≡ self.now) }
    {
        let core = self.core.clone()?;
        Ok(Replacement { core })
    }
}
