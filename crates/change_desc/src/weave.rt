ghost use Rattle.std.specs.Prelude.{OnOk, IsFalse, [], ◌∷◌, ◌++◌, ◌≡◌, ◌<◌, ◌+◌, ◌^◌};
ghost use Rattle.change_desc.specs.declared.section.Section.{Section};
ghost use Rattle.change_desc.specs.Sections.{counted, old_of, new_of, is_blank, normal};
ghost use Rattle.change_desc.specs.Pieces.{single, stretch};
ghost use Rattle.change_desc.specs.Weaving.{Takes, old_done, new_done};

use crate::section::Section;
use crate::sections::push_section;
use smallvec::SmallVec;
use std::alloc::AllocError;

/// Sections in normal form, and a replacement after them that may still grow.
#[derive(Drop)]
pub(crate) struct Weave {
    pub(crate) sections: SmallVec<Section<u32>, 8>,
    pub(crate) count: u32,
    pub(crate) len: u32,
}

impl Weave {
    /// Puts the replacement after the sections.
    pub(crate) fn flush(&mut self) -> Result<(), AllocError>
        requires is_normal { normal counted self.old.sections.items ≡ self.old.sections.items }
        requires old_fits { old_done self.old < 2 ^ 32 }
        requires new_fits { new_done self.old < 2 ^ 32 }
        ensures { OnOk result ((self.new.sections.items ≡ normal counted (self.old.sections.items ++ Section.Replace self.old.count self.old.len ∷ [])) × (self.new.count ≡ 0) × (self.new.len ≡ 0)) }
    {
        push_section(&mut self.sections, Section::Replace(self.count, self.len))?;
        self.count = 0;
        self.len = 0;
        Ok(())
    }

    /// One more section by itself.
    pub(crate) fn single(&mut self, section: Section<u32>) -> Result<(), AllocError>
        requires is_normal { normal counted self.old.sections.items ≡ self.old.sections.items }
        requires not_blank { IsFalse (is_blank counted section) }
        requires old_fits { old_done self.old + old_of section < 2 ^ 32 }
        requires new_fits { new_done self.old + new_of counted section < 2 ^ 32 }
        ensures { OnOk result (Takes self.old self.new (single section) (old_of section) (new_of counted section)) }
    {
        self.flush()?;
        push_section(&mut self.sections, section)?;
        Ok(())
    }

    /// One more stretch of a replacement, which starts there or goes on.
    pub(crate) fn stretch(&mut self, starts: bool, count: u32, len: u32) -> Result<(), AllocError>
        requires is_normal { normal counted self.old.sections.items ≡ self.old.sections.items }
        requires old_fits { old_done self.old + count < 2 ^ 32 }
        requires new_fits { new_done self.old + len < 2 ^ 32 }
        ensures { OnOk result (Takes self.old self.new (stretch starts count len) count len) }
    {
        if starts {
            self.flush()?;
        }
        self.count += count;
        self.len += len;
        Ok(())
    }
}
