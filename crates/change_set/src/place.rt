ghost use Rattle.std.specs.Prelude.{◌≡◌, ◌<◌, ◌≤◌, ◌+◌, ◌^◌, length, drop, take};
ghost use Rattle.change_desc.specs.Sections.{old_of, old_size};
ghost use Rattle.change_set.specs.Places.{IsPlace, kept_count, marks_at};
ghost use Rattle.change_set.specs.Texts.{marked};

use change_desc::Section;

/// A place in the old text of a description: a section, and how many of its characters are passed.
#[derive(Clone, Copy, Drop)]
pub(crate) struct Place {
    pub(crate) index: usize,
    pub(crate) offset: u32,
}

/// How many of the next characters of a section are kept.
fn kept_count(section: &Section<u32>, count: u32) -> u32
    ensures { result ≡ kept_count count section.now }
{
    match section {
        Section::Keep(_) => count,
        Section::Replace(_, _) => 0,
    }
}

impl Place {
    /// Further characters, and how many of them are kept.
    pub(crate) fn pass(self, sections: &[Section<u32>], count: u32) -> (Place, u32)
        requires is_place { IsPlace sections.now self }
        requires within { count ≤ length (marks_at sections.now self) }
        ensures is_place { IsPlace sections.now result.0 }
        ensures left { marks_at sections.now result.0 ≡ drop count (marks_at sections.now self) }
        ensures kept { result.1 ≡ marked (take count (marks_at sections.now self)) }
        ensures most { result.1 ≤ count }
    {
        let mut place = self;
        let mut rest = count;
        let mut kept = 0;
        'walk: while rest > 0 {
            let section = &sections[place.index];
            let left = section.old_len() - place.offset;
            let step = left.min(rest);
            kept += kept_count(section, step);
            place = place.beyond(step, left);
            rest -= step;
        }
        (place, kept)
    }

    /// The place after some of the characters that are left of its section.
    fn beyond(self, step: u32, left: u32) -> Place
        requires offset { self.offset + left < 2 ^ 32 }
        requires index { self.index + 1 < 2 ^ 64 }
        ensures inside { step < left → result ≡ record { index = self.index; offset = self.offset + step } }
        ensures after { left ≤ step → result ≡ record { index = self.index + 1; offset = 0 } }
    {
        if step < left {
            Place {
                index: self.index,
                offset: self.offset + step,
            }
        } else {
            Place {
                index: self.index + 1,
                offset: 0,
            }
        }
    }
}
