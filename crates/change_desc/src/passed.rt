ghost use Rattle.std.specs.Prelude.{length, drop, ◌≡◌, ◌<◌, ◌≤◌, ◌+◌, ◌^◌};
ghost use Rattle.change_desc.specs.Sections.{counted, old_of, new_of, old_size, new_size};
ghost use Rattle.change_desc.specs.Walker.{IsPassed};

use crate::section::Section;

/// How many sections of a description are passed, and how long their old and their new text are together.
#[derive(Clone, Copy, Drop)]
pub(crate) struct Passed {
    pub(crate) count: usize,
    pub(crate) old: u32,
    pub(crate) new: u32,
}

impl Passed {
    /// The sections that end before a place of the old text, where these are some of them.
    pub(crate) fn up_to(self, sections: &[Section<u32>], pos: u32) -> Passed
        requires inside { pos ≤ old_size sections.now }
        requires old_fits { old_size sections.now < 2 ^ 32 }
        requires new_fits { new_size counted sections.now < 2 ^ 32 }
        requires is_passed { IsPassed sections.now self pos }
        ensures { IsPassed sections.now result pos }
    {
        let mut passed = self;
        'walk: while passed.count < sections.len() {
            let section = &sections[passed.count];
            if pos - passed.old <= section.old_len() {
                return passed;
            }
            passed = passed.beyond(section);
        }
        passed
    }

    /// The sections after these.
    pub(crate) fn rest<'a>(self, sections: &'a [Section<u32>]) -> &'a [Section<u32>]
        requires { self.count ≤ length sections.now }
        ensures { result.now ≡ drop self.count sections.now }
    {
        sections.split_at(self.count).1
    }

    /// These sections and the next.
    pub(crate) fn beyond(self, section: &Section<u32>) -> Passed
        requires count_fits { self.count + 1 < 2 ^ 64 }
        requires old_fits { self.old + old_of section.now < 2 ^ 32 }
        requires new_fits { self.new + new_of counted section.now < 2 ^ 32 }
        ensures { result ≡ record { count = self.count + 1; old = self.old + old_of section.now; new = self.new + new_of counted section.now } }
    {
        Passed {
            count: self.count + 1,
            old: self.old + section.old_len(),
            new: self.new + section.new_len(),
        }
    }
}
