ghost use Rattle.std.specs.Prelude.{false, OnOk, IfOk, IsTrue, IsFalse, ◌≡◌, ◌<◌, ◌+◌, ◌^◌};
ghost use Rattle.change_desc.specs.declared.section.Section.{Section};
ghost use Rattle.change_desc.specs.Sections.{counted, old_size, new_size, IsSet, is_blank, normal};
ghost use Rattle.change_desc.specs.Pieces.{single, stretch};
ghost use Rattle.change_desc.specs.Compose.{compose};
ghost use Rattle.change_desc.specs.Tails.{is_deletion, is_insertion, IsTail, left_old, still_old, still_new};
ghost use Rattle.change_desc.specs.Weaving.{Takes, Steps, old_done, new_done, CanStep};

use crate::section::Section;
use crate::tail::Tail;
use crate::weave::Weave;
use smallvec::SmallVec;
use std::alloc::{AllocError, Global};

impl Weave {
    /// A pure deletion or insertion at a place: by itself where it is shared, else with the replacement there.
    fn gap(&mut self, shared: bool, count: u32, len: u32) -> Result<(), AllocError>
        requires is_normal { normal counted self.old.sections.items ≡ self.old.sections.items }
        requires not_blank { IsFalse (is_blank counted (Section.Replace count len)) }
        requires old_fits { old_done self.old + count < 2 ^ 32 }
        requires new_fits { new_done self.old + len < 2 ^ 32 }
        ensures single { OnOk result (IsTrue shared → Takes self.old self.new (single (Section.Replace count len)) count len) }
        ensures stretch { OnOk result (IsFalse shared → Takes self.old self.new (stretch false count len) count len) }
    {
        if shared {
            self.single(Section::Replace(count, len))?;
        } else {
            self.stretch(false, count, len)?;
        }
        Ok(())
    }

    /// A pure deletion of the first set.
    fn delete(&mut self, a: Tail, b: Tail) -> Result<(Tail, Tail), AllocError>
        requires is_normal { normal counted self.old.sections.items ≡ self.old.sections.items }
        requires tails { IsTail a × IsTail b }
        requires deletes { IsTrue (is_deletion a) }
        requires old_fits { old_done self.old + still_old a < 2 ^ 32 }
        requires new_fits { new_done self.old < 2 ^ 32 }
        ensures { IfOk result (λ left. Steps self.old self.new a b left.0 left.1) }
    {
        self.gap(!b.is_opened(), a.still_old(), 0)?;
        Ok((Tail::Kept(0), b))
    }

    /// A pure insertion of the second set.
    fn insert(&mut self, a: Tail, b: Tail) -> Result<(Tail, Tail), AllocError>
        requires is_normal { normal counted self.old.sections.items ≡ self.old.sections.items }
        requires tails { IsTail a × IsTail b }
        requires inserts { IsTrue (is_insertion b) }
        requires no_deletion { IsFalse (is_deletion a) }
        requires old_fits { old_done self.old < 2 ^ 32 }
        requires new_fits { new_done self.old + still_new b < 2 ^ 32 }
        ensures { IfOk result (λ left. Steps self.old self.new a b left.0 left.1) }
    {
        self.gap(!a.is_opened(), 0, b.still_new())?;
        Ok((a, Tail::Kept(0)))
    }

    /// Characters that the first set keeps.
    fn keep(&mut self, m: u32, b: Tail) -> Result<(Tail, Tail), AllocError>
        requires is_normal { normal counted self.old.sections.items ≡ self.old.sections.items }
        requires some { 0 < m × 0 < left_old b }
        requires old_fits { old_done self.old + m < 2 ^ 32 }
        requires new_fits { new_done self.old + still_new b < 2 ^ 32 }
        ensures { IfOk result (λ left. Steps self.old self.new (Tail.Kept m) b left.0 left.1) }
    {
        match b {
            Tail::Kept(n) => {
                let both = m.min(n);
                self.single(Section::Keep(both))?;
                Ok((Tail::Kept(m - both), Tail::Kept(n - both)))
            }
            Tail::Fresh(n, len) => {
                self.stretch(true, 1, len)?;
                Ok((Tail::Kept(m - 1), Tail::opened(n - 1)))
            }
            Tail::Opened(n) => {
                let both = m.min(n);
                self.stretch(false, both, 0)?;
                Ok((Tail::Kept(m - both), Tail::opened(n - both)))
            }
        }
    }

    /// The first of the characters that a section of the first set gives for others.
    fn begin(&mut self, count: u32, m: u32, b: Tail) -> Result<(Tail, Tail), AllocError>
        requires is_normal { normal counted self.old.sections.items ≡ self.old.sections.items }
        requires some { 0 < m × 0 < left_old b }
        requires old_fits { old_done self.old + count < 2 ^ 32 }
        requires new_fits { new_done self.old + still_new b < 2 ^ 32 }
        ensures { IfOk result (λ left. Steps self.old self.new (Tail.Fresh count m) b left.0 left.1) }
    {
        match b {
            Tail::Kept(n) => {
                self.stretch(true, count, 1)?;
                Ok((Tail::opened(m - 1), Tail::Kept(n - 1)))
            }
            Tail::Fresh(n, len) => {
                self.stretch(true, count, len)?;
                Ok((Tail::opened(m - 1), Tail::opened(n - 1)))
            }
            Tail::Opened(n) => {
                self.stretch(false, count, 0)?;
                Ok((Tail::opened(m - 1), Tail::opened(n - 1)))
            }
        }
    }

    /// The others of them.
    fn go_on(&mut self, m: u32, b: Tail) -> Result<(Tail, Tail), AllocError>
        requires is_normal { normal counted self.old.sections.items ≡ self.old.sections.items }
        requires some { 0 < m × 0 < left_old b }
        requires old_fits { old_done self.old < 2 ^ 32 }
        requires new_fits { new_done self.old + still_new b < 2 ^ 32 }
        ensures { IfOk result (λ left. Steps self.old self.new (Tail.Opened m) b left.0 left.1) }
    {
        match b {
            Tail::Kept(n) => {
                let both = m.min(n);
                self.stretch(false, 0, both)?;
                Ok((Tail::opened(m - both), Tail::Kept(n - both)))
            }
            Tail::Fresh(n, len) => {
                self.stretch(false, 0, len)?;
                Ok((Tail::opened(m - 1), Tail::opened(n - 1)))
            }
            Tail::Opened(n) => {
                let both = m.min(n);
                Ok((Tail::opened(m - both), Tail::opened(n - both)))
            }
        }
    }

    /// One step of a walk along the text between two sets: what is next of each, and what is left then.
    pub(crate) fn step(&mut self, a: Tail, b: Tail) -> Result<(Tail, Tail), AllocError>
        requires is_normal { normal counted self.old.sections.items ≡ self.old.sections.items }
        requires tails { IsTail a × IsTail b }
        requires level { CanStep a b }
        requires old_fits { old_done self.old + still_old a < 2 ^ 32 }
        requires new_fits { new_done self.old + still_new b < 2 ^ 32 }
        ensures { IfOk result (λ left. Steps self.old self.new a b left.0 left.1) }
    {
        if a.is_deletion() {
            return self.delete(a, b);
        }
        if b.is_insertion() {
            return self.insert(a, b);
        }
        match a {
            Tail::Kept(m) => self.keep(m, b),
            Tail::Fresh(count, m) => self.begin(count, m, b),
            Tail::Opened(m) => self.go_on(m, b),
        }
    }
}

/// The sections that lead from the old text of the first list to the new text of the second.
pub(crate) fn compose_sections(
    alloc: Global,
    first: &[Section<u32>],
    second: &[Section<u32>],
) -> Result<SmallVec<Section<u32>, 8>, AllocError>
    requires first { IsSet counted first.now }
    requires second { IsSet counted second.now }
    requires meet { new_size counted first.now ≡ old_size second.now }
    ensures value { IfOk result (λ sections. sections.items ≡ compose counted first.now second.now) }
    ensures is_set { IfOk result (λ sections. IsSet counted sections.items) }
{
    let mut weave = Weave {
        sections: SmallVec::new(alloc),
        count: 0,
        len: 0,
    };
    let (mut a, mut i) = Tail::Kept(0).load(first, 0);
    let (mut b, mut j) = Tail::Kept(0).load(second, 0);
    'walk: while !(a.is_spent() && b.is_spent()) {
        let (left_a, left_b) = weave.step(a, b)?;
        (a, i) = left_a.load(first, i);
        (b, j) = left_b.load(second, j);
    }
    weave.flush()?;
    Ok(weave.sections)
}
