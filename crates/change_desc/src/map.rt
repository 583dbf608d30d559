ghost use Rattle.std.specs.Prelude.{min, IfOk, IsTrue, IsFalse, ◌≡◌, ◌<◌, ◌+◌, ◌^◌};
ghost use Rattle.change_desc.specs.Sections.{counted, old_size, new_size, IsSet, normal};
ghost use Rattle.change_desc.specs.Pieces.{single};
ghost use Rattle.change_desc.specs.Map.{map_over};
ghost use Rattle.change_desc.specs.Columns.{along_old};
ghost use Rattle.change_desc.specs.Tails.{is_fresh, IsTail, left_old, still_new};
ghost use Rattle.change_desc.specs.Weaving.{old_done, new_done};
ghost use Rattle.change_desc.specs.MapSteps.{Measures, merged_len, Maps, CanMap, next_len, second_next};

use crate::section::Section;
use crate::tail::Tail;
use crate::weave::Weave;
use smallvec::SmallVec;
use std::alloc::{AllocError, Global};

/// Whether the text of the second set is next where two sets meet.
fn is_second_next(before: bool, a: Tail, b: Tail) -> bool
    ensures { result ≡ second_next before a b }
{
    b.is_fresh() && (before || !a.is_fresh())
}

impl Weave {
    /// A text that the mapped set puts in.
    fn second_text(&mut self, before: bool, a: Tail, b: Tail) -> Result<Tail, AllocError>
        requires is_normal { normal counted self.old.sections.items ≡ self.old.sections.items }
        requires tails { IsTail a × IsTail b }
        requires next { IsTrue (second_next before a b) }
        requires old_fits { old_done self.old < 2 ^ 32 }
        requires new_fits { new_done self.old + still_new b < 2 ^ 32 }
        ensures { IfOk result (λ left. Maps before self.old self.new a b a left) }
    {
        let count = b.left_old();
        let len = b.still_new();
        if count == 0 {
            self.single(Section::Replace(0, len))?;
        } else {
            self.stretch(true, 0, len)?;
        }
        Ok(Tail::opened(count))
    }

    /// A text that the other set has put in, which is kept.
    fn first_text(&mut self, before: bool, a: Tail, b: Tail) -> Result<Tail, AllocError>
        requires is_normal { normal counted self.old.sections.items ≡ self.old.sections.items }
        requires tails { IsTail a × IsTail b }
        requires next { IsFalse (second_next before a b) }
        requires fresh { IsTrue (is_fresh a) }
        requires old_fits { old_done self.old + still_new a < 2 ^ 32 }
        requires new_fits { new_done self.old + still_new a < 2 ^ 32 }
        ensures { IfOk result (λ left. Maps before self.old self.new a b left b) }
    {
        let count = a.left_old();
        let len = a.still_new();
        if len > 0 {
            self.single(Section::Keep(len))?;
        }
        Ok(Tail::opened(count))
    }

    /// Characters of the old text: what both keep is kept, and what the mapped set alone deletes is deleted.
    fn characters(&mut self, before: bool, a: Tail, b: Tail) -> Result<(Tail, Tail), AllocError>
        requires is_normal { normal counted self.old.sections.items ≡ self.old.sections.items }
        requires begun { IsFalse (is_fresh a) × IsFalse (is_fresh b) }
        requires some { 0 < left_old a × 0 < left_old b }
        requires old_fits { old_done self.old + still_new a < 2 ^ 32 }
        requires new_fits { new_done self.old + min (still_new a) (still_new b) < 2 ^ 32 }
        ensures { IfOk result (λ left. Maps before self.old self.new a b left.0 left.1) }
    {
        let both = a.left_old().min(b.left_old());
        if !a.is_opened() {
            if b.is_opened() {
                self.stretch(false, both, 0)?;
            } else {
                self.single(Section::Keep(both))?;
            }
        }
        Ok((a.beyond(both), b.beyond(both)))
    }

    /// One step of mapping the second set over the first.
    pub(crate) fn map_step(
        &mut self,
        before: bool,
        a: Tail,
        b: Tail,
    ) -> Result<(Tail, Tail), AllocError>
        requires is_normal { normal counted self.old.sections.items ≡ self.old.sections.items }
        requires tails { IsTail a × IsTail b }
        requires level { CanMap a b }
        requires old_fits { old_done self.old + still_new a < 2 ^ 32 }
        requires new_fits { new_done self.old + next_len before a b < 2 ^ 32 }
        ensures { IfOk result (λ left. Maps before self.old self.new a b left.0 left.1) }
    {
        if is_second_next(before, a, b) {
            let left = self.second_text(before, a, b)?;
            return Ok((a, left));
        }
        if a.is_fresh() {
            let left = self.first_text(before, a, b)?;
            return Ok((left, b));
        }
        self.characters(before, a, b)
    }
}

/// The second list of sections over the new text of the first, where both are over one text.
pub(crate) fn map_sections(
    alloc: Global,
    first: &[Section<u32>],
    second: &[Section<u32>],
    before: bool,
) -> Result<SmallVec<Section<u32>, 8>, AllocError>
    requires first { IsSet counted first.now }
    requires second { IsSet counted second.now }
    requires meet { old_size first.now ≡ old_size second.now }
    requires fits { new_size counted (map_over counted second.now first.now before) < 2 ^ 32 }
    ensures value { IfOk result (λ sections. sections.items ≡ map_over counted second.now first.now before) }
    ensures is_set { IfOk result (λ sections. IsSet counted sections.items) }
{
    let mut weave = Weave {
        sections: SmallVec::new(alloc),
        count: 0,
        len: 0,
    };
    let (mut a, mut i) = Tail::Kept(0).load(first, 0);
    let (mut b, mut j) = Tail::Kept(0).load(second, 0);
    'walk: while !(a.is_spent() && b.is_spent()) {
        let (left_a, left_b) = weave.map_step(before, a, b)?;
        (a, i) = left_a.load(first, i);
        (b, j) = left_b.load(second, j);
    }
    weave.flush()?;
    Ok(weave.sections)
}

/// One step of mapping the second set over the first, where only the length of what it puts in is asked for.
fn measure_step(a: Tail, b: Tail) -> (Tail, Tail, u32)
    requires tails { IsTail a × IsTail b }
    requires level { CanMap a b }
    ensures { Measures a b result.0 result.1 result.2 }
{
    if is_second_next(false, a, b) {
        return (a, Tail::opened(b.left_old()), b.still_new());
    }
    if a.is_fresh() {
        return (Tail::opened(a.left_old()), b, a.still_new());
    }
    let both = a.left_old().min(b.left_old());
    (
        a.beyond(both),
        b.beyond(both),
        a.still_new().min(b.still_new()),
    )
}

/// How long the new text of the second list of sections over the new text of the first is.
pub(crate) fn mapped_len(first: &[Section<u32>], second: &[Section<u32>]) -> u64
    requires first { IsSet counted first.now }
    requires second { IsSet counted second.now }
    requires meet { old_size first.now ≡ old_size second.now }
    ensures { result ≡ merged_len (along_old counted first.now) (along_old counted second.now) }
{
    let mut len: u64 = 0;
    let (mut a, mut i) = Tail::Kept(0).load(first, 0);
    let (mut b, mut j) = Tail::Kept(0).load(second, 0);
    'walk: while !(a.is_spent() && b.is_spent()) {
        let (left_a, left_b, added) = measure_step(a, b);
        len += u64::from(added);
        (a, i) = left_a.load(first, i);
        (b, j) = left_b.load(second, j);
    }
    len
}
