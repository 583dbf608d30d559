use change_desc::Section;
use change_set::{Change, ChangeSet, ChangesError, Filtered, InsertedText};
use line_tree::{Text, cut_len};
use std::alloc::{AllocError, Global};
use std::test::Fail;

/// A text of some characters, which are few.
fn text(alloc: Global, characters: &[char]) -> Result<Text, AllocError> {
    if cut_len(characters) > 100 {
        return Text::empty(alloc);
    }
    Text::of(alloc, characters)
}

/// A range of a document replaced by some characters.
fn change(alloc: Global, from: u32, to: u32, characters: &[char]) -> Result<Change, AllocError> {
    let text = text(alloc, characters)?;
    let insert = InsertedText::of(text);
    Ok(Change::Span { from, to, insert })
}

/// Ranges of a document replaced.
fn changes(
    alloc: Global,
    spans: &[(u32, u32, &'static [char])],
) -> Result<Vec<Change>, AllocError> {
    let mut changes = Vec::new(alloc);
    for span in spans {
        changes.push(change(alloc, span.0, span.1, span.2)?)?;
    }
    Ok(changes)
}

/// The set of some changes of a document of `len` characters.
fn set(
    alloc: Global,
    spans: &[(u32, u32, &'static [char])],
    len: u32,
) -> Result<ChangeSet, ChangesError> {
    let changes = changes(alloc, spans)?;
    ChangeSet::of(alloc, changes.as_slice(), len, 100)
}

/// Whether a text has these characters.
fn has(text: &Text, characters: &[char]) -> Result<bool, AllocError> {
    let found = text.chars()?;
    Ok(found.as_slice() == characters)
}

/// Whether a set has sections of these lengths.
fn is_long(set: &ChangeSet, lengths: &[Section<u32>]) -> Result<bool, AllocError> {
    let desc = set.desc()?;
    Ok(desc.sections() == lengths)
}

/// Whether a set makes one text of another.
fn makes(set: &ChangeSet, old: &Text, new: &[char]) -> Result<bool, AllocError> {
    if set.len() != old.len() {
        return Ok(false);
    }
    let text = set.apply(old)?;
    has(&text, new)
}

/// Whether a set has sections of these lengths and makes one text of another.
fn comes_to(
    alloc: Global,
    set: &ChangeSet,
    old: &[char],
    lengths: &[Section<u32>],
    new: &[char],
) -> Result<bool, AllocError> {
    let old = text(alloc, old)?;
    Ok(is_long(set, lengths)? && makes(set, &old, new)?)
}

/// The same for the set of some changes of a document of three characters.
fn come_to(
    alloc: Global,
    spans: &[(u32, u32, &'static [char])],
    old: &[char],
    lengths: &[Section<u32>],
    new: &[char],
) -> Result<bool, ChangesError> {
    let set = set(alloc, spans, 3)?;
    Ok(comes_to(alloc, &set, old, lengths, new)?)
}

#[test]
fn changes_of_one_document(rt: HostRuntime) -> Result<(), Fail> {
    let cases: [(&[(u32, u32, &'static [char])], &[Section<u32>], &[char]); 6] = [
        (
            &[(3, 3, &['!']), (0, 1, &[])],
            &[
                Section::Replace(1, 0),
                Section::Keep(2),
                Section::Replace(0, 1),
            ],
            &['b', 'c', '!'],
        ),
        (
            &[(0, 1, &['p']), (1, 1, &['q']), (1, 3, &['r'])],
            &[
                Section::Replace(1, 1),
                Section::Replace(0, 1),
                Section::Replace(2, 1),
            ],
            &['p', 'q', 'r'],
        ),
        (
            &[(1, 1, &['x']), (1, 1, &['y'])],
            &[Section::Keep(1), Section::Replace(0, 2), Section::Keep(2)],
            &['a', 'x', 'y', 'b', 'c'],
        ),
        (
            &[(0, 1, &[]), (1, 2, &[])],
            &[Section::Replace(2, 0), Section::Keep(1)],
            &['c'],
        ),
        (
            &[(0, 2, &['x']), (1, 3, &['y'])],
            &[Section::Replace(2, 1), Section::Replace(1, 1)],
            &['x', 'y'],
        ),
        (
            &[(0, 3, &['x']), (0, 1, &['p']), (2, 3, &['q'])],
            &[Section::Replace(3, 1), Section::Replace(0, 2)],
            &['x', 'q', 'p'],
        ),
    ];
    for (spans, lengths, new) in cases {
        assert!(rt; come_to(rt.alloc(), spans, &['a', 'b', 'c'], lengths, new)?);
    }
    Ok(())
}

/// Whether sets of changes of one document of ten characters meet.
fn meet(
    alloc: Global,
    spans: &[(u32, u32, &'static [char])],
    others: &[(u32, u32, &'static [char])],
) -> Result<bool, ChangesError> {
    let first = set(alloc, spans, 10)?;
    let second = set(alloc, others, 10)?;
    Ok(first.meets(&second)?)
}

#[test]
fn sets_meet_where_ranges_touch(rt: HostRuntime) -> Result<(), Fail> {
    let cases: [(
        &[(u32, u32, &'static [char])],
        &[(u32, u32, &'static [char])],
        bool,
    ); 6] = [
        (&[(2, 4, &['x'])], &[(4, 6, &[])], true),
        (&[(2, 4, &[])], &[(5, 6, &['y'])], false),
        (&[(0, 0, &['x'])], &[(0, 0, &['y'])], true),
        (&[(1, 2, &[]), (8, 9, &[])], &[(5, 6, &[])], false),
        (&[(1, 2, &[]), (8, 9, &[])], &[(9, 10, &[])], true),
        (&[], &[(0, 10, &[])], false),
    ];
    for (spans, others, want) in cases {
        assert!(rt; meet(rt.alloc(), spans, others)? == want);
    }
    Ok(())
}

#[test]
fn a_set_that_changes_nothing(rt: HostRuntime) -> Result<(), Fail> {
    let old = ['a', 'b', 'c', 'd'];
    let empty = ChangeSet::empty(rt.alloc(), 4)?;
    assert!(rt; comes_to(rt.alloc(), &empty, &old, &[Section::Keep(4)], &old)?);
    Ok(())
}

/// What is told of a range that is no range of the document: its index and places, and the document's length.
fn bad_range(error: ChangesError) -> Option<(usize, u32, u32, u32)> {
    match error {
        ChangesError::BadRange {
            index,
            from,
            to,
            len,
        } => Some((index, from, to, len)),
        _ => None,
    }
}

/// What is told of a text that would be too long: its length, and the greatest.
fn too_long(error: ChangesError) -> Option<(u64, u32)> {
    match error {
        ChangesError::TooLong { len, max } => Some((len, max)),
        _ => None,
    }
}

/// Why some changes of a document of three characters make no set, where no text may have more than four.
fn refusal(
    alloc: Global,
    spans: &[(u32, u32, &'static [char])],
) -> Result<Option<ChangesError>, AllocError> {
    let changes = changes(alloc, spans)?;
    Ok(ChangeSet::of(alloc, changes.as_slice(), 3, 4).err())
}

#[test]
fn ranges_outside_are_refused(rt: HostRuntime) -> Result<(), Fail> {
    let cases: [(&[(u32, u32, &'static [char])], (usize, u32, u32, u32)); 3] = [
        (&[(2, 1, &[])], (0, 2, 1, 3)),
        (&[(0, 1, &['a', 'b', 'c', 'd']), (1, 4, &[])], (1, 1, 4, 3)),
        (&[(2, 2, &[]), (0, 0, &[]), (3, 2, &[])], (2, 3, 2, 3)),
    ];
    for (spans, want) in cases {
        let found = refusal(rt.alloc(), spans)?;
        assert!(rt; found.and_then(bad_range) == Some(want));
    }
    Ok(())
}

#[test]
fn long_texts_are_refused(rt: HostRuntime) -> Result<(), Fail> {
    let cases: [(&[(u32, u32, &'static [char])], (u64, u32)); 3] = [
        (&[(0, 0, &['a', 'b'])], (5, 4)),
        (&[(0, 1, &['a', 'b']), (1, 1, &['c']), (1, 3, &[])], (5, 4)),
        (&[(2, 2, &['a']), (0, 0, &['b', 'c', 'd'])], (7, 4)),
    ];
    for (spans, want) in cases {
        let found = refusal(rt.alloc(), spans)?;
        assert!(rt; found.and_then(too_long) == Some(want));
    }
    Ok(())
}

/// What is told of a set over a document of another length than 3.
fn other_length(alloc: Global) -> Result<Option<(u32, u32)>, AllocError> {
    let other = ChangeSet::empty(alloc, 2)?;
    let changes = [Change::Set(other)];
    match ChangeSet::of(alloc, &changes, 3, 4).err() {
        Some(ChangesError::LengthMismatch { want, have }) => Ok(Some((want, have))),
        _ => Ok(None),
    }
}

#[test]
fn a_set_over_another_length_is_refused(rt: HostRuntime) -> Result<(), Fail> {
    assert!(rt; other_length(rt.alloc())? == Some((3, 2)));
    Ok(())
}

/// The set of an insertion as a set and of a deletion, in one list of changes of a document of three characters.
fn with_a_set(alloc: Global) -> Result<ChangeSet, ChangesError> {
    let insertion = set(alloc, &[(1, 1, &['x'])], 3)?;
    let deletion = change(alloc, 0, 1, &[])?;
    let changes = [Change::Set(insertion), deletion];
    ChangeSet::of(alloc, &changes, 3, 100)
}

#[test]
fn a_set_is_a_change_among_others(rt: HostRuntime) -> Result<(), Fail> {
    let made = with_a_set(rt.alloc())?;
    let old = text(rt.alloc(), &['a', 'b', 'c'])?;
    assert!(rt;
        is_long(
            &made,
            &[
                Section::Replace(1, 0),
                Section::Replace(0, 1),
                Section::Keep(2)
            ]
        )?
    );
    assert!(rt; makes(&made, &old, &['x', 'b', 'c'])?);
    Ok(())
}

/// Two sets, one after the other; where they don't meet, the first alone.
fn composed(first: &ChangeSet, second: &ChangeSet) -> Result<ChangeSet, AllocError> {
    if first.new_len() == second.len() {
        first.compose(second)
    } else {
        first.try_copy()
    }
}

/// The set of one change of a document of four characters, and then one of the new document of `len` characters.
fn both(
    alloc: Global,
    first: (u32, u32, &'static [char]),
    second: (u32, u32, &'static [char]),
    len: u32,
) -> Result<ChangeSet, ChangesError> {
    let first = set(alloc, &[first], 4)?;
    let second = set(alloc, &[second], len)?;
    Ok(composed(&first, &second)?)
}

#[test]
fn a_set_after_another(rt: HostRuntime) -> Result<(), Fail> {
    let old = ['a', 'b', 'c', 'd'];
    let deletion = both(rt.alloc(), (1, 3, &[]), (1, 1, &['Z']), 2)?;
    let apart = [
        Section::Keep(1),
        Section::Replace(2, 0),
        Section::Replace(0, 1),
        Section::Keep(1),
    ];
    assert!(rt; comes_to(rt.alloc(), &deletion, &old, &apart, &['a', 'Z', 'd'])?);
    Ok(())
}

#[test]
fn a_place_that_is_not_shared(rt: HostRuntime) -> Result<(), Fail> {
    let old = ['a', 'b', 'c', 'd'];
    let within = both(rt.alloc(), (1, 3, &['x', 'y', 'z']), (2, 3, &['w']), 5)?;
    let one = [Section::Keep(1), Section::Replace(2, 3), Section::Keep(1)];
    assert!(rt; comes_to(rt.alloc(), &within, &old, &one, &['a', 'x', 'w', 'z', 'd'])?);
    Ok(())
}

/// A set over the new document of another; where they don't start in one document, or come to more than 100 characters,
/// the set itself.
fn mapped(set: &ChangeSet, other: &ChangeSet, before: bool) -> Result<ChangeSet, AllocError> {
    let over = other.desc()?;
    let own = set.desc()?;
    if over.len() == own.len() && own.mapped_len(&over) < 100 {
        set.map(&over, before)
    } else {
        set.try_copy()
    }
}

/// One change of a document of four characters over another.
fn over(
    alloc: Global,
    change: (u32, u32, &'static [char]),
    other: (u32, u32, &'static [char]),
    before: bool,
) -> Result<ChangeSet, ChangesError> {
    let own = set(alloc, &[change], 4)?;
    let other = set(alloc, &[other], 4)?;
    Ok(mapped(&own, &other, before)?)
}

#[test]
fn an_insertion_inside_what_the_other_replaces(rt: HostRuntime) -> Result<(), Fail> {
    let inside = over(rt.alloc(), (2, 2, &['Y']), (1, 3, &['x']), false)?;
    let after = [Section::Keep(2), Section::Replace(0, 1), Section::Keep(1)];
    assert!(rt;
        comes_to(
            rt.alloc(),
            &inside,
            &['a', 'x', 'd'],
            &after,
            &['a', 'x', 'Y', 'd']
        )?
    );
    Ok(())
}

#[test]
fn a_replacement_around_what_the_other_inserts(rt: HostRuntime) -> Result<(), Fail> {
    let around = over(rt.alloc(), (1, 3, &['x']), (2, 2, &['Y']), true)?;
    let parted = [
        Section::Keep(1),
        Section::Replace(1, 1),
        Section::Keep(1),
        Section::Replace(1, 0),
        Section::Keep(1),
    ];
    let old = ['a', 'b', 'Y', 'c', 'd'];
    assert!(rt; comes_to(rt.alloc(), &around, &old, &parted, &['a', 'x', 'Y', 'd'])?);
    Ok(())
}

/// The way back from the new document, over the old one.
fn back(set: &ChangeSet, old: &Text) -> Result<ChangeSet, AllocError> {
    if set.len() == old.len() {
        set.invert(old)
    } else {
        set.try_copy()
    }
}

/// The way back of some changes.
fn back_of(
    alloc: Global,
    spans: &[(u32, u32, &'static [char])],
    old: &[char],
) -> Result<ChangeSet, ChangesError> {
    let set = set(alloc, spans, 4)?;
    let old = text(alloc, old)?;
    Ok(back(&set, &old)?)
}

#[test]
fn the_way_back(rt: HostRuntime) -> Result<(), Fail> {
    let old = ['a', 'b', 'c', 'd'];
    let back = back_of(rt.alloc(), &[(0, 0, &['x']), (1, 3, &['y'])], &old)?;
    let lengths = [
        Section::Replace(1, 0),
        Section::Keep(1),
        Section::Replace(1, 2),
        Section::Keep(1),
    ];
    assert!(rt; comes_to(rt.alloc(), &back, &['x', 'a', 'y', 'd'], &lengths, &old)?);
    Ok(())
}

/// The two halves of a set where one range is protected, unless they come to more than 100 characters.
fn halves(set: &ChangeSet, from: u32, to: u32) -> Result<Option<Filtered>, AllocError> {
    let protected = [(from, to), (9, 3)];
    let lens = set.filtered_lens(&protected)?;
    if lens.0 < 100 && lens.1 < 100 {
        let halves = set.filter(&protected)?;
        Ok(Some(halves))
    } else {
        Ok(None)
    }
}

/// Whether a set of changes of 'abcdef' has these halves where a range is protected.
fn is_halved(
    alloc: Global,
    set: &ChangeSet,
    range: (u32, u32),
    kept: (&[Section<u32>], &[char]),
    dropped: (&[Section<u32>], &[char]),
) -> Result<bool, AllocError> {
    let old = ['a', 'b', 'c', 'd', 'e', 'f'];
    match halves(set, range.0, range.1)? {
        None => Ok(false),
        Some(halves) => Ok(
            comes_to(alloc, &halves.kept, &old, kept.0, kept.1)?
                && comes_to(alloc, &halves.dropped, &old, dropped.0, dropped.1)?,
        ),
    }
}

#[test]
fn a_text_goes_with_its_first_deleted_character(rt: HostRuntime) -> Result<(), Fail> {
    let set = set(rt.alloc(), &[(1, 4, &['X'])], 6)?;
    let kept = [Section::Keep(2), Section::Replace(2, 0), Section::Keep(2)];
    let dropped = [Section::Keep(1), Section::Replace(1, 1), Section::Keep(4)];
    let texts: [&[char]; 2] = [&['a', 'b', 'e', 'f'], &['a', 'X', 'c', 'd', 'e', 'f']];
    assert!(rt;
        is_halved(
            rt.alloc(),
            &set,
            (0, 2),
            (&kept, texts[0]),
            (&dropped, texts[1])
        )?
    );
    Ok(())
}

#[test]
fn an_insertion_strictly_inside_is_dropped(rt: HostRuntime) -> Result<(), Fail> {
    let set = set(rt.alloc(), &[(2, 2, &['X']), (4, 4, &['Y'])], 6)?;
    let kept = [Section::Keep(4), Section::Replace(0, 1), Section::Keep(2)];
    let dropped = [Section::Keep(2), Section::Replace(0, 1), Section::Keep(4)];
    let texts: [&[char]; 2] = [
        &['a', 'b', 'c', 'd', 'Y', 'e', 'f'],
        &['a', 'b', 'X', 'c', 'd', 'e', 'f'],
    ];
    assert!(rt;
        is_halved(
            rt.alloc(),
            &set,
            (1, 4),
            (&kept, texts[0]),
            (&dropped, texts[1])
        )?
    );
    Ok(())
}

/// Whether a set and its copy are the same, and it isn't the same as one that keeps all.
fn is_itself(alloc: Global, set: &ChangeSet) -> Result<bool, AllocError> {
    let copy = set.try_copy()?;
    let empty = ChangeSet::empty(alloc, 4)?;
    Ok(set.same(&copy) && !set.same(&empty) && empty.is_empty() && !set.is_empty())
}

#[test]
fn a_set_is_copied(rt: HostRuntime) -> Result<(), Fail> {
    let set = set(rt.alloc(), &[(1, 2, &['x', 'y'])], 4)?;
    assert!(rt; is_itself(rt.alloc(), &set)?);
    assert!(rt; set.len() == 4 && set.new_len() == 5 && set.sections().len() == 3);
    Ok(())
}

#[test]
fn a_set_of_two_changes_is_copied(rt: HostRuntime) -> Result<(), Fail> {
    let set = set(rt.alloc(), &[(1, 2, &['x']), (3, 3, &['y', 'z'])], 4)?;
    assert!(rt; is_itself(rt.alloc(), &set)?);
    assert!(rt; set.len() == 4 && set.new_len() == 6 && set.sections().len() == 5);
    Ok(())
}
