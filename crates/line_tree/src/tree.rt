ghost use Rattle.std.specs.Prelude.{◌≡◌, ◌++◌, ◌+◌, ◌^◌, ◌<◌, ◌≤◌, length, IfOk, OnOk, IsTrue, IsFalse};
ghost use Rattle.line_tree.specs.Breaks.{count_breaks};
ghost use Rattle.line_tree.specs.Parts.{joined, HaveHeight};
ghost use Rattle.line_tree.specs.Places.{AddsTexts};

use crate::leaf::Leaf;
use crate::parts::{breaks_of, len_of};
use crate::text::{Branch, Node, Text};
use std::alloc::{AllocError, Global};
use std::rc::Rc;

/// The greatest number of characters of a leaf of several lines that isn't cut: the C library keeps at hand, by size, what so many
/// take. A longer one is cut in half at each edit of it, so that it comes to have no more. No contract speaks of it.
const SHORT_LEN: u32 = 256;

/// The greatest number of parts of a text that isn't cut. An edit copies the list of the parts of each branch above the leaf that it
/// changes. No contract speaks of it.
const FEW_PARTS: usize = 12;

/// The text of a leaf of at most 64 lines.
#[inline(always)]
pub(crate) fn make_leaf(alloc: Global, leaf: Leaf) -> Result<Text, AllocError>
    requires few { count_breaks leaf < 64 }
    requires fits { length leaf < 2 ^ 32 }
    ensures { IfOk result (λ t. (t.characters ≡ leaf) × (t.height ≡ 0)) }
{
    let node = Rc::new(alloc, Node::Leaf(leaf))?;
    Ok(Text { node })
}

/// The text of 2 to 32 parts of one height.
#[inline(always)]
pub(crate) fn make_branch(alloc: Global, parts: Vec<Text>, height: u32) -> Result<Text, AllocError>
    requires several { 2 ≤ length parts.items }
    requires few { length parts.items ≤ 32 }
    requires same { HaveHeight height parts.items }
    requires fits { length (joined parts.items) < 2 ^ 32 }
    ensures { IfOk result (λ t. (t.characters ≡ joined parts.items) × (t.height ≡ height + 1)) }
{
    let len = len_of(parts.as_slice());
    let breaks = breaks_of(parts.as_slice(), height);
    let height = height + 1;
    let node = Rc::new(
        alloc,
        Node::Branch(Branch {
            parts,
            len,
            breaks,
            height,
        }),
    )?;
    Ok(Text { node })
}

/// Whether a leaf is cut in two: where it has more lines than a leaf may have, or several lines and many characters.
fn is_cut(leaf: &Leaf) -> bool
    ensures few { IsFalse result → count_breaks leaf.now < 64 }
    ensures several { IsTrue result → 1 ≤ count_breaks leaf.now }
{
    let breaks = leaf.breaks();
    breaks > 0 && (breaks >= 64 || leaf.len() > SHORT_LEN)
}

/// Adds one or two leaves of these characters, which have at most 127 lines.
#[inline(always)]
pub(crate) fn add_lines(alloc: Global, leaf: Leaf, out: &mut Vec<Text>) -> Result<(), AllocError>
    requires few { count_breaks leaf < 127 }
    requires fits { length leaf < 2 ^ 32 }
    ensures { OnOk result (AddsTexts 0 leaf out.old.items out.new.items) }
{
    if !is_cut(&leaf) {
        out.push(make_leaf(alloc, leaf)?)?;
        return Ok(());
    }
    let place = leaf.break_place(leaf.breaks() / 2);
    let prefix = leaf.slice(0, place)?;
    let suffix = leaf.slice(place + 1, leaf.len() - place - 1)?;
    out.push(make_leaf(alloc, prefix)?)?;
    out.push(make_leaf(alloc, suffix)?)?;
    Ok(())
}

/// Adds one or two texts over these parts, of which there are 2 to 64.
#[inline(always)]
pub(crate) fn add_level(
    alloc: Global,
    mut parts: Vec<Text>,
    height: u32,
    out: &mut Vec<Text>,
) -> Result<(), AllocError>
    requires several { 2 ≤ length parts.items }
    requires few { length parts.items ≤ 64 }
    requires same { HaveHeight height parts.items }
    requires fits { length (joined parts.items) < 2 ^ 32 }
    ensures { OnOk result (AddsTexts (height + 1) (joined parts.items) out.old.items out.new.items) }
{
    if parts.len() <= FEW_PARTS {
        out.push(make_branch(alloc, parts, height)?)?;
        return Ok(());
    }
    let half = parts.len() / 2;
    let rest = parts.split_off(half)?;
    out.push(make_branch(alloc, parts, height)?)?;
    out.push(make_branch(alloc, rest, height)?)?;
    Ok(())
}

/// Adds the parts, which are shared.
pub(crate) fn add_copies(parts: &[Text], out: &mut Vec<Text>) -> Result<(), AllocError>
    ensures { OnOk result (out.new.items ≡ out.old.items ++ parts.now) }
{
    for part in parts {
        out.push(part.try_copy()?)?;
    }
    Ok(())
}

/// One or two texts of one height, as one text.
#[inline(always)]
pub(crate) fn one_text(alloc: Global, mut texts: Vec<Text>, height: u32) -> Result<Text, AllocError>
    requires some { 0 < length texts.items }
    requires few { length texts.items ≤ 2 }
    requires same { HaveHeight height texts.items }
    requires fits { length (joined texts.items) < 2 ^ 32 }
    ensures { IfOk result (λ t. t.characters ≡ joined texts.items) }
{
    if texts.len() == 2 {
        return make_branch(alloc, texts, height);
    }
    match texts.pop() {
        Some(piece) => Ok(piece),
        None => unreachable!(),
    }
}

/// The parts as one text.
pub(crate) fn join_copies(alloc: Global, parts: &[Text], height: u32) -> Result<Text, AllocError>
    requires some { 0 < length parts.now }
    requires few { length parts.now ≤ 32 }
    requires same { HaveHeight height parts.now }
    requires fits { length (joined parts.now) < 2 ^ 32 }
    ensures { IfOk result (λ t. t.characters ≡ joined parts.now) }
{
    if parts.len() == 1 {
        return parts[0].try_copy();
    }
    let mut copies = Vec::with_capacity(alloc, parts.len())?;
    add_copies(parts, &mut copies)?;
    make_branch(alloc, copies, height)
}
