ghost use Rattle.std.specs.Prelude.{◌≡◌, ◌++◌, ◌∷◌, [], ◌+◌, ◌-◌, ◌^◌, ◌<◌, ◌≤◌, length, take, drop, IfOk, OnOk};
ghost use Rattle.line_tree.specs.Text.{line_feed, replaced};
ghost use Rattle.line_tree.specs.Breaks.{count_breaks};
ghost use Rattle.line_tree.specs.Parts.{after_break, HaveHeight};
ghost use Rattle.line_tree.specs.Places.{AddsBoth, AddsTexts, IsLevel, before_break};

use crate::leaf::Leaf;
use crate::leaf_builder::LeafBuilder;
use crate::text::{Node, Text};
use crate::tree::{add_copies, add_level, add_lines, join_copies, one_text};
use std::alloc::AllocError;
use std::slice;

/// The parts of a text of this height, or else the text alone.
fn level_parts(text: &Text, height: u32) -> &[Text]
    requires positive { 0 < height }
    requires not_higher { text.now.height ≤ height }
    ensures { IsLevel text.now height result.now }
{
    if text.levels() < height {
        slice::from_ref(text)
    } else {
        text.parts()
    }
}

/// Adds one or two texts, as high as the higher of the two, that are `left` and then `right`.
fn glue(left: &Text, right: &Text, out: &mut Vec<Text>) -> Result<(), AllocError>
    requires { length left.now.characters + length right.now.characters < 2 ^ 32 }
    ensures { OnOk result (AddsBoth left.now [] right.now out.old.items out.new.items) }
{
    let height = left.levels().max(right.levels());
    if height == 0 {
        return glue_leaves(left, right, out);
    }
    let alloc = left.alloc();
    let lefts = level_parts(left, height);
    let rights = level_parts(right, height);
    let end = lefts.len() - 1;
    let mut parts = Vec::with_capacity(alloc, lefts.len() + rights.len())?;
    add_copies(&lefts[..end], &mut parts)?;
    glue(&lefts[end], &rights[0], &mut parts)?;
    add_copies(&rights[1..], &mut parts)?;
    add_level(alloc, parts, height - 1, out)
}

fn glue_leaves(left: &Text, right: &Text, out: &mut Vec<Text>) -> Result<(), AllocError>
    requires left_leaf { left.now.height ≡ 0 }
    requires right_leaf { right.now.height ≡ 0 }
    requires fits { length left.now.characters + length right.now.characters < 2 ^ 32 }
    ensures { OnOk result (AddsBoth left.now [] right.now out.old.items out.new.items) }
{
    let (Node::Leaf(left), Node::Leaf(right)) = (&*left.node, &*right.node) else {
        unreachable!()
    };
    let alloc = left.alloc();
    let mut builder = LeafBuilder::new(alloc);
    builder.push_leaf(left)?;
    builder.push_leaf(right)?;
    add_lines(alloc, builder.finish()?, out)
}

/// Adds one or two texts, as high as the higher of the two, that are `left`, a break and then `right`.
fn join(left: &Text, right: &Text, out: &mut Vec<Text>) -> Result<(), AllocError>
    requires { length left.now.characters + length right.now.characters + 1 < 2 ^ 32 }
    ensures { OnOk result (AddsBoth left.now (line_feed ∷ []) right.now out.old.items out.new.items) }
{
    if left.levels() == right.levels() {
        out.push(left.try_copy()?)?;
        out.push(right.try_copy()?)?;
        return Ok(());
    }
    let height = left.levels().max(right.levels());
    let alloc = left.alloc();
    let lefts = level_parts(left, height);
    let rights = level_parts(right, height);
    let end = lefts.len() - 1;
    let mut parts = Vec::with_capacity(alloc, lefts.len() + rights.len())?;
    add_copies(&lefts[..end], &mut parts)?;
    join(&lefts[end], &rights[0], &mut parts)?;
    add_copies(&rights[1..], &mut parts)?;
    add_level(alloc, parts, height - 1, out)
}

/// The characters of both.
pub(crate) fn append_glued(left: &Text, right: &Text) -> Result<Text, AllocError>
    requires { length left.now.characters + length right.now.characters < 2 ^ 32 }
    ensures { IfOk result (λ t. t.characters ≡ left.now.characters ++ right.now.characters) }
{
    let alloc = left.alloc();
    let mut texts = Vec::new(alloc);
    glue(left, right, &mut texts)?;
    one_text(alloc, texts, left.levels().max(right.levels()))
}

/// The characters of both with a break between.
pub(crate) fn append_lines(left: &Text, right: &Text) -> Result<Text, AllocError>
    requires { length left.now.characters + length right.now.characters + 1 < 2 ^ 32 }
    ensures { IfOk result (λ t. t.characters ≡ left.now.characters ++ line_feed ∷ right.now.characters) }
{
    let alloc = left.alloc();
    let mut texts = Vec::new(alloc);
    join(left, right, &mut texts)?;
    one_text(alloc, texts, left.levels().max(right.levels()))
}

/// The first `count` parts and then the text, each on lines of its own.
pub(crate) fn after_parts(
    parts: &[Text],
    count: usize,
    height: u32,
    text: Text,
) -> Result<Text, AllocError>
    requires in_range { count < length parts.now }
    requires few { length parts.now ≤ 32 }
    requires same { HaveHeight height parts.now }
    requires fits { length (before_break (take count parts.now)) + length text.characters < 2 ^ 32 }
    ensures { IfOk result (λ t. t.characters ≡ before_break (take count parts.now) ++ text.characters) }
{
    if count == 0 {
        return Ok(text);
    }
    let prefix = join_copies(text.alloc(), &parts[..count], height)?;
    append_lines(&prefix, &text)
}

/// The text and then the parts from `start` on, each on lines of its own.
pub(crate) fn before_parts(
    parts: &[Text],
    start: usize,
    height: u32,
    text: Text,
) -> Result<Text, AllocError>
    requires in_range { start ≤ length parts.now }
    requires few { length parts.now ≤ 32 }
    requires same { HaveHeight height parts.now }
    requires fits { length text.characters + length (after_break (drop start parts.now)) < 2 ^ 32 }
    ensures { IfOk result (λ t. t.characters ≡ text.characters ++ after_break (drop start parts.now)) }
{
    if start == parts.len() {
        return Ok(text);
    }
    let suffix = join_copies(text.alloc(), &parts[start..], height)?;
    append_lines(&text, &suffix)
}

/// Adds one or two leaves that have the lines of a leaf with those of another in place of the characters from `from` to `to`.
pub(crate) fn replace_lines(
    leaf: &Leaf,
    from: u32,
    to: u32,
    inserted: &Leaf,
    out: &mut Vec<Text>,
) -> Result<(), AllocError>
    requires order { from ≤ to }
    requires within { to ≤ length leaf.now }
    requires few { count_breaks leaf.now < 64 }
    requires few_inserted { count_breaks inserted.now < 64 }
    requires fits { length leaf.now - (to - from) + length inserted.now < 2 ^ 32 }
    ensures { OnOk result (AddsTexts 0 (replaced from to inserted.now leaf.now) out.old.items out.new.items) }
{
    let made = leaf.replaced(from, to, inserted)?;
    add_lines(leaf.alloc(), made, out)
}
