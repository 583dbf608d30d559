ghost use Rattle.std.specs.Prelude.{IfOk, map, ◌≡◌, ◌++◌};
ghost use Rattle.range_set.specs.PrivateChunks.{AreChunks, Ascend, IsGroup, flat, group_content, lengthen, move, shift, spread};
ghost use Rattle.range_set.specs.PrivateUpdates.{AreOpened};

use crate::chunk::Placed;
use crate::group::PlacedGroup;
use crate::group_cursor::GroupCursor;
use crate::range_value::RangeValue;
use std::alloc::{AllocError, Global};

/// The chunks of groups at their places, shared. `Err`: out of memory.
pub(crate) fn opened<T: RangeValue>(
    alloc: Global,
    groups: GroupCursor<'_, T>,
) -> Result<Vec<Placed<T>>, AllocError>
    ensures ranges { IfOk result (λ chunks. flat chunks.items ≡ flat (spread groups.entry)) }
    ensures chunks { IfOk result (λ chunks. AreChunks T.rules chunks.items) }
{
    let mut chunks = Vec::new(alloc);
    let mut rest = groups;
    while let Some((start, placed, others)) = rest.split_first() {
        open(start, placed, &mut chunks)?;
        rest = others;
    }
    Ok(chunks)
}

/// The chunks of the first group and of those after it that don't begin after a place, shared, and the place before the other groups:
/// of one more group, where the last of them is that of a long range, which what is added can't join. `Err`: out of memory.
pub(crate) fn opened_by<'a, T: RangeValue>(
    alloc: Global,
    groups: GroupCursor<'a, T>,
    place: u32,
) -> Result<(Vec<Placed<T>>, GroupCursor<'a, T>), AllocError>
    requires { Ascend 0 (flat (spread groups)) }
    ensures opened { IfOk result (λ made. AreOpened T.rules place groups.entry made.0.items made.1) }
{
    let mut chunks = Vec::new(alloc);
    let mut rest = groups;
    let mut is_alone = false;
    while let Some((start, placed, others)) = rest.split_first() {
        let is_joined = is_alone && placed.grown == 0;
        if place < start && !chunks.is_empty() && !is_joined {
            return Ok((chunks, rest));
        }
        is_alone = placed.grown != 0;
        open(start, placed, &mut chunks)?;
        rest = others;
    }
    Ok((chunks, rest))
}

/// Puts the chunks of a group at the place `base` after others, shared. `Err`: out of memory.
#[inline(always)]
fn open<T: RangeValue>(
    base: u32,
    placed: &PlacedGroup<T>,
    chunks: &mut Vec<Placed<T>>,
) -> Result<(), AllocError>
    requires group { IsGroup T.rules base (group_content placed.now) }
    requires chunks { AreChunks T.rules chunks.old.items }
    ensures ranges { IfOk result (λ _. flat chunks.new.items ≡ flat chunks.old.items ++ map (shift base) (flat (group_content placed.now).chunks)) }
    ensures chunks { IfOk result (λ _. AreChunks T.rules chunks.new.items) }
{
    chunks.reserve(placed.group.chunks.len())?;
    share_each(base, placed.grown, placed.group.chunks.as_slice(), chunks)
}

/// Puts chunks that count from the place `base`, and whose ranges end later by `grown`, after others, shared. `Err`: out of memory.
#[inline(always)]
pub(crate) fn share_each<T: RangeValue>(
    base: u32,
    grown: u32,
    chunks: &[Placed<T>],
    made: &mut Vec<Placed<T>>,
) -> Result<(), AllocError>
    requires chunks { AreChunks T.rules (map (move base) (map (lengthen grown) chunks.now)) }
    requires made { AreChunks T.rules made.old.items }
    ensures chunks { IfOk result (λ _. AreChunks T.rules made.new.items) }
    ensures ranges { IfOk result (λ _. flat made.new.items ≡ flat made.old.items ++ map (shift base) (flat (map (lengthen grown) chunks.now))) }
{
    for placed in chunks {
        made.push(placed.lengthened(base + placed.start, grown)?)?;
    }
    Ok(())
}
