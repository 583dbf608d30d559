ghost use Rattle.std.specs.Prelude.{IfOk, IsOk, OnErr, OnOk, [], ◌∷◌, ◌++◌, ◌≡◌, ◌<◌, ◌≤◌, ◌+◌, ◌^◌};
ghost use Rattle.smallvec.specs.SmallVec.{HasRoomFor, small_vec_len};
ghost use Rattle.change_desc.specs.Sections.{counted, inverted, old_of, old_size, new_of, new_size, normal};

use crate::section::Section;
use smallvec::SmallVec;
use std::alloc::AllocError;

/// Puts a section after others in normal form.
#[inline(always)]
pub(crate) fn push_section(
    sections: &mut SmallVec<Section<u32>, 8>,
    section: Section<u32>,
) -> Result<(), AllocError>
    requires is_normal { normal counted sections.old.items ≡ sections.old.items }
    requires old_fits { old_size sections.old.items + old_of section < 2 ^ 32 }
    requires new_fits { new_size counted sections.old.items + new_of counted section < 2 ^ 32 }
    ensures ok { OnOk result (sections.new.items ≡ normal counted (sections.old.items ++ section ∷ [])) }
    ensures err { OnErr result (sections.new.items ≡ sections.old.items) }
    ensures room { HasRoomFor sections.old 1 → IsOk result }
{
    if section.is_blank() {
        return Ok(());
    }
    if sections.len() > 0 {
        let last = sections.len() - 1;
        if let Some(both) = sections[last].join(&section) {
            sections[last] = both;
            return Ok(());
        }
    }
    sections.push(section)?;
    Ok(())
}

/// A copy of sections; up to eight take no memory.
pub(crate) fn copied_sections(
    sections: &SmallVec<Section<u32>, 8>,
) -> Result<SmallVec<Section<u32>, 8>, AllocError>
    ensures ok { IfOk result (λ copy. copy.items ≡ sections.now.items) }
    ensures few { small_vec_len sections.now ≤ 8 → IsOk result }
{
    let mut copies = SmallVec::new(*sections.allocator());
    for section in sections.as_slice() {
        copies.push(*section)?;
    }
    Ok(copies)
}

/// The way back of each section.
pub(crate) fn inverted_sections(
    sections: &SmallVec<Section<u32>, 8>,
) -> Result<SmallVec<Section<u32>, 8>, AllocError>
    ensures { IfOk result (λ back. back.items ≡ inverted sections.now.items) }
{
    let mut back = SmallVec::new(*sections.allocator());
    for section in sections.as_slice() {
        back.push(section.inverted())?;
    }
    Ok(back)
}

/// How long the old text is.
pub(crate) fn old_len(sections: &[Section<u32>]) -> u32
    requires { old_size sections.now < 2 ^ 32 }
    ensures { result ≡ old_size sections.now }
{
    let mut len = 0;
    for section in sections {
        len += section.old_len();
    }
    len
}

/// How long the new text is.
pub(crate) fn new_len(sections: &[Section<u32>]) -> u32
    requires { new_size counted sections.now < 2 ^ 32 }
    ensures { result ≡ new_size counted sections.now }
{
    let mut len = 0;
    for section in sections {
        len += section.new_len();
    }
    len
}
