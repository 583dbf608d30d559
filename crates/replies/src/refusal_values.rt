ghost use Rattle.std.specs.Prelude.{◌≡◌, IfOk};
ghost use Rattle.serde_json.specs.View.{view};
ghost use Rattle.script.specs.declared.refusal.Refusal.TheVariants.{BadRange, LengthMismatch, TooLong, BadMain, SelectionOutside, Ahead};
ghost use Rattle.replies.specs.Refusals.{refusal_data};

use crate::coded::{code_value, coded_number, coded_text, coded_value};
use crate::declaration_values::declaration_value;
use crate::extension_values::extension_value;
use crate::outside_values::{file_value, window_value};
use crate::scalar::Scalar::{U32, U64};
use script::Refusal;
use serde_json::Value;
use std::alloc::{AllocError, Global};

fn bad_range_value(
    alloc: Global,
    index: u64,
    from: u32,
    to: u32,
    len: u32,
) -> Result<Value, AllocError>
    ensures { IfOk result (λ v. view v ≡ refusal_data (BadRange index from to len)) }
{
    coded_value(
        alloc,
        "BadRange",
        &[
            ("from", U32(from)),
            ("index", U64(index)),
            ("len", U32(len)),
            ("to", U32(to)),
        ],
    )
}

fn mismatch_value(alloc: Global, want: u32, have: u32) -> Result<Value, AllocError>
    ensures { IfOk result (λ v. view v ≡ refusal_data (LengthMismatch want have)) }
{
    coded_value(
        alloc,
        "LengthMismatch",
        &[("have", U32(have)), ("want", U32(want))],
    )
}

fn too_long_value(alloc: Global, len: u64, max: u32) -> Result<Value, AllocError>
    ensures { IfOk result (λ v. view v ≡ refusal_data (TooLong len max)) }
{
    coded_value(alloc, "TooLong", &[("len", U64(len)), ("max", U32(max))])
}

fn bad_main_value(alloc: Global, main: usize, count: usize) -> Result<Value, AllocError>
    ensures { IfOk result (λ v. view v ≡ refusal_data (BadMain main count)) }
{
    coded_value(
        alloc,
        "BadMain",
        &[("count", U64(count as u64)), ("main", U64(main as u64))],
    )
}

fn outside_value(alloc: Global, pos: u32, len: u32) -> Result<Value, AllocError>
    ensures { IfOk result (λ v. view v ≡ refusal_data (SelectionOutside pos len)) }
{
    coded_value(
        alloc,
        "SelectionOutside",
        &[("len", U32(len)), ("pos", U32(pos))],
    )
}

fn ahead_value(alloc: Global, from: u32, version: u32) -> Result<Value, AllocError>
    ensures { IfOk result (λ v. view v ≡ refusal_data (Ahead from version)) }
{
    coded_value(
        alloc,
        "Ahead",
        &[("from", U32(from)), ("version", U32(version))],
    )
}

pub(crate) fn refusal_value(alloc: Global, refusal: &Refusal) -> Result<Value, AllocError>
    ensures { IfOk result (λ v. view v ≡ refusal_data refusal.now) }
{
    match refusal {
        Refusal::LineTooLong => code_value(alloc, "LineTooLong"),
        Refusal::NotUtf8 => code_value(alloc, "NotUtf8"),
        Refusal::NotJson => code_value(alloc, "NotJson"),
        Refusal::NotCommand { field } => coded_text(alloc, "NotCommand", "field", field),
        Refusal::BadValue { field } => coded_text(alloc, "BadValue", "field", field),
        Refusal::UnknownName { name } => coded_text(alloc, "UnknownName", "name", name),
        Refusal::NameTaken { name } => coded_text(alloc, "NameTaken", "name", name),
        Refusal::NoSession => code_value(alloc, "NoSession"),
        Refusal::BadRange {
            index,
            from,
            to,
            len,
        } => bad_range_value(alloc, *index, *from, *to, *len),
        Refusal::LengthMismatch { want, have } => mismatch_value(alloc, *want, *have),
        Refusal::TooLong { len, max } => too_long_value(alloc, *len, *max),
        Refusal::NoRanges => code_value(alloc, "NoRanges"),
        Refusal::BadMain { main, count } => bad_main_value(alloc, *main, *count),
        Refusal::SelectionOutside { pos, len } => outside_value(alloc, *pos, *len),
        Refusal::UnknownEffect { id } => {
            coded_number(alloc, "UnknownEffect", "id", u64::from(*id))
        }
        Refusal::UnknownCompartment { id } => {
            coded_number(alloc, "UnknownCompartment", "id", u64::from(*id))
        }
        Refusal::Declaration(refusal) => declaration_value(alloc, refusal),
        Refusal::Extensions(refusal) => extension_value(alloc, refusal),
        Refusal::File(refusal) => file_value(alloc, refusal),
        Refusal::Window(refusal) => window_value(alloc, refusal),
        Refusal::Stale { version } => {
            coded_number(alloc, "Stale", "version", u64::from(*version))
        }
        Refusal::Ahead { from, version } => ahead_value(alloc, *from, *version),
    }
}
