ghost use Rattle.std.specs.Prelude.{◌≡◌, IfOk};
ghost use Rattle.serde_json.specs.View.{view};
ghost use Rattle.script.specs.declared.declaration_refusal.DeclarationRefusal.TheVariants.{BadInverse, BadSide, UnknownRule};
ghost use Rattle.replies.specs.Refusals.{declaration_data};

use crate::coded::{code_value, coded_number, coded_text, coded_value};
use crate::scalar::Scalar::{I32, Text, U32};
use cm_plain::Str;
use script::DeclarationRefusal;
use serde_json::Value;
use std::alloc::{AllocError, Global};

fn bad_side_value(alloc: Global, side: i32) -> Result<Value, AllocError>
    ensures { IfOk result (λ v. view v ≡ declaration_data (BadSide side)) }
{
    coded_value(alloc, "BadSide", &[("side", I32(side))])
}

fn unknown_rule_value(alloc: Global, sort: &Str, number: u32) -> Result<Value, AllocError>
    ensures { IfOk result (λ v. view v ≡ declaration_data (UnknownRule sort.now number)) }
{
    coded_value(
        alloc,
        "UnknownRule",
        &[("number", U32(number)), ("sort", Text(sort))],
    )
}

fn bad_inverse_value<'a>(alloc: Global, effect: &'a Str, back: &'a Str) -> Result<Value, AllocError>
    ensures { IfOk result (λ v. view v ≡ declaration_data (BadInverse effect.now back.now)) }
{
    coded_value(
        alloc,
        "BadInverse",
        &[("back", Text(back)), ("effect", Text(effect))],
    )
}

pub(crate) fn declaration_value(
    alloc: Global,
    refusal: &DeclarationRefusal,
) -> Result<Value, AllocError>
    ensures { IfOk result (λ v. view v ≡ declaration_data refusal.now) }
{
    match refusal {
        DeclarationRefusal::Reversed { index } => {
            coded_number(alloc, "Reversed", "index", *index as u64)
        }
        DeclarationRefusal::NotSorted { index } => {
            coded_number(alloc, "NotSorted", "index", *index as u64)
        }
        DeclarationRefusal::EmptyMark => code_value(alloc, "EmptyMark"),
        DeclarationRefusal::NotEmpty => code_value(alloc, "NotEmpty"),
        DeclarationRefusal::BadReplace => code_value(alloc, "BadReplace"),
        DeclarationRefusal::BadSide { side } => bad_side_value(alloc, *side),
        DeclarationRefusal::NotLineStart { pos } => {
            coded_number(alloc, "NotLineStart", "pos", u64::from(*pos))
        }
        DeclarationRefusal::UnknownRule { sort, number } => {
            unknown_rule_value(alloc, sort, *number)
        }
        DeclarationRefusal::StaticFacet { facet } => {
            coded_text(alloc, "StaticFacet", "facet", facet)
        }
        DeclarationRefusal::WrongShape { id } => coded_text(alloc, "WrongShape", "id", id),
        DeclarationRefusal::BadInverse { effect, back } => bad_inverse_value(alloc, effect, back),
        DeclarationRefusal::InverseTaken { effect } => {
            coded_text(alloc, "InverseTaken", "effect", effect)
        }
        DeclarationRefusal::TooMany { kind } => coded_text(alloc, "TooMany", "kind", kind),
    }
}
