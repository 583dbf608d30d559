// What filters and extenders of a kit of the shipped rules make of a draft.
ghost use Rattle.std.specs.Prelude.{⊤};
ghost use Rattle.values.specs.Shipped.{shipped};
ghost use Rattle.values.specs.Whole.{IsWhole};

use crate::drafts::{Done, Edit};
use crate::states::{Case, Rules, Want, comes};
use line_tree::MAX_LEN;
use shipped_kit::{KitUser, lend_kit};
use shipped_rules::Shipped;
use std::alloc::Global;
use std::test::*;
use values::Kit;

/// Rule numbers of change guards, transaction filters and extenders, with no `filterData`.
fn rules(guards: &'static [i64], filters: &'static [i64], extenders: &'static [i64]) -> Rules {
    Rules {
        guards,
        filters,
        extenders,
        limit: None,
        protected: &[],
    }
}

fn guards(guards: &'static [i64], protected: &'static [(i64, i64)]) -> Rules {
    Rules {
        guards,
        filters: &[],
        extenders: &[],
        limit: None,
        protected,
    }
}

fn limited(filters: &'static [i64], limit: i64) -> Rules {
    Rules {
        guards: &[],
        filters,
        extenders: &[2],
        limit: Some(limit),
        protected: &[],
    }
}

fn edits(edits: &'static [Edit]) -> Done {
    Done {
        edits,
        ranges: &[],
        places: &[],
        filter: true,
    }
}

/// Effects at places, and a given selection.
fn carried(edits: &'static [Edit], ranges: &'static [(u32, u32)], places: &'static [i64]) -> Done {
    Done {
        edits,
        ranges,
        places,
        filter: true,
    }
}

fn unfiltered(edits: &'static [Edit]) -> Done {
    Done {
        edits,
        ranges: &[],
        places: &[],
        filter: false,
    }
}

fn case(start: &'static str, done: Done, rules: Rules) -> Case {
    Case {
        start,
        max: MAX_LEN,
        kinds: true,
        done,
        rules,
    }
}

fn text(text: &'static str) -> Want {
    Want::Draft {
        text,
        range: None,
        effects: &[],
        annotations: 0,
    }
}

fn touched(text: &'static str) -> Want {
    Want::Draft {
        text,
        range: None,
        effects: &[],
        annotations: 1,
    }
}

fn noted(text: &'static str, effects: &'static [(u32, i64)]) -> Want {
    Want::Draft {
        text,
        range: None,
        effects,
        annotations: 0,
    }
}

fn selected(text: &'static str, range: (u32, u32), effects: &'static [(u32, i64)]) -> Want {
    Want::Draft {
        text,
        range: Some(range),
        effects,
        annotations: 0,
    }
}

const A: &[Edit] = &[Edit {
    from: 0,
    to: 0,
    insert: "a",
}];

const DE: &[Edit] = &[Edit {
    from: 3,
    to: 3,
    insert: "de",
}];

const D: &[Edit] = &[Edit {
    from: 3,
    to: 3,
    insert: "d",
}];

const XY: &[Edit] = &[Edit {
    from: 1,
    to: 1,
    insert: "xy",
}];

const BCD_GONE: &[Edit] = &[Edit {
    from: 1,
    to: 4,
    insert: "",
}];

const CD_AS_ZZ: &[Edit] = &[
    Edit {
        from: 2,
        to: 4,
        insert: "",
    },
    Edit {
        from: 0,
        to: 0,
        insert: "zz",
    },
];

/// Whether what is wanted comes of each case.
fn all_come(alloc: Global, kit: &Kit<Shipped>, cases: &[(Case, Want)]) -> Result<bool, Fail>
    requires { IsWhole shipped kit.now }
{
    for (case, want) in cases {
        if !comes(alloc, kit, *case, *want)? {
            return Ok(false);
        }
    }
    Ok(true)
}

/// Whether change filters decide what stays.
fn change_filters_decide(alloc: Global, kit: &Kit<Shipped>) -> Result<bool, Fail>
    requires { IsWhole shipped kit.now }
{
    let cases = [
        // a deletion of which the first character is protected
        (
            case("abcdef", edits(BCD_GONE), guards(&[3], &[(0, 2)])),
            text("abef"),
        ),
        (
            case(
                "abcdef",
                edits(BCD_GONE),
                guards(&[1, 3], &[(0, 2), (3, 4)]),
            ),
            text("abdef"),
        ),
        (
            case("abcdef", edits(BCD_GONE), guards(&[3, 2], &[(0, 2)])),
            text("abcdef"),
        ),
        (
            case("abcdef", edits(BCD_GONE), guards(&[2, 1], &[])),
            text("abcdef"),
        ),
        (
            case("abcdef", unfiltered(BCD_GONE), guards(&[2], &[])),
            text("aef"),
        ),
        // the selection and the effects go back over what is dropped, one of them inside it
        (
            case("abc", carried(XY, &[(3, 4)], &[2, 3]), guards(&[2], &[])),
            selected("abc", (1, 2), &[(1, 1)]),
        ),
        (
            case("abc", carried(XY, &[(3, 4)], &[2, 3]), guards(&[1], &[])),
            selected("axybc", (3, 4), &[(1, 2), (1, 3)]),
        ),
        // nothing is dropped, and effects are mapped all the same
        (
            case("abc", carried(&[], &[], &[2, 99]), guards(&[3], &[])),
            noted("abc", &[(1, 2)]),
        ),
        (
            case("abc", carried(&[], &[], &[2, 99]), guards(&[1], &[])),
            noted("abc", &[(1, 2), (1, 99)]),
        ),
    ];
    all_come(alloc, kit, &cases)
}

/// Whether transaction filters are asked from the lowest precedence.
fn filters_are_asked_in_order(alloc: Global, kit: &Kit<Shipped>) -> Result<bool, Fail>
    requires { IsWhole shipped kit.now }
{
    let cases = [
        (
            case("", edits(A), rules(&[], &[3], &[3])),
            noted("a\n", &[(0, 0)]),
        ),
        (
            case("", unfiltered(A), rules(&[], &[3], &[3])),
            noted("a", &[(0, 0)]),
        ),
        (case("abc", edits(DE), limited(&[4], 4)), text("abc")),
        (case("abc", edits(D), limited(&[4], 4)), touched("abcd")),
        // the line end makes it too long only where it was added before
        (case("abc", edits(D), limited(&[4, 3], 4)), text("abc")),
        (
            case("abc", edits(D), limited(&[3, 4], 4)),
            touched("abcd\n"),
        ),
        (
            case("abc", edits(D), limited(&[3, 3], 9)),
            touched("abcd\n\n"),
        ),
        (
            case("abc", edits(D), rules(&[], &[1, 2], &[3, 3])),
            noted("abc", &[(0, 3), (0, 3)]),
        ),
    ];
    all_come(alloc, kit, &cases)
}

/// Whether what rules answer is refused where it is too long or names an unknown effect.
fn answers_are_refused(alloc: Global, kit: &Kit<Shipped>) -> Result<bool, Fail>
    requires { IsWhole shipped kit.now }
{
    let cases = [
        // what stays of the changes leads to a longer document
        (
            Case {
                start: "abcd",
                max: 4,
                kinds: true,
                done: edits(CD_AS_ZZ),
                rules: guards(&[3], &[(2, 4)]),
            },
            Want::TooLong(6, 4),
        ),
        // the line end is one character too many
        (
            Case {
                start: "abc",
                max: 4,
                kinds: true,
                done: edits(D),
                rules: rules(&[], &[3], &[]),
            },
            Want::TooLong(5, 4),
        ),
        (
            Case {
                start: "abc",
                max: 4,
                kinds: false,
                done: edits(D),
                rules: rules(&[], &[], &[2, 3]),
            },
            Want::UnknownEffect(0),
        ),
    ];
    all_come(alloc, kit, &cases)
}

/// Whether each table of cases comes of a kit.
#[derive(Drop)]
struct TablesCome;

impl KitUser for TablesCome {
    type Answer = Result<bool, Fail>;

    ghost gives = { λ before answer after. ⊤ };

    fn use_kit(&mut self, alloc: Global, kit: &Kit<Shipped>) -> Result<bool, Fail> {
        Ok(
            change_filters_decide(alloc, kit)?
                && filters_are_asked_in_order(alloc, kit)?
                && answers_are_refused(alloc, kit)?,
        )
    }
}

#[test]
fn a_whole_kit_is_asked(rt: HostRuntime) -> Result<(), Fail> {
    let come = lend_kit(rt.alloc(), &mut TablesCome)?;
    assert!(rt; come?);
    Ok(())
}
