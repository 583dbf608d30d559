ghost use Rattle.std.specs.Prelude.{◌≡◌, ◌<◌, ◌≤◌, length};
ghost use Rattle.selection.specs.Selections.{LieIn};
ghost use Rattle.screen.specs.Head.{ShowsHead};
ghost use Rattle.screen.specs.Screen.{shown_view};

use cm_plain::Str;
use decoration::{Color, Deco, DecoSet, Inclusive, Layers, Style};
use line_rows::{Block, Blocks, Run, runs_of};
use line_tree::{Text, cut_len};
use range_set::{RangeSet, Ranged};
use screen::{Screen, View, reveal, shown_rows};
use selection::{Selection, first_outside};
use std::alloc::{AllocError, Global};
use std::marker::Brand;
use std::sync::ledger::{Blank, Ledger};
use std::test::*;
use steps::Steps;
use term_bytes::frame;
use viewport::Viewport;

/// What a decoration of a case does.
#[derive(Clone, Copy)]
pub(crate) enum Kind {
    Mark,
    Widget(i32),
    Replace,
    Line,
}

/// A decoration of a case: its kind, its range, its text and its style.
pub(crate) type Given = (Kind, u32, u32, &'static str, Style);

/// A case: a document, the decorations of its layers, the anchor and the head of its selection, and the rows and columns
/// of its window.
#[derive(Clone, Copy, Drop)]
pub(crate) struct Case<'a> {
    pub(crate) doc: &'a str,
    pub(crate) layers: &'a [&'a [Given]],
    pub(crate) selection: (u32, u32),
    pub(crate) size: (u32, u32),
}

const NEITHER: Inclusive = Inclusive {
    start: false,
    end: false,
};

pub(crate) fn plain() -> Style {
    Style::plain()
}

pub(crate) fn fg(color: Color) -> Style {
    Style {
        fg: Some(color),
        ..Style::plain()
    }
}

pub(crate) fn bold() -> Style {
    Style {
        bold: true,
        ..Style::plain()
    }
}

fn deco(alloc: Global, kind: Kind, text: &str, style: Style) -> Result<Deco, Fail> {
    let text = Str::of_text(alloc, text)?;
    match kind {
        Kind::Mark => Ok(Deco::mark(style, NEITHER)),
        Kind::Widget(side) => Ok(Deco::widget(alloc, text, style, side)?),
        Kind::Replace => Ok(Deco::replace(alloc, text, style, NEITHER)?),
        Kind::Line => Ok(Deco::line(style)),
    }
}

fn ranges_of(alloc: Global, given: &[Given]) -> Result<Vec<Ranged<Deco>>, Fail> {
    let mut ranges = Vec::new(alloc);
    for (kind, from, to, text, style) in given {
        let value = deco(alloc, *kind, text, *style)?;
        ranges.push(Ranged {
            from: *from,
            to: *to,
            value,
        })?;
    }
    Ok(ranges)
}

fn set_of(alloc: Global, given: &[Given]) -> Result<DecoSet, Fail> {
    let ranges = ranges_of(alloc, given)?;
    Ok(RangeSet::of(ranges).ok().ok_or("a set")?)
}

fn layers_of(alloc: Global, given: &[&[Given]]) -> Result<Layers, Fail> {
    let mut sets = Vec::new(alloc);
    for set in given {
        sets.push(set_of(alloc, set)?)?;
    }
    Ok(Layers::of(sets))
}

fn document(alloc: Global, text: &str) -> Result<Text, Fail> {
    let characters: Vec<char> = text.chars().collect(alloc)?;
    if cut_len(characters.as_slice()) > 1000 {
        return Err("a short text".into());
    }
    Ok(Text::of(alloc, characters.as_slice())?)
}

/// The runs of a screen's rows.
fn runs_of_rows(alloc: Global, screen: &Screen) -> Result<Vec<Vec<Run>>, AllocError> {
    let mut rows = Vec::new(alloc);
    for row in screen.rows() {
        rows.push(runs_of(alloc, row.cells())?)?;
    }
    Ok(rows)
}

/// A screen on which a view is drawn twice.
fn drawn<L: Ledger>(alloc: Global, view: &View<'_>, blank: Blank) -> Result<Screen, AllocError>
    requires name { blank.name ≡ L.name }
    requires parts { blank.parts ≡ L.parts }
    requires some { 0 < blank.parts }
    requires positive { 0 < (shown_view view.now).tab }
    requires small { (shown_view view.now).tab ≤ 16 }
    requires inside { LieIn (length (shown_view view.now).text) (shown_view view.now).selection.ranges }
    requires shows { ShowsHead (shown_view view.now) }
{
    let mut laid: Steps<L> = Steps::new(blank);
    let mut screen = Screen::blank(alloc);
    screen.draw(view, &mut laid)?;
    screen.draw(view, &mut laid)?;
    Ok(screen)
}

/// The screen that shows a document, once the window shows the selection's head, and how many of its rows show a block.
fn screen_of(
    alloc: Global,
    doc: &Text,
    layers: &Layers,
    selection: &Selection,
    window: &Viewport,
) -> Result<(Screen, u32), AllocError>
    requires { LieIn (length doc.now.characters) selection.now.ranges }
{
    let view = View {
        doc,
        selection,
        layers,
        tab: 4,
        window,
    };
    let window = reveal(alloc, &view)?;
    let view = View {
        doc,
        selection,
        layers,
        tab: 4,
        window: &window,
    };
    let rows = shown_rows(alloc, &view)?;
    let screen = drawn::<Brand>(alloc, &view, Blank::new(1))?;
    Ok((screen, rows))
}

/// The screen that shows a case, and how many of its rows show a block.
pub(crate) fn screen_and_rows(alloc: Global, case: &Case<'_>) -> Result<(Screen, u32), Fail> {
    let doc = document(alloc, case.doc)?;
    let layers = layers_of(alloc, case.layers)?;
    let selection = Selection::single(alloc, case.selection.0, case.selection.1)?;
    let window = Viewport::new(case.size.0, case.size.1)
        .ok()
        .ok_or("a size")?;
    if first_outside(selection.ranges(), doc.len()).is_some() {
        return Err("a selection of the document".into());
    }
    Ok(screen_of(alloc, &doc, &layers, &selection, &window)?)
}

/// The frame of a screen.
fn frame_of(alloc: Global, screen: &Screen) -> Result<String, AllocError> {
    let rows = runs_of_rows(alloc, screen)?;
    frame(alloc, rows.as_slice(), screen.cursor())
}

/// Whether the case's frame is this one, where `^` stands for ESC and `[`.
fn shows(alloc: Global, case: &Case<'_>, want: &str) -> Result<bool, Fail> {
    let (screen, _) = screen_and_rows(alloc, case)?;
    let frame = frame_of(alloc, &screen)?;
    let want = want.replace(alloc, "^", "\x1b[")?;
    Ok(frame.as_str() == want.as_str())
}

#[test]
fn a_wide_character_at_the_edge_shows_a_blank(rt: HostRuntime) -> Result<(), Fail> {
    let cases = [(5, "^H^1;1Ha^K^1;1H"), (6, "^H^1;1Ha   漢^K^1;1H")];
    for (cols, want) in cases {
        let case = Case {
            doc: "a\t漢",
            layers: &[],
            selection: (0, 0),
            size: (1, cols),
        };
        assert!(rt; shows(rt.alloc(), &case, want)?);
    }
    Ok(())
}

#[test]
fn a_window_shows_a_part_of_a_line(rt: HostRuntime) -> Result<(), Fail> {
    let cases = [
        ("a\t漢b", 4, 3, "^H^1;1H b^K^1;3H"),
        (
            "e\u{301}\u{301}\u{301}\u{301}\u{301}xyz",
            0,
            2,
            "^H^1;1He\u{301}\u{301}\u{301}\u{301}\u{301}x^K^1;1H",
        ),
        ("abcdefghij", 6, 3, "^H^1;1Hefg^K^1;3H"),
    ];
    for (doc, head, cols, want) in cases {
        let case = Case {
            doc,
            layers: &[],
            selection: (head, head),
            size: (1, cols),
        };
        assert!(rt; shows(rt.alloc(), &case, want)?);
    }
    Ok(())
}

#[test]
fn what_follows_a_long_fold_is_shown(rt: HostRuntime) -> Result<(), Fail> {
    let fold = [(Kind::Replace, 1, 25, "+", bold())];
    let case = Case {
        doc: "a------------------------bcdef",
        layers: &[&fold],
        selection: (0, 0),
        size: (1, 4),
    };
    assert!(rt; shows(rt.alloc(), &case, "^H^1;1Ha^0;1m+^0mbc^K^1;1H")?);
    Ok(())
}

#[test]
fn a_short_line_is_followed_by_the_cursor(rt: HostRuntime) -> Result<(), Fail> {
    let cases = [
        ("", 0, "^H^1;1H^K^1;1H"),
        ("h", 1, "^H^1;1Hh^K^1;2H"),
        ("hi", 2, "^H^1;1Hhi^K^1;3H"),
    ];
    for (doc, head, want) in cases {
        let case = Case {
            doc,
            layers: &[],
            selection: (head, head),
            size: (1, 5),
        };
        assert!(rt; shows(rt.alloc(), &case, want)?);
    }
    Ok(())
}

#[test]
fn a_mark_of_a_higher_layer_is_inner(rt: HostRuntime) -> Result<(), Fail> {
    let upper = [(Kind::Mark, 0, 2, "", fg(Color::Red))];
    // Five marks are more than are gone through for each cluster.
    let lower = [
        (Kind::Mark, 0, 1, "", plain()),
        (Kind::Mark, 1, 3, "", fg(Color::Green)),
        (Kind::Mark, 1, 3, "", bold()),
        (Kind::Mark, 2, 3, "", plain()),
    ];
    let case = Case {
        doc: "abc",
        layers: &[&upper, &lower],
        selection: (0, 0),
        size: (1, 3),
    };
    assert!(rt;
        shows(
            rt.alloc(),
            &case,
            "^H^1;1H^0;31ma^0;1;31mb^0;1;32mc^0m^K^1;1H"
        )?
    );
    Ok(())
}

#[test]
fn replaced_breaks_join_lines(rt: HostRuntime) -> Result<(), Fail> {
    let cases = [
        (0, "^H^1;1Ha+d^K^2;1Hef^K^3;1H^K^1;1H"),
        (3, "^H^1;1Ha+d^K^2;1Hef^K^3;1H^K^1;3H"),
        (6, "^H^1;1Ha+d^K^2;1Hef^K^3;1H^K^2;1H"),
    ];
    let joined = [(Kind::Replace, 1, 4, "+", plain())];
    for (head, want) in cases {
        let case = Case {
            doc: "ab\ncd\nef",
            layers: &[&joined],
            selection: (head, head),
            size: (3, 5),
        };
        assert!(rt; shows(rt.alloc(), &case, want)?);
    }
    Ok(())
}

/// The blocks in which two places of a document stand, under these layers.
fn blocks_at(
    alloc: Global,
    text: &str,
    layers: &[&[Given]],
    places: (u32, u32),
) -> Result<(Block, Block), Fail> {
    let doc = document(alloc, text)?;
    let layers = layers_of(alloc, layers)?;
    let blocks = Blocks::of(alloc, &doc, &layers)?;
    if places.0 > doc.len() || places.1 > doc.len() {
        return Err("places of the document".into());
    }
    Ok((blocks.at(places.0), blocks.at(places.1)))
}

#[test]
fn a_block_knows_its_first_and_last_line(rt: HostRuntime) -> Result<(), Fail> {
    let joined = [(Kind::Replace, 1, 4, "+", plain())];
    let (block, last) = blocks_at(rt.alloc(), "ab\ncd\nef", &[&joined], (3, 6))?;
    assert!(rt; block.number == 1 && block.first == 1 && block.last == 2);
    assert!(rt; block.from == 0 && block.to == 5);
    assert!(rt; last.number == 2 && last.first == 3 && last.last == 3);
    assert!(rt; last.from == 6 && last.to == 8);
    Ok(())
}

#[test]
fn pieces_stand_in_order(rt: HostRuntime) -> Result<(), Fail> {
    let items = [
        (Kind::Line, 0, 0, "", bold()),
        (Kind::Widget(0), 1, 1, "<", plain()),
        (Kind::Widget(5), 1, 1, ">", plain()),
        (Kind::Replace, 1, 3, "=", plain()),
        (Kind::Widget(0), 2, 2, "hidden", plain()),
    ];
    let case = Case {
        doc: "abcd",
        layers: &[&items],
        selection: (1, 1),
        size: (1, 9),
    };
    assert!(rt; shows(rt.alloc(), &case, "^H^1;1H^0;1ma<>=d    ^0m^K^1;3H")?);
    Ok(())
}

#[test]
fn a_selection_is_reversed_and_shown(rt: HostRuntime) -> Result<(), Fail> {
    let case = Case {
        doc: "abcdefgh",
        layers: &[],
        selection: (5, 7),
        size: (1, 4),
    };
    assert!(rt; shows(rt.alloc(), &case, "^H^1;1He^0;7mfg^0mh^K^1;4H")?);
    Ok(())
}
