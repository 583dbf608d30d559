// Decorations that are read.
use crate::reading::{declaration, is};
use decoration::{Color, Kind, Style};
use requests::{Declaration, Written, WrittenDeco};
use std::alloc::{AllocError, Global};
use std::test::Fail;

fn only_range(value: Written) -> Option<WrittenDeco> {
    match value {
        Written::Ranges(ranges) => ranges.into_vec().into_iter().next(),
        Written::Plain(_) => None,
    }
}

/// The only decoration of the value of an input that a line declares.
fn decoration_of(alloc: Global, line: &str) -> Option<WrittenDeco> {
    match declaration(alloc, line)? {
        Declaration::Input(input) => only_range(input.value),
        _ => None,
    }
}

/// The only decoration of an input's value.
fn decoration(alloc: Global, deco: &str) -> Result<Option<WrittenDeco>, AllocError> {
    let line = format!(in alloc;
        "{{\"input\":{{\"name\":\"n\",\"facet\":\"f\",\"value\":{{\"ranges\":[{deco}]}}}}}}"
    )?;
    Ok(decoration_of(alloc, line.as_str()))
}

/// A decoration as it is written, its kind, its places, its text and its side.
#[derive(Clone, Copy)]
struct At<'a> {
    deco: &'a str,
    kind: Kind,
    places: (u32, u32),
    text: &'a str,
    side: i32,
}

fn is_as(deco: &WrittenDeco, at: &At<'_>) -> Result<bool, AllocError> {
    Ok(
        deco.kind == at.kind
            && (deco.from, deco.to) == at.places
            && deco.side == at.side
            && is(&deco.text, at.text)?,
    )
}

fn is_at(alloc: Global, at: &At<'_>) -> Result<bool, AllocError> {
    match decoration(alloc, at.deco)? {
        Some(deco) => is_as(&deco, at),
        None => Ok(false),
    }
}

const DEFAULTS: &[At<'static>] = &[
    At {
        deco: "{\"kind\":\"line\",\"from\":3}",
        kind: Kind::Line,
        places: (3, 3),
        text: "",
        side: 0,
    },
    At {
        deco: "{\"kind\":\"mark\",\"from\":3,\"to\":1}",
        kind: Kind::Mark,
        places: (3, 1),
        text: "",
        side: 0,
    },
    At {
        deco: "{\"kind\":\"widget\",\"from\":3,\"text\":\"+\",\"side\":-10001}",
        kind: Kind::Widget,
        places: (3, 3),
        text: "+",
        side: -10001,
    },
    At {
        deco: "{\"kind\":\"replace\",\"from\":3,\"to\":9,\"text\":\"..\"}",
        kind: Kind::Replace,
        places: (3, 9),
        text: "..",
        side: 0,
    },
];

/// The place of the first decoration that is read otherwise.
fn first_other(alloc: Global, all: &[At<'_>]) -> Result<usize, AllocError> {
    for i in 0..all.len() {
        if !is_at(alloc, &all[i])? {
            return Ok(i);
        }
    }
    Ok(all.len())
}

#[test]
fn decorations_have_defaults(rt: HostRuntime) -> Result<(), Fail> {
    assert!(rt; first_other(rt.alloc(), DEFAULTS)? == DEFAULTS.len());
    Ok(())
}

/// Whether a decoration has this style and these inclusive ends.
fn has_style(deco: &WrittenDeco, style: &Style, inclusive: (bool, bool)) -> bool {
    deco.style.same(style) && (deco.inclusive.start, deco.inclusive.end) == inclusive
}

/// Whether a mark has this style and these inclusive ends.
fn is_marked(
    alloc: Global,
    members: &str,
    style: &Style,
    inclusive: (bool, bool),
) -> Result<bool, AllocError> {
    let deco = format!(in alloc; "{{\"kind\":\"mark\",\"from\":0,\"to\":1{members}}}")?;
    match decoration(alloc, deco.as_str())? {
        Some(deco) => Ok(has_style(&deco, style, inclusive)),
        None => Ok(false),
    }
}

#[test]
fn plain_styles_are_read(rt: HostRuntime) -> Result<(), Fail> {
    assert!(rt; is_marked(rt.alloc(), "", &Style::plain(), (false, false))?);
    Ok(())
}

const COLORED: &str =
    ",\"style\":{\"fg\":1,\"bg\":7,\"bold\":true,\"reverse\":true},\"inclusiveEnd\":true";

#[test]
fn colored_styles_are_read(rt: HostRuntime) -> Result<(), Fail> {
    let style = Style {
        fg: Some(Color::Red),
        bg: Some(Color::White),
        bold: true,
        underline: false,
        reverse: true,
    };
    assert!(rt; is_marked(rt.alloc(), COLORED, &style, (false, true))?);
    Ok(())
}

const UNDERLINED: &str = ",\"style\":{\"bg\":0,\"underline\":true},\"inclusiveStart\":true";

#[test]
fn underlined_styles_are_read(rt: HostRuntime) -> Result<(), Fail> {
    let style = Style {
        fg: None,
        bg: Some(Color::Black),
        bold: false,
        underline: true,
        reverse: false,
    };
    assert!(rt; is_marked(rt.alloc(), UNDERLINED, &style, (true, false))?);
    Ok(())
}
