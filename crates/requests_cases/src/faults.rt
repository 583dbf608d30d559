// Lines that are refused.
use crate::reading::is;
use requests::Request;
use script::{LineError, Refusal, line_command};
use std::alloc::{AllocError, Global};
use std::test::Fail;

/// The refusal of a line, if it is refused.
fn refusal(alloc: Global, line: &str) -> Option<Refusal> {
    match line_command::<Request>(alloc, line.as_bytes()).err()? {
        LineError::Refused(refusal) => Some(refusal),
        _ => None,
    }
}

/// Whether a line is refused for this member.
fn is_bad(alloc: Global, line: &str, want: &str) -> Result<bool, AllocError> {
    match refusal(alloc, line) {
        Some(Refusal::BadValue { field }) => is(&field, want),
        _ => Ok(false),
    }
}

/// Whether a line of a part between two others is refused for this member.
fn is_bad_in(
    alloc: Global,
    around: (&str, &str),
    part: &str,
    want: &str,
) -> Result<bool, AllocError> {
    let (before, after) = around;
    let line = format!(in alloc; "{before}{part}{after}")?;
    is_bad(alloc, line.as_str(), want)
}

/// The place of the first line that isn't refused for its member; each line is a part between the same two others.
fn first_accepted(
    alloc: Global,
    around: (&str, &str),
    cases: &[(&str, &str)],
) -> Result<usize, AllocError> {
    for i in 0..cases.len() {
        let (part, field) = cases[i];
        if !is_bad_in(alloc, around, part, field)? {
            return Ok(i);
        }
    }
    Ok(cases.len())
}

/// What stands around a whole line.
const NOTHING: (&str, &str) = ("", "");
/// What stands around the value of an input.
const INPUT: (&str, &str) = (
    "{\"input\":{\"name\":\"n\",\"facet\":\"f\",\"value\":",
    "}}",
);
/// What stands around the only effect of an update.
const UPDATE: (&str, &str) = ("{\"update\":[{\"effects\":[", "]}]}");
/// What stands around the argument of a command of the editor.
const DO: (&str, &str) = ("{\"do\":", "}");

/// Whether a line is refused since there is no command of this name.
fn is_no_command(alloc: Global, line: &str, want: &str) -> Result<bool, AllocError> {
    match refusal(alloc, line) {
        Some(Refusal::NotCommand { field }) => is(&field, want),
        _ => Ok(false),
    }
}

/// The place of the first line that isn't refused since there is no command of its name.
fn first_command(alloc: Global, cases: &[(&str, &str)]) -> Result<usize, AllocError> {
    for i in 0..cases.len() {
        let (line, field) = cases[i];
        if !is_no_command(alloc, line, field)? {
            return Ok(i);
        }
    }
    Ok(cases.len())
}

const NO_COMMANDS: &[(&str, &str)] = &[
    ("[]", ""),
    ("{}", ""),
    ("{\"txt\":{}}", "txt"),
    ("{\"text\":{},\"view\":{}}", ""),
    ("{\"begin\":{}}", "begin"),
];

#[test]
fn other_commands_are_none(rt: HostRuntime) -> Result<(), Fail> {
    assert!(rt; first_command(rt.alloc(), NO_COMMANDS)? == NO_COMMANDS.len());
    Ok(())
}

const COMMANDS: &[&str] = &[
    "effect",
    "inverse",
    "facet",
    "field",
    "compartment",
    "input",
    "compute",
    "from",
    "init",
    "group",
    "prec",
    "slot",
    "start",
    "open",
    "save",
    "do",
    "text",
    "selection",
    "get",
    "map",
    "view",
    "screen",
    "summary",
];

/// Whether a command is refused whose argument is of a wrong kind.
fn is_bad_argument(alloc: Global, command: &str) -> Result<bool, AllocError> {
    is_bad_in(alloc, ("{\"", "\":[]}"), command, command)
}

/// The place of the first command that isn't.
fn first_good_argument(alloc: Global, commands: &[&str]) -> Result<usize, AllocError> {
    for i in 0..commands.len() {
        if !is_bad_argument(alloc, commands[i])? {
            return Ok(i);
        }
    }
    Ok(commands.len())
}

#[test]
fn arguments_of_a_wrong_kind_name_their_command(rt: HostRuntime) -> Result<(), Fail> {
    assert!(rt; first_good_argument(rt.alloc(), COMMANDS)? == COMMANDS.len());
    Ok(())
}

const OF_KINDS_AND_FACETS: &[(&str, &str)] = &[
    ("{\"effect\":{}}", "name"),
    ("{\"effect\":{\"a\":1,\"name\":7}}", "name"),
    ("{\"effect\":{\"name\":\"e\",\"map\":null}}", "map"),
    ("{\"effect\":{\"name\":\"e\",\"map\":-1}}", "map"),
    ("{\"effect\":{\"name\":\"e\",\"rule\":1}}", "rule"),
    ("{\"inverse\":{\"back\":1}}", "effect"),
    ("{\"inverse\":{\"effect\":\"a\"}}", "back"),
    ("{\"facet\":{\"name\":\"f\"}}", "combine"),
    (
        "{\"facet\":{\"name\":\"f\",\"combine\":4294967296}}",
        "combine",
    ),
    (
        "{\"facet\":{\"name\":\"f\",\"combine\":1,\"enables\":1,\"static\":1}}",
        "static",
    ),
    (
        "{\"facet\":{\"name\":\"f\",\"combine\":1,\"enables\":[1]}}",
        "enables",
    ),
    (
        "{\"facet\":{\"name\":\"f\",\"combine\":1,\"compareInput\":true}}",
        "compareInput",
    ),
    ("{\"compartment\":{\"name\":\"c\",\"b\":1,\"a\":1}}", "a"),
];

#[test]
fn fields_of_kinds_and_facets_are_looked_at_in_order(rt: HostRuntime) -> Result<(), Fail> {
    assert!(rt;
        first_accepted(rt.alloc(), NOTHING, OF_KINDS_AND_FACETS)? == OF_KINDS_AND_FACETS.len()
    );
    Ok(())
}

const OF_FIELDS_AND_NODES: &[(&str, &str)] = &[
    ("{\"field\":{\"name\":\"n\",\"create\":1}}", "update"),
    (
        "{\"field\":{\"name\":\"n\",\"create\":1,\"update\":1,\"reads\":\"doc\"}}",
        "reads",
    ),
    (
        "{\"field\":{\"name\":\"n\",\"create\":1,\"update\":1,\"listens\":[[]]}}",
        "listens",
    ),
    (
        "{\"field\":{\"name\":\"n\",\"create\":1,\"update\":1,\"provides\":[1]}}",
        "provides",
    ),
    (
        "{\"field\":{\"name\":\"n\",\"create\":1,\"update\":1,\"provides\":[{}]}}",
        "facet",
    ),
    (
        "{\"field\":{\"name\":\"n\",\"create\":1,\"update\":1,\"provides\":[{\"facet\":\"f\",\"rule\":\"4\"}]}}",
        "rule",
    ),
    (
        "{\"compute\":{\"name\":\"n\",\"facet\":\"f\",\"rule\":1}}",
        "deps",
    ),
    (
        "{\"compute\":{\"name\":\"n\",\"facet\":\"f\",\"rule\":1,\"deps\":[],\"many\":0}}",
        "many",
    ),
    ("{\"from\":{\"name\":\"n\",\"facet\":\"f\"}}", "field"),
    ("{\"group\":{\"name\":\"n\",\"of\":\"a\"}}", "of"),
    (
        "{\"prec\":{\"name\":\"n\",\"at\":\"middle\",\"of\":1}}",
        "at",
    ),
    ("{\"prec\":{\"name\":\"n\",\"at\":\"low\"}}", "of"),
    ("{\"slot\":{\"name\":\"n\",\"of\":\"a\"}}", "compartment"),
];

#[test]
fn fields_of_fields_and_nodes_are_looked_at_in_order(rt: HostRuntime) -> Result<(), Fail> {
    assert!(rt;
        first_accepted(rt.alloc(), NOTHING, OF_FIELDS_AND_NODES)? == OF_FIELDS_AND_NODES.len()
    );
    Ok(())
}

const OF_VALUES: &[(&str, &str)] = &[
    ("1.5", "value"),
    ("[{}]", "value"),
    ("[[[[[[[[[[[[[[[[[]]]]]]]]]]]]]]]]]", "value"),
    ("{}", "ranges"),
    ("{\"ranges\":1}", "ranges"),
    ("{\"ranges\":[1]}", "ranges"),
    ("{\"ranges\":[],\"a\":1}", "a"),
    ("{\"ranges\":[{\"from\":1}]}", "kind"),
    ("{\"ranges\":[{\"kind\":\"block\"}]}", "kind"),
    ("{\"ranges\":[{\"kind\":\"mark\"}]}", "from"),
    (
        "{\"ranges\":[{\"kind\":\"mark\",\"from\":1,\"to\":null}]}",
        "to",
    ),
    (
        "{\"ranges\":[{\"kind\":\"line\",\"from\":1,\"side\":2147483648}]}",
        "side",
    ),
    (
        "{\"ranges\":[{\"kind\":\"line\",\"from\":1,\"style\":null}]}",
        "style",
    ),
    (
        "{\"ranges\":[{\"kind\":\"line\",\"from\":1,\"style\":{\"fg\":8}}]}",
        "fg",
    ),
    (
        "{\"ranges\":[{\"kind\":\"line\",\"from\":1,\"style\":{\"color\":1}}]}",
        "color",
    ),
    (
        "{\"ranges\":[{\"kind\":\"line\",\"from\":1,\"inclusiveEnd\":1,\"block\":1}]}",
        "inclusiveEnd",
    ),
    (
        "{\"ranges\":[{\"kind\":\"line\",\"from\":1,\"block\":1}]}",
        "block",
    ),
];

#[test]
fn fields_of_values_are_looked_at_in_order(rt: HostRuntime) -> Result<(), Fail> {
    assert!(rt; first_accepted(rt.alloc(), INPUT, OF_VALUES)? == OF_VALUES.len());
    Ok(())
}

const OF_EFFECTS: &[(&str, &str)] = &[
    ("1", "effects"),
    ("{}", "effect"),
    ("{\"value\":1}", "effect"),
    ("{\"effect\":\"e\"}", "value"),
    ("{\"effect\":\"e\",\"value\":{}}", "value"),
    ("{\"effect\":\"e\",\"value\":1,\"append\":\"n\"}", "append"),
    ("{\"append\":\"n\",\"reconfigure\":1}", "reconfigure"),
    ("{\"reconfigure\":{\"to\":\"n\"}}", "compartment"),
    (
        "{\"reconfigure\":{\"compartment\":\"c\",\"to\":\"n\",\"value\":1}}",
        "value",
    ),
    ("{\"root\":\"n\"}", "root"),
    ("{\"root\":[],\"append\":\"n\"}", "append"),
    ("{\"append\":[]}", "append"),
    ("{\"append\":\"n\",\"value\":1}", "value"),
];

#[test]
fn fields_of_effects_are_looked_at_in_order(rt: HostRuntime) -> Result<(), Fail> {
    assert!(rt; first_accepted(rt.alloc(), UPDATE, OF_EFFECTS)? == OF_EFFECTS.len());
    Ok(())
}

const OF_STATES_AND_SPECS: &[(&str, &str)] = &[
    ("{\"start\":{\"extensions\":1,\"main\":-1}}", "main"),
    ("{\"start\":{\"extensions\":1}}", "extensions"),
    ("{\"start\":{\"extensions\":[],\"file\":1}}", "file"),
    ("{\"update\":{}}", "update"),
    ("{\"update\":[7]}", "update"),
    (
        "{\"update\":[{\"effects\":1,\"annotations\":1}]}",
        "effects",
    ),
    ("{\"update\":[{\"effects\":1,\"main\":\"0\"}]}", "main"),
    ("{\"update\":[{\"chnges\":[]}]}", "chnges"),
    ("{\"get\":{}}", "name"),
    ("{\"get\":{\"name\":\"f\",\"of\":1}}", "of"),
    ("{\"text\":{\"name\":1}}", "name"),
];

#[test]
fn fields_of_states_and_specs_are_looked_at_in_order(rt: HostRuntime) -> Result<(), Fail> {
    assert!(rt;
        first_accepted(rt.alloc(), NOTHING, OF_STATES_AND_SPECS)? == OF_STATES_AND_SPECS.len()
    );
    Ok(())
}

const OF_FILES_AND_WINDOWS: &[(&str, &str)] = &[
    ("{\"open\":{\"extensions\":1}}", "file"),
    ("{\"open\":{\"file\":\"f\",\"extensions\":1}}", "extensions"),
    ("{\"open\":{\"file\":\"f\",\"doc\":\"\"}}", "doc"),
    ("{\"save\":{}}", "file"),
    ("{\"save\":{\"file\":\"f\",\"name\":1}}", "name"),
    ("{\"view\":{\"cols\":1}}", "rows"),
    ("{\"view\":{\"rows\":1}}", "cols"),
    ("{\"view\":{\"rows\":1,\"cols\":4294967296}}", "cols"),
    ("{\"view\":{\"rows\":1,\"cols\":1,\"top\":1}}", "top"),
    ("{\"screen\":{\"rows\":1}}", "rows"),
    ("{\"summary\":{\"text\":1}}", "text"),
];

#[test]
fn fields_of_files_and_windows_are_looked_at_in_order(rt: HostRuntime) -> Result<(), Fail> {
    assert!(rt;
        first_accepted(rt.alloc(), NOTHING, OF_FILES_AND_WINDOWS)? == OF_FILES_AND_WINDOWS.len()
    );
    Ok(())
}

const OF_EDITOR_COMMANDS: &[(&str, &str)] = &[
    ("{\"text\":1}", "command"),
    ("{\"command\":\"cut\",\"text\":1}", "command"),
    ("{\"command\":\"Undo\"}", "command"),
    ("{\"command\":\"undo\",\"text\":1,\"move\":1}", "text"),
    (
        "{\"command\":\"undo\",\"move\":\"home\",\"extend\":1}",
        "move",
    ),
    (
        "{\"command\":\"move\",\"extend\":0,\"time\":null}",
        "extend",
    ),
    ("{\"command\":\"move\",\"time\":null}", "time"),
    (
        "{\"command\":\"move\",\"time\":9223372036854775808}",
        "time",
    ),
    ("{\"command\":\"move\",\"event\":1}", "event"),
];

#[test]
fn fields_of_editor_commands_are_looked_at_in_order(rt: HostRuntime) -> Result<(), Fail> {
    assert!(rt; first_accepted(rt.alloc(), DO, OF_EDITOR_COMMANDS)? == OF_EDITOR_COMMANDS.len());
    Ok(())
}
