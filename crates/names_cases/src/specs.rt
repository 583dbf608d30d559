// Specs with ids in place of names.
use crate::playing::named;
use names::{Names, specs_of, specs_of_one};
use requests::Request;
use script::{LineError, Refusal, line_command};
use std::alloc::{AllocError, Global};
use std::test::Fail;
use transaction::{Effect, Spec};
use values::Val;

/// The lines that names are looked up after: node 1 is the input `i`, node 2 the group `g`.
const LINES: [&str; 4] = [
    "{\"effect\":{\"name\":\"e\"}}",
    "{\"compartment\":{\"name\":\"c\"}}",
    "{\"input\":{\"name\":\"i\",\"facet\":\"tabSize\",\"value\":2}}",
    "{\"group\":{\"name\":\"g\",\"of\":[\"i\",\"history\"]}}",
];

/// The specs that a line asks for.
fn specs(alloc: Global, names: &Names, line: &str) -> Result<Vec<Spec<Val>>, LineError> {
    match line_command::<Request>(alloc, line.as_bytes())? {
        Request::Update(requests) => specs_of(alloc, names, requests),
        _ => Err(LineError::NoMemory),
    }
}

/// The last spec that a line asks for, with ids, by the call for one spec.
fn last_alone(alloc: Global, names: &Names, line: &str) -> Result<Vec<Spec<Val>>, LineError> {
    match line_command::<Request>(alloc, line.as_bytes())? {
        Request::Update(requests) => match requests.into_vec().pop() {
            Some(request) => specs_of_one(alloc, names, request),
            None => Err(LineError::NoMemory),
        },
        _ => Err(LineError::NoMemory),
    }
}

/// An effect by its form, from 0, and its ids: those of a list as its length and its last.
fn form_of(effect: &Effect<Val>) -> (u32, u32, u32) {
    match effect {
        Effect::Kind { id, value: _ } => (0, *id, 0),
        Effect::Reconfigure { compartment, to } => (1, *compartment, *to),
        Effect::Root(nodes) => match nodes.as_slice() {
            [first, last] => (2, *first, *last),
            _ => (2, 0, 0),
        },
        Effect::Append(node) => (3, *node, 0),
    }
}

/// The form of the effect at a place of the only spec of a line.
fn form_at(alloc: Global, line: &str, place: usize) -> Result<Option<(u32, u32, u32)>, AllocError> {
    let names = named(alloc, &LINES)?;
    match specs(alloc, &names, line) {
        Err(_) => Ok(None),
        Ok(specs) => match specs.first() {
            None => Ok(None),
            Some(spec) => Ok(spec.effects.as_slice().get(place).map(form_of)),
        },
    }
}

#[test]
fn each_form_of_an_effect_has_ids(rt: HostRuntime) -> Result<(), Fail> {
    let line =
        "{\"update\":[{\"effects\":[{\"effect\":\"e\",\"value\":[1]},{\"reconfigure\":{\"compartment\":\"c\",\"to\":\"g\"}},{\"root\":[\"g\",\"i\"]},{\"append\":\"history\"}]}]}";
    let cases = [(0, 1, 0), (1, 0, 2), (2, 2, 1), (3, 0, 0)];
    for i in 0..cases.len() {
        assert!(rt; form_at(rt.alloc(), line, i)? == Some(cases[i]));
    }
    assert!(rt; form_at(rt.alloc(), line, 4)?.is_none());
    Ok(())
}

/// The form of the effect at a place of the last spec of a line, and how many specs there are.
fn form_alone(
    alloc: Global,
    line: &str,
    place: usize,
) -> Result<Option<(usize, (u32, u32, u32))>, AllocError> {
    let names = named(alloc, &LINES)?;
    match last_alone(alloc, &names, line) {
        Ok(specs) => match specs.first() {
            None => Ok(None),
            Some(spec) => match spec.effects.as_slice().get(place) {
                None => Ok(None),
                Some(effect) => Ok(Some((specs.len(), form_of(effect)))),
            },
        },
        Err(_) => Ok(None),
    }
}

/// Whether the last spec of a line is refused as this name being unknown.
fn is_unknown_alone(alloc: Global, line: &str, want: &str) -> Result<bool, AllocError> {
    let names = named(alloc, &LINES)?;
    match last_alone(alloc, &names, line) {
        Err(LineError::Refused(Refusal::UnknownName { name })) => Ok(name.text()?.as_str() == want),
        _ => Ok(false),
    }
}

#[test]
fn one_spec_alone_has_ids(rt: HostRuntime) -> Result<(), Fail> {
    let line =
        "{\"update\":[{},{\"effects\":[{\"effect\":\"e\",\"value\":[1]},{\"append\":\"g\"}]}]}";
    let cases = [(0, 1, 0), (3, 2, 0)];
    for i in 0..cases.len() {
        assert!(rt; form_alone(rt.alloc(), line, i)? == Some((1, cases[i])));
    }
    assert!(rt; form_alone(rt.alloc(), line, 2)?.is_none());
    Ok(())
}

#[test]
fn the_first_name_of_one_spec_alone_is_refused(rt: HostRuntime) -> Result<(), Fail> {
    let line = "{\"update\":[{\"effects\":[{\"append\":\"x\"},{\"append\":\"y\"}]}]}";
    assert!(rt; is_unknown_alone(rt.alloc(), line, "x")?);
    Ok(())
}

/// Whether a line is refused as this name being unknown.
fn is_unknown(alloc: Global, line: &str, want: &str) -> Result<bool, AllocError> {
    let names = named(alloc, &LINES)?;
    match specs(alloc, &names, line) {
        Err(LineError::Refused(Refusal::UnknownName { name })) => Ok(name.text()?.as_str() == want),
        _ => Ok(false),
    }
}

#[test]
fn names_of_effects_are_looked_up_in_order(rt: HostRuntime) -> Result<(), Fail> {
    let cases = [
        (
            "{\"update\":[{\"effects\":[{\"effect\":\"g\",\"value\":1}]}]}",
            "g",
        ),
        (
            "{\"update\":[{},{\"effects\":[{\"append\":\"q\"}]},{\"effects\":[{\"append\":\"r\"}]}]}",
            "q",
        ),
        (
            "{\"update\":[{\"effects\":[{\"reconfigure\":{\"compartment\":\"i\",\"to\":\"q\"}}]}]}",
            "i",
        ),
        (
            "{\"update\":[{\"effects\":[{\"reconfigure\":{\"compartment\":\"c\",\"to\":\"c\"}}]}]}",
            "c",
        ),
        (
            "{\"update\":[{\"effects\":[{\"root\":[\"g\",\"tabSize\",\"q\"]}]}]}",
            "tabSize",
        ),
        ("{\"update\":[{\"effects\":[{\"append\":\"doc\"}]}]}", "doc"),
    ];
    for (line, name) in cases {
        assert!(rt; is_unknown(rt.alloc(), line, name)?, "{name}");
    }
    Ok(())
}
