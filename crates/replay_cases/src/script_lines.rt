use cm_plain::Plain;
use script::{Command, LineError, Refusal, command_of};
use serde_json::Value;
use std::alloc::{AllocError, Global};
use std::test::Fail;
use transaction::Spec;

/// Whether a line is refused for this member.
fn is_refused_for(alloc: Global, line: &str, want: &str) -> Result<bool, AllocError> {
    let Ok(value) = Value::from_str(alloc, line) else {
        return Ok(false);
    };
    match command_of::<Command>(alloc, &value) {
        Err(LineError::Refused(Refusal::BadValue { field })) => Ok(field.text()?.as_str() == want),
        _ => Ok(false),
    }
}

#[test]
fn members_are_looked_at_in_order(rt: HostRuntime) -> Result<(), Fail> {
    let cases = [
        ("{\"start\":{\"extensions\":[],\"main\":-1}}", "main"),
        ("{\"start\":{\"extensions\":[],\"b\":0}}", "b"),
        ("{\"start\":{\"selection\":[[0]],\"main\":-1}}", "selection"),
        ("{\"start\":{\"main\":4294967296}}", "main"),
        ("{\"selection\":[]}", "selection"),
        ("{\"selection\":{\"main\":0}}", "main"),
        ("{\"update\":{}}", "update"),
        ("{\"update\":[{},7]}", "update"),
        ("{\"update\":[{\"effects\":[],\"filter\":1}]}", "filter"),
        ("{\"update\":[{\"effects\":[]}]}", "effects"),
        ("{\"update\":[{\"main\":\"0\"}]}", "main"),
        ("{\"update\":[{\"annotations\":[1]}]}", "annotations"),
        ("{\"update\":[{\"annotations\":[{}]}]}", "type"),
        (
            "{\"update\":[{\"annotations\":[{\"type\":\"t\"}]}]}",
            "value",
        ),
        ("{\"update\":[{\"userEvent\":null}]}", "userEvent"),
    ];
    for (line, field) in cases {
        assert!(rt; is_refused_for(rt.alloc(), line, field)?, "{line}");
    }
    Ok(())
}

/// A line of an update that carries this value.
fn carrying(alloc: Global, value: &str) -> Result<String, AllocError> {
    let mut line = String::from_str(
        alloc,
        "{\"update\":[{\"annotations\":[{\"type\":\"t\",\"value\":",
    )?;
    line.push_str(value)?;
    line.push_str("}]}]}")?;
    Ok(line)
}

/// Whether this value is refused in an annotation.
fn is_no_value(alloc: Global, value: &str) -> Result<bool, AllocError> {
    let line = carrying(alloc, value)?;
    is_refused_for(alloc, line.as_str(), "value")
}

#[test]
fn values_are_whole_and_at_most_16_deep(rt: HostRuntime) -> Result<(), Fail> {
    let cases = [
        "{}",
        "[1,{}]",
        "1.5",
        "9223372036854775808",
        "[[[[[[[[[[[[[[[[[]]]]]]]]]]]]]]]]]",
        "[[[[[[[[[[[[[[[[1]]]]]]]]]]]]]]]]",
    ];
    for value in cases {
        assert!(rt; is_no_value(rt.alloc(), value)?, "{value}");
    }
    Ok(())
}

/// The first spec of a line of an update.
fn first_spec(alloc: Global, line: &str) -> Option<Spec<Plain>> {
    let value = Value::from_str(alloc, line).ok()?;
    match command_of::<Command>(alloc, &value) {
        Ok(Command::Update(specs)) => specs.into_vec().into_iter().next(),
        _ => None,
    }
}

/// The value that the first spec of a line carries, where the line is made of this value.
pub(crate) fn carried(alloc: Global, value: &str) -> Result<Option<Plain>, AllocError> {
    let line = carrying(alloc, value)?;
    match first_spec(alloc, line.as_str()) {
        Some(spec) => Ok(first_value(spec)),
        None => Ok(None),
    }
}

/// The value of the first annotation of a spec.
fn first_value(spec: Spec<Plain>) -> Option<Plain> {
    let annotation = spec.annotations.into_vec().into_iter().next()?;
    Some(annotation.value)
}

/// How deep the value is that a line's first spec carries.
fn depth_of(alloc: Global, value: &str) -> Result<Option<u64>, AllocError> {
    match carried(alloc, value)? {
        Some(value) => Ok(Some(value.depth() as u64)),
        None => Ok(None),
    }
}

#[test]
fn a_value_may_be_16_deep(rt: HostRuntime) -> Result<(), Fail> {
    assert!(rt; depth_of(rt.alloc(), "[[[[[[[[[[[[[[[[]]]]]]]]]]]]]]]]")? == Some(16));
    Ok(())
}

/// Whether a line's first spec has neither selection nor user event, refers to the start document, and asks filters.
fn has_defaults(alloc: Global, line: &str) -> bool {
    match first_spec(alloc, line) {
        Some(spec) => {
            spec.selection.is_none() && spec.user_event.is_none() && spec.filter && !spec.sequential
        }
        None => false,
    }
}

#[test]
fn specs_have_defaults(rt: HostRuntime) {
    assert!(rt; has_defaults(rt.alloc(), "{\"update\":[{\"main\":3}]}"));
}
