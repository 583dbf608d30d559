use crate::playing::replies;
use std::alloc::{AllocError, Global};
use std::test::Fail;

const BEGIN: &str = r#"{"begin":{"doc":"ab","clients":["a","b"]}}"#;

const BEGUN: &str = r#"{"ok":{"version":0}}"#;

const LOCAL: &str = r#"{"local":{"client":"a","changes":[{"from":1,"insert":"x"}]}}"#;

const CHANGED: &str = r#"{"ok":{"pending":1,"text":"axb","version":0}}"#;

/// Whether a line is answered so as the first of a run.
fn is_first(alloc: Global, line: &str, want: &str) -> Result<bool, AllocError> {
    replies(alloc, &[line], &[want])
}

/// Whether a line is answered so in a world where "a" changed its text once, sent that (message 0), and nothing was published; and
/// whether it changes nothing.
fn is_refused(alloc: Global, line: &str, want: &str) -> Result<bool, AllocError> {
    replies(
        alloc,
        &[
            BEGIN,
            LOCAL,
            r#"{"send":{"client":"a"}}"#,
            line,
            r#"{"local":{"client":"a","changes":[]}}"#,
            r#"{"send":{"client":"b"}}"#,
        ],
        &[
            BEGUN,
            CHANGED,
            r#"{"ok":{"message":0}}"#,
            want,
            r#"{"ok":{"pending":2,"text":"axb","version":0}}"#,
            r#"{"ok":{"message":1}}"#,
        ],
    )
}

#[test]
fn lines_before_a_world(rt: HostRuntime) -> Result<(), Fail> {
    let cases = [
        ("[", r#"{"no":{"code":"NotJson"}}"#),
        (r#"{}"#, r#"{"no":{"code":"NotCommand","field":""}}"#),
        (
            r#"{"start":{}}"#,
            r#"{"no":{"code":"NotCommand","field":"start"}}"#,
        ),
        (r#"{"state":{}}"#, r#"{"no":{"code":"NoSession"}}"#),
        (
            r#"{"publish":{"from":2,"to":1}}"#,
            r#"{"no":{"code":"NoSession"}}"#,
        ),
        (
            r#"{"deliver":{"message":9}}"#,
            r#"{"no":{"code":"NoSession"}}"#,
        ),
        (
            r#"{"deliver":{"message":9,"client":"a"}}"#,
            r#"{"no":{"code":"UnknownName","name":"a"}}"#,
        ),
        (
            r#"{"send":{"client":"a"}}"#,
            r#"{"no":{"code":"UnknownName","name":"a"}}"#,
        ),
    ];
    for (line, want) in cases {
        assert!(rt; is_first(rt.alloc(), line, want)?, "{line}");
    }
    Ok(())
}

#[test]
fn a_world_that_is_not_begun(rt: HostRuntime) -> Result<(), Fail> {
    let cases = [
        (
            r#"{"begin":{"clients":["a","b","a","b"]}}"#,
            r#"{"no":{"code":"NameTaken","name":"a"}}"#,
        ),
        (
            r#"{"begin":{"clients":[]}}"#,
            r#"{"no":{"code":"BadValue","field":"clients"}}"#,
        ),
        (
            r#"{"begin":{"doc":"ab"}}"#,
            r#"{"no":{"code":"BadValue","field":"clients"}}"#,
        ),
        (
            r#"{"begin":{"clients":["a",1]}}"#,
            r#"{"no":{"code":"BadValue","field":"clients"}}"#,
        ),
        (
            r#"{"begin":{"clients":[],"doc":1}}"#,
            r#"{"no":{"code":"BadValue","field":"doc"}}"#,
        ),
        (
            r#"{"begin":{"clients":["a","a"],"b":0}}"#,
            r#"{"no":{"code":"BadValue","field":"b"}}"#,
        ),
    ];
    for (line, want) in cases {
        assert!(rt; is_refused(rt.alloc(), line, want)?, "{line}");
    }
    Ok(())
}

#[test]
fn values_out_of_range(rt: HostRuntime) -> Result<(), Fail> {
    let cases = [
        (
            r#"{"publish":{"from":2,"to":1}}"#,
            r#"{"no":{"code":"BadValue","field":"from"}}"#,
        ),
        (
            r#"{"publish":{"from":1,"to":1}}"#,
            r#"{"no":{"code":"BadValue","field":"to"}}"#,
        ),
        (
            r#"{"deliver":{"message":1}}"#,
            r#"{"no":{"code":"BadValue","field":"message"}}"#,
        ),
        (
            r#"{"deliver":{"message":0,"client":"a"}}"#,
            r#"{"no":{"code":"BadValue","field":"client"}}"#,
        ),
        (
            r#"{"deliver":{"message":9,"client":"c"}}"#,
            r#"{"no":{"code":"UnknownName","name":"c"}}"#,
        ),
        (
            r#"{"local":{"client":"a","changes":[{"from":3,"to":4}]}}"#,
            r#"{"no":{"code":"BadRange","from":3,"index":0,"len":3,"to":4}}"#,
        ),
        (
            r#"{"local":{"client":"c"}}"#,
            r#"{"no":{"code":"BadValue","field":"changes"}}"#,
        ),
    ];
    for (line, want) in cases {
        assert!(rt; is_refused(rt.alloc(), line, want)?, "{line}");
    }
    Ok(())
}

#[test]
fn updates_for_the_authority(rt: HostRuntime) -> Result<(), Fail> {
    let lines = [
        BEGIN,
        r#"{"publish":{"from":0,"to":0}}"#,
        r#"{"deliver":{"message":0}}"#,
        r#"{"deliver":{"message":0,"client":"b"}}"#,
    ];
    let want = [
        BEGUN,
        r#"{"ok":{"message":0}}"#,
        r#"{"no":{"code":"BadValue","field":"client"}}"#,
        r#"{"ok":{"pending":0,"text":"ab","version":0}}"#,
    ];
    assert!(rt; replies(rt.alloc(), &lines, &want)?);
    Ok(())
}

/// A line that begins a world of so many clients, with names of that many letters and fewer.
fn beginning(alloc: Global, count: usize) -> Result<String, AllocError> {
    let mut line = String::from_str(alloc, r#"{"begin":{"clients":["a"#)?;
    let mut name = String::from_str(alloc, "a")?;
    for _ in 1..count {
        line.push_str("\",\"")?;
        name.push_str("a")?;
        line.push_str(name.as_str())?;
    }
    line.push_str("\"]}}")?;
    Ok(line)
}

/// Whether a line that begins a world of so many clients is answered so.
fn is_begun(alloc: Global, count: usize, want: &str) -> Result<bool, AllocError> {
    let line = beginning(alloc, count)?;
    is_first(alloc, line.as_str(), want)
}

#[test]
fn as_many_clients_as_may_be(rt: HostRuntime) -> Result<(), Fail> {
    let refused = r#"{"no":{"code":"BadValue","field":"clients"}}"#;
    assert!(rt; is_begun(rt.alloc(), 64, BEGUN)?);
    assert!(rt; is_begun(rt.alloc(), 65, refused)?);
    Ok(())
}
