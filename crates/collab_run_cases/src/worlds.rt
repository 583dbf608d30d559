use crate::playing::replies;
use std::test::Fail;

#[test]
fn two_clients_type_at_one_place(rt: HostRuntime) -> Result<(), Fail> {
    let lines = [
        r#"{"begin":{"doc":"ab","clients":["a","b"]}}"#,
        r#"{"local":{"client":"a","changes":[{"from":1,"insert":"x"}]}}"#,
        r#"{"local":{"client":"b","changes":[{"from":1,"insert":"y"}]}}"#,
        r#"{"send":{"client":"a"}}"#,
        r#"{"send":{"client":"b"}}"#,
        r#"{"deliver":{"message":0}}"#,
        r#"{"deliver":{"message":1}}"#,
        r#"{"deliver":{"message":0}}"#,
        r#"{"publish":{"from":0,"to":1}}"#,
        r#"{"deliver":{"message":2,"client":"b"}}"#,
        r#"{"send":{"client":"b"}}"#,
        r#"{"deliver":{"message":3}}"#,
        r#"{"publish":{"from":0,"to":2}}"#,
        r#"{"deliver":{"message":4,"client":"a"}}"#,
        r#"{"deliver":{"message":4,"client":"b"}}"#,
        r#"{"deliver":{"message":2,"client":"b"}}"#,
        r#"{"state":{}}"#,
    ];
    let want = [
        r#"{"ok":{"version":0}}"#,
        r#"{"ok":{"pending":1,"text":"axb","version":0}}"#,
        r#"{"ok":{"pending":1,"text":"ayb","version":0}}"#,
        r#"{"ok":{"message":0}}"#,
        r#"{"ok":{"message":1}}"#,
        r#"{"ok":{"version":1}}"#,
        r#"{"no":{"code":"Stale","version":1}}"#,
        r#"{"no":{"code":"Stale","version":1}}"#,
        r#"{"ok":{"message":2}}"#,
        r#"{"ok":{"pending":1,"text":"axyb","version":1}}"#,
        r#"{"ok":{"message":3}}"#,
        r#"{"ok":{"version":2}}"#,
        r#"{"ok":{"message":4}}"#,
        r#"{"ok":{"pending":0,"text":"axyb","version":2}}"#,
        r#"{"ok":{"pending":0,"text":"axyb","version":2}}"#,
        r#"{"ok":{"pending":0,"text":"axyb","version":2}}"#,
        r#"{"ok":{"text":"axyb","version":2}}"#,
    ];
    assert!(rt; replies(rt.alloc(), &lines, &want)?);
    Ok(())
}

#[test]
fn updates_before_those_that_were_lost(rt: HostRuntime) -> Result<(), Fail> {
    let lines = [
        r#"{"begin":{"doc":"ab","clients":["c"]}}"#,
        r#"{"send":{"client":"c"}}"#,
        r#"{"begin":{"doc":"ab","clients":["a","b"]}}"#,
        r#"{"local":{"client":"a","changes":[{"from":1,"insert":"x"}]}}"#,
        r#"{"local":{"client":"b","changes":[{"from":1,"insert":"y"}]}}"#,
        r#"{"send":{"client":"a"}}"#,
        r#"{"deliver":{"message":0}}"#,
        r#"{"publish":{"from":0,"to":1}}"#,
        r#"{"deliver":{"message":1,"client":"b"}}"#,
        r#"{"send":{"client":"b"}}"#,
        r#"{"deliver":{"message":2}}"#,
        r#"{"publish":{"from":1,"to":2}}"#,
        r#"{"deliver":{"message":3,"client":"a"}}"#,
    ];
    let want = [
        r#"{"ok":{"version":0}}"#,
        r#"{"ok":{"message":0}}"#,
        r#"{"ok":{"version":0}}"#,
        r#"{"ok":{"pending":1,"text":"axb","version":0}}"#,
        r#"{"ok":{"pending":1,"text":"ayb","version":0}}"#,
        r#"{"ok":{"message":0}}"#,
        r#"{"ok":{"version":1}}"#,
        r#"{"ok":{"message":1}}"#,
        r#"{"ok":{"pending":1,"text":"axyb","version":1}}"#,
        r#"{"ok":{"message":2}}"#,
        r#"{"ok":{"version":2}}"#,
        r#"{"ok":{"message":3}}"#,
        r#"{"no":{"code":"Ahead","from":1,"version":0}}"#,
    ];
    assert!(rt; replies(rt.alloc(), &lines, &want)?);
    Ok(())
}

#[test]
fn a_text_is_cut_at_its_line_breaks(rt: HostRuntime) -> Result<(), Fail> {
    let lines = [
        r#"{"begin":{"clients":["a"]}}"#,
        r#"{"state":{}}"#,
        r#"{"begin":{"doc":"a\r\nb\r","clients":["a"]}}"#,
        r#"{"local":{"client":"a","changes":[{"from":0,"insert":"\r\n"},{"from":3,"to":4}]}}"#,
        r#"{"state":{}}"#,
    ];
    let want = [
        r#"{"ok":{"version":0}}"#,
        r#"{"ok":{"text":"","version":0}}"#,
        r#"{"ok":{"version":0}}"#,
        r#"{"ok":{"pending":1,"text":"\na\nb","version":0}}"#,
        r#"{"ok":{"text":"a\nb\n","version":0}}"#,
    ];
    assert!(rt; replies(rt.alloc(), &lines, &want)?);
    Ok(())
}
