use crate::replaying::{joined, replies};
use std::alloc::{AllocError, Global};
use std::test::Fail;

/// Whether the reply to this one line is this, but for its line feed.
fn is_answered(alloc: Global, line: &str, reply: &str) -> Result<bool, AllocError> {
    let want = joined(alloc, reply, "\n")?;
    replies(alloc, line.as_bytes(), want.as_slice())
}

#[test]
fn sets_are_mapped(rt: HostRuntime) -> Result<(), Fail> {
    let cases = [
        (
            r#"{"map":{"doc":"ab","a":[{"from":1,"insert":"XY"}],"op":"of","pos":1,"side":-1}}"#,
            r#"{"ok":{"pos":1,"sections":[1,[0,"XY"],1],"text":"aXYb"}}"#,
        ),
        (
            r#"{"map":{"doc":"ab","a":[{"from":1,"insert":"XY"}],"op":"of","pos":1}}"#,
            r#"{"ok":{"pos":3,"sections":[1,[0,"XY"],1],"text":"aXYb"}}"#,
        ),
        (
            r#"{"map":{"doc":"abcd","a":[{"from":0,"to":2,"insert":"x"},{"from":2,"to":4,"insert":"y"}],"op":"of","pos":2}}"#,
            r#"{"ok":{"pos":1,"sections":[[2,"x"],[2,"y"]],"text":"xy"}}"#,
        ),
        (
            r#"{"map":{"doc":"abc","a":[{"from":0,"to":2,"insert":"x"},{"from":1,"to":3,"insert":"y"}],"op":"of"}}"#,
            r#"{"ok":{"sections":[[2,"x"],[1,"y"]],"text":"xy"}}"#,
        ),
        (
            r#"{"map":{"doc":"abcd","a":[{"from":0,"to":4,"insert":"xy"}],"op":"of","pos":2,"side":-1}}"#,
            r#"{"ok":{"pos":0,"sections":[[4,"xy"]],"text":"xy"}}"#,
        ),
        (
            r#"{"map":{"doc":"abcd","a":[{"from":0,"to":4,"insert":"xy"}],"op":"of","pos":2}}"#,
            r#"{"ok":{"pos":2,"sections":[[4,"xy"]],"text":"xy"}}"#,
        ),
        (
            r#"{"map":{"doc":"abcd","a":[{"from":0,"to":4,"insert":"xy"}],"op":"of","pos":4,"side":-1}}"#,
            r#"{"ok":{"pos":2,"sections":[[4,"xy"]],"text":"xy"}}"#,
        ),
        (
            r#"{"map":{"doc":"abcd","a":[{"from":1,"to":3}],"op":"of","pos":3,"mode":"trackBefore"}}"#,
            r#"{"ok":{"pos":null,"sections":[1,[2,""],1],"text":"ad"}}"#,
        ),
        (
            r#"{"map":{"doc":"abcd","a":[{"from":1,"to":3}],"op":"of","pos":1,"mode":"trackAfter"}}"#,
            r#"{"ok":{"pos":null,"sections":[1,[2,""],1],"text":"ad"}}"#,
        ),
        (
            r#"{"map":{"doc":"abcd","a":[{"from":0,"to":4,"insert":"xy"}],"op":"of","pos":2,"mode":"trackDel"}}"#,
            r#"{"ok":{"pos":null,"sections":[[4,"xy"]],"text":"xy"}}"#,
        ),
    ];
    for (line, reply) in cases {
        assert!(rt; is_answered(rt.alloc(), line, reply)?, "{line}");
    }
    Ok(())
}

#[test]
fn two_sets_are_put_together(rt: HostRuntime) -> Result<(), Fail> {
    let cases = [
        (
            r#"{"map":{"doc":"ab","a":[{"from":1,"insert":"x"}],"b":[{"from":1,"insert":"y"}],"op":"map"}}"#,
            r#"{"ok":{"sections":[2,[0,"y"],1],"text":"axyb"}}"#,
        ),
        (
            r#"{"map":{"doc":"ab","a":[{"from":1,"insert":"y"}],"b":[{"from":1,"insert":"x"}],"op":"mapBefore"}}"#,
            r#"{"ok":{"sections":[1,[0,"x"],2],"text":"axyb"}}"#,
        ),
        (
            r#"{"map":{"doc":"abcd","a":[{"from":1,"to":3}],"b":[{"from":1,"insert":"Z"}],"op":"compose"}}"#,
            r#"{"ok":{"sections":[1,[2,""],[0,"Z"],1],"text":"aZd"}}"#,
        ),
        (
            r#"{"map":{"doc":"abcd","a":[{"from":1,"to":3}],"op":"invert"}}"#,
            r#"{"ok":{"sections":[1,[0,"bc"],1],"text":"abcd"}}"#,
        ),
        (
            r#"{"map":{"doc":"abcdef","a":[{"from":1,"to":4,"insert":"X"}],"op":"filter","protect":[[0,2]]}}"#,
            r#"{"ok":{"sections":[2,[2,""],2],"text":"abef"}}"#,
        ),
    ];
    for (line, reply) in cases {
        assert!(rt; is_answered(rt.alloc(), line, reply)?, "{line}");
    }
    Ok(())
}

#[test]
fn a_wrong_map_is_refused(rt: HostRuntime) -> Result<(), Fail> {
    let cases = [
        (
            r#"{"map":{"doc":"ab","a":[],"op":"of","pos":3}}"#,
            r#"{"no":{"code":"BadValue","field":"pos"}}"#,
        ),
        (
            r#"{"map":{"doc":"ab","a":[],"b":[{"from":9}],"op":"of","pos":3}}"#,
            r#"{"no":{"code":"BadRange","from":9,"index":0,"len":2,"to":9}}"#,
        ),
        (
            r#"{"map":{"doc":"ab","a":[],"op":"of","protect":[[0]],"side":2147483648}}"#,
            r#"{"no":{"code":"BadValue","field":"protect"}}"#,
        ),
        (
            r#"{"map":{"doc":"ab","a":[],"op":"of","side":2147483648}}"#,
            r#"{"no":{"code":"BadValue","field":"side"}}"#,
        ),
    ];
    for (line, reply) in cases {
        assert!(rt; is_answered(rt.alloc(), line, reply)?, "{line}");
    }
    Ok(())
}
