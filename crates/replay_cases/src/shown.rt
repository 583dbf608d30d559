// The window and files in scripts.
use crate::talking::talks;
use std::test::Fail;

#[test]
fn a_wide_character_that_is_cut_is_a_blank(rt: HostRuntime) -> Result<(), Fail> {
    let lines = [
        (r#"{"start":{"doc":"a\t漢"}}"#, r#"{"ok":{"length":3}}"#),
        (r#"{"view":{"rows":1,"cols":5}}"#, r#"{"ok":{}}"#),
        (
            r#"{"screen":{}}"#,
            r#"{"ok":{"cursor":[0,0],"rows":[[["a",""]]]}}"#,
        ),
        (r#"{"view":{"rows":1,"cols":6}}"#, r#"{"ok":{}}"#),
        (
            r#"{"screen":{}}"#,
            r#"{"ok":{"cursor":[0,0],"rows":[[["a   漢",""]]]}}"#,
        ),
        (
            r#"{"view":{"rows":0,"cols":501}}"#,
            r#"{"no":{"code":"BadRows","n":0}}"#,
        ),
        (
            r#"{"view":{"rows":1,"cols":501}}"#,
            r#"{"no":{"code":"BadCols","n":501}}"#,
        ),
    ];
    assert!(rt; talks(rt.alloc(), &[], &lines)?);
    Ok(())
}

#[test]
fn marks_of_two_layers_are_shown(rt: HostRuntime) -> Result<(), Fail> {
    let declared = [
        r#"{"input":{"name":"red","facet":"decorations","value":{"ranges":[{"kind":"mark","from":0,"to":2,"style":{"fg":1}}]}}}"#,
        r#"{"input":{"name":"green","facet":"decorations","value":{"ranges":[{"kind":"mark","from":1,"to":3,"style":{"fg":2,"bold":true}}]}}}"#,
        r#"{"prec":{"name":"first","at":"high","of":"red"}}"#,
    ];
    let lines = [
        (
            r#"{"start":{"doc":"abc","extensions":["green","first"]}}"#,
            r#"{"ok":{"length":3}}"#,
        ),
        (r#"{"view":{"rows":1,"cols":3}}"#, r#"{"ok":{}}"#),
        (
            r#"{"screen":{}}"#,
            r#"{"ok":{"cursor":[0,0],"rows":[[["a","31"],["b","1;31"],["c","1;32"]]]}}"#,
        ),
    ];
    assert!(rt; talks(rt.alloc(), &declared, &lines)?);
    Ok(())
}

#[test]
fn a_replacement_joins_lines(rt: HostRuntime) -> Result<(), Fail> {
    let declared = [
        r#"{"input":{"name":"plus","facet":"decorations","value":{"ranges":[{"kind":"replace","from":1,"to":4,"text":"+"}]}}}"#,
    ];
    let lines = [
        (
            r#"{"start":{"doc":"ab\ncd\nef","extensions":["plus"]}}"#,
            r#"{"ok":{"length":8}}"#,
        ),
        (r#"{"view":{"rows":3,"cols":5}}"#, r#"{"ok":{}}"#),
        (
            r#"{"screen":{}}"#,
            r#"{"ok":{"cursor":[0,0],"rows":[[["a+d",""]],[["ef",""]],[]]}}"#,
        ),
        (
            r#"{"summary":{}}"#,
            r#"{"ok":{"length":8,"lines":3,"rows":2,"transactions":0}}"#,
        ),
        (
            r#"{"update":[{"selection":[[3,3]]}]}"#,
            r#"{"ok":{"length":8}}"#,
        ),
        (
            r#"{"screen":{}}"#,
            r#"{"ok":{"cursor":[0,2],"rows":[[["a+d",""]],[["ef",""]],[]]}}"#,
        ),
        (
            r#"{"update":[{"selection":[[6,6]]}]}"#,
            r#"{"ok":{"length":8}}"#,
        ),
        (
            r#"{"screen":{}}"#,
            r#"{"ok":{"cursor":[1,0],"rows":[[["a+d",""]],[["ef",""]],[]]}}"#,
        ),
        (
            r#"{"summary":{}}"#,
            r#"{"ok":{"length":8,"lines":3,"rows":2,"transactions":2}}"#,
        ),
        (r#"{"start":{}}"#, r#"{"ok":{"length":0}}"#),
        (
            r#"{"summary":{}}"#,
            r#"{"ok":{"length":0,"lines":1,"rows":1,"transactions":0}}"#,
        ),
    ];
    assert!(rt; talks(rt.alloc(), &declared, &lines)?);
    Ok(())
}
