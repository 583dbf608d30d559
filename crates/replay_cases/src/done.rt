// Commands of the editor in scripts.
use crate::talking::talks;
use std::test::Fail;

#[test]
fn undo_leaves_an_unrelated_insert(rt: HostRuntime) -> Result<(), Fail> {
    let lines = [
        (
            r#"{"start":{"extensions":["history"]}}"#,
            r#"{"ok":{"length":0}}"#,
        ),
        (
            r#"{"do":{"command":"insert","text":"a","time":0}}"#,
            r#"{"ok":{"done":true,"length":1}}"#,
        ),
        (
            r#"{"do":{"command":"insert","text":"b","time":100}}"#,
            r#"{"ok":{"done":true,"length":2}}"#,
        ),
        (
            r#"{"update":[{"changes":[{"from":0,"insert":"zz"}],"annotations":[{"type":"addToHistory","value":false}]}]}"#,
            r#"{"ok":{"length":4}}"#,
        ),
        (
            r#"{"do":{"command":"undo"}}"#,
            r#"{"ok":{"done":true,"length":2}}"#,
        ),
        (r#"{"text":{}}"#, r#"{"ok":"zz"}"#),
        (
            r#"{"do":{"command":"redo"}}"#,
            r#"{"ok":{"done":true,"length":4}}"#,
        ),
        (r#"{"text":{}}"#, r#"{"ok":"zzab"}"#),
        (
            r#"{"get":{"name":"history"}}"#,
            r#"{"ok":{"done":1,"undone":0}}"#,
        ),
    ];
    assert!(rt; talks(rt.alloc(), &[], &lines)?);
    Ok(())
}

#[test]
fn undo_passes_protected_ranges(rt: HostRuntime) -> Result<(), Fail> {
    let declared = [
        r#"{"input":{"name":"kept","facet":"filterData","value":[0,2]}}"#,
        r#"{"input":{"name":"guard","facet":"changeFilter","value":3}}"#,
    ];
    let lines = [
        (
            r#"{"start":{"doc":"abcdef","extensions":["history","kept","guard"]}}"#,
            r#"{"ok":{"length":6}}"#,
        ),
        (
            r#"{"update":[{"changes":[{"from":1,"to":4}]}]}"#,
            r#"{"ok":{"length":4}}"#,
        ),
        (r#"{"text":{}}"#, r#"{"ok":"abef"}"#),
        (
            r#"{"do":{"command":"undo"}}"#,
            r#"{"ok":{"done":true,"length":6}}"#,
        ),
        (r#"{"text":{}}"#, r#"{"ok":"abcdef"}"#),
    ];
    assert!(rt; talks(rt.alloc(), &declared, &lines)?);
    Ok(())
}

#[test]
fn a_command_may_have_nothing_to_do(rt: HostRuntime) -> Result<(), Fail> {
    let lines = [
        (r#"{"start":{"doc":"ab"}}"#, r#"{"ok":{"length":2}}"#),
        (
            r#"{"do":{"command":"deleteBack"}}"#,
            r#"{"ok":{"done":false,"length":2}}"#,
        ),
        (
            r#"{"do":{"command":"deleteForward"}}"#,
            r#"{"ok":{"done":true,"length":1}}"#,
        ),
        (
            r#"{"do":{"command":"move","move":"docStart"}}"#,
            r#"{"ok":{"done":false,"length":1}}"#,
        ),
        (
            r#"{"do":{"command":"selectAll"}}"#,
            r#"{"ok":{"done":true,"length":1}}"#,
        ),
        (
            r#"{"do":{"command":"undo"}}"#,
            r#"{"ok":{"done":false,"length":1}}"#,
        ),
    ];
    assert!(rt; talks(rt.alloc(), &[], &lines)?);
    Ok(())
}

#[test]
fn selections_are_undone_and_done_again(rt: HostRuntime) -> Result<(), Fail> {
    let undo = r#"{"do":{"command":"undoSelection"}}"#;
    let redo = r#"{"do":{"command":"redoSelection"}}"#;
    let selection = r#"{"selection":{}}"#;
    let lines = [
        (
            r#"{"start":{"doc":"ab","extensions":["history"]}}"#,
            r#"{"ok":{"length":2}}"#,
        ),
        (
            r#"{"update":[{"selection":[[2,2]]}]}"#,
            r#"{"ok":{"length":2}}"#,
        ),
        (
            r#"{"do":{"command":"insert","text":"c"}}"#,
            r#"{"ok":{"done":true,"length":3}}"#,
        ),
        (
            r#"{"update":[{"selection":[[0,1]]}]}"#,
            r#"{"ok":{"length":3}}"#,
        ),
        (undo, r#"{"ok":{"done":true,"length":3}}"#),
        (selection, r#"{"ok":{"main":0,"ranges":[[3,3]]}}"#),
        (undo, r#"{"ok":{"done":true,"length":2}}"#),
        (selection, r#"{"ok":{"main":0,"ranges":[[2,2]]}}"#),
        (undo, r#"{"ok":{"done":true,"length":2}}"#),
        (selection, r#"{"ok":{"main":0,"ranges":[[0,0]]}}"#),
        (undo, r#"{"ok":{"done":false,"length":2}}"#),
        (redo, r#"{"ok":{"done":true,"length":2}}"#),
        (selection, r#"{"ok":{"main":0,"ranges":[[2,2]]}}"#),
        (redo, r#"{"ok":{"done":true,"length":3}}"#),
        (selection, r#"{"ok":{"main":0,"ranges":[[3,3]]}}"#),
    ];
    assert!(rt; talks(rt.alloc(), &[], &lines)?);
    Ok(())
}

#[test]
fn effects_are_undone_with_their_changes(rt: HostRuntime) -> Result<(), Fail> {
    let declared = [
        r#"{"effect":{"name":"un","map":2}}"#,
        r#"{"effect":{"name":"fo","map":2}}"#,
        r#"{"inverse":{"effect":"fo","back":"un"}}"#,
        r#"{"field":{"name":"seen","create":4,"update":7,"listens":["un","fo"]}}"#,
    ];
    let lines = [
        (
            r#"{"start":{"doc":"abcd","extensions":["history","seen"]}}"#,
            r#"{"ok":{"length":4}}"#,
        ),
        (
            r#"{"update":[{"effects":[{"effect":"fo","value":[1,3]}]}]}"#,
            r#"{"ok":{"length":4}}"#,
        ),
        (
            r#"{"do":{"command":"undo"}}"#,
            r#"{"ok":{"done":true,"length":4}}"#,
        ),
        (
            r#"{"update":[{"changes":[{"from":0,"insert":"xx"}],"annotations":[{"type":"addToHistory","value":false}]}]}"#,
            r#"{"ok":{"length":6}}"#,
        ),
        (
            r#"{"do":{"command":"redo"}}"#,
            r#"{"ok":{"done":true,"length":6}}"#,
        ),
        (
            r#"{"get":{"name":"seen"}}"#,
            r#"{"ok":[[1,3],[1,3],[3,5]]}"#,
        ),
    ];
    assert!(rt; talks(rt.alloc(), &declared, &lines)?);
    Ok(())
}
