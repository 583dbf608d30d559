use crate::replaying::replies;
use std::test::Fail;

#[test]
fn selections_are_kept(rt: HostRuntime) -> Result<(), Fail> {
    let cases = [
        (
            r#"{"start":{"doc":"abcd","selection":[[0,1],[4,4],[3,4]],"main":1}}
{"selection":{}}
{"update":[{"selection":[[9,9]]}]}
{"update":[{"selection":[]}]}
{"update":[{"selection":[[0,0]],"main":1}]}
{"selection":{}}"#,
            r#"{"ok":{"length":4}}
{"ok":{"main":0,"ranges":[[3,4]]}}
{"no":{"code":"SelectionOutside","len":4,"pos":9}}
{"no":{"code":"NoRanges"}}
{"no":{"code":"BadMain","count":1,"main":1}}
{"ok":{"main":0,"ranges":[[3,4]]}}
"#,
        ),
        (
            r#"{"start":{"doc":"abc","selection":[[3,1]]}}
{"update":[{"changes":[{"from":3,"insert":"!"}]}]}
{"update":[{"changes":[{"from":2,"insert":"??"},{"from":1,"insert":"-"}]}]}
{"selection":{}}
{"update":[{"selection":[[6,7],[0,0]],"main":1}]}
{"update":[{"changes":[{"from":0,"insert":"x"}]}]}
{"selection":{}}"#,
            r#"{"ok":{"length":3}}
{"ok":{"length":4}}
{"ok":{"length":7}}
{"ok":{"main":0,"ranges":[[6,2]]}}
{"ok":{"length":7}}
{"ok":{"length":8}}
{"ok":{"main":0,"ranges":[[0,0]]}}
"#,
        ),
        (
            r#"{"start":{"selection":[],"main":4}}
{"start":{"doc":"ab","selection":[[5,1],[3,0]],"main":2}}
{"start":{"doc":"ab","selection":[[5,4],[3,0]]}}
{"selection":{}}"#,
            r#"{"no":{"code":"NoRanges"}}
{"no":{"code":"BadMain","count":2,"main":2}}
{"no":{"code":"SelectionOutside","len":2,"pos":3}}
{"no":{"code":"NoSession"}}
"#,
        ),
    ];
    for (lines, want) in cases {
        assert!(rt;
            replies(rt.alloc(), lines.as_bytes(), want.as_bytes())?,
            "{lines}"
        );
    }
    Ok(())
}
