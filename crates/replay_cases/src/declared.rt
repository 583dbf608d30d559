// Refusals of declarations in scripts.
use crate::talking::talks;
use std::test::Fail;

#[test]
fn declarations_are_refused_by_name(rt: HostRuntime) -> Result<(), Fail> {
    let declared = [r#"{"facet":{"name":"f","combine":1}}"#];
    let lines = [
        (
            r#"{"input":{"name":"x","facet":"q","value":1}}"#,
            r#"{"no":{"code":"UnknownName","name":"q"}}"#,
        ),
        (
            r#"{"facet":{"name":"f","combine":1}}"#,
            r#"{"no":{"code":"NameTaken","name":"f"}}"#,
        ),
        (
            r#"{"input":{"name":"t","facet":"tabSize","value":0}}"#,
            r#"{"no":{"code":"WrongShape","id":"tabSize"}}"#,
        ),
        (
            r#"{"facet":{"name":"g","combine":99}}"#,
            r#"{"no":{"code":"UnknownRule","number":99,"sort":"combine"}}"#,
        ),
        (
            r#"{"compute":{"name":"s","facet":"saveSeparator","rule":1,"deps":["doc"]}}"#,
            r#"{"no":{"code":"StaticFacet","facet":"saveSeparator"}}"#,
        ),
        (r#"{"get":{"name":"f"}}"#, r#"{"no":{"code":"NoSession"}}"#),
        (
            r#"{"get":{"name":"doc"}}"#,
            r#"{"no":{"code":"UnknownName","name":"doc"}}"#,
        ),
        (
            r#"{"start":{"extensions":["g"]}}"#,
            r#"{"no":{"code":"UnknownName","name":"g"}}"#,
        ),
        (r#"{"facet":{"name":"g","combine":1}}"#, r#"{"ok":{}}"#),
        (
            r#"{"update":[{"effects":[{"effect":"mark","value":1}]}]}"#,
            r#"{"no":{"code":"UnknownName","name":"mark"}}"#,
        ),
    ];
    assert!(rt; talks(rt.alloc(), &declared, &lines)?);
    Ok(())
}
