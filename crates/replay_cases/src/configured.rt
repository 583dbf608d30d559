// Facets, fields and configurations in scripts.
use crate::talking::talks;
use std::test::Fail;

#[test]
fn several_ranges_are_allowed_by_a_facet(rt: HostRuntime) -> Result<(), Fail> {
    let declared = [r#"{"input":{"name":"multi","facet":"allowMultipleSelections","value":true}}"#];
    let lines = [
        (
            r#"{"start":{"doc":"abcd","selection":[[0,1],[4,4],[3,4]],"main":1,"extensions":["multi"]}}"#,
            r#"{"ok":{"length":4}}"#,
        ),
        (
            r#"{"selection":{}}"#,
            r#"{"ok":{"main":1,"ranges":[[0,1],[3,4]]}}"#,
        ),
        (
            r#"{"start":{"doc":"abcd","selection":[[0,1],[4,4],[3,4]],"main":1}}"#,
            r#"{"ok":{"length":4}}"#,
        ),
        (
            r#"{"selection":{}}"#,
            r#"{"ok":{"main":0,"ranges":[[3,4]]}}"#,
        ),
        (
            r#"{"update":[{"selection":[[9,9]]}]}"#,
            r#"{"no":{"code":"SelectionOutside","len":4,"pos":9}}"#,
        ),
        (
            r#"{"update":[{"selection":[]}]}"#,
            r#"{"no":{"code":"NoRanges"}}"#,
        ),
        (
            r#"{"update":[{"selection":[[0,0]],"main":1}]}"#,
            r#"{"no":{"code":"BadMain","count":1,"main":1}}"#,
        ),
    ];
    assert!(rt; talks(rt.alloc(), &declared, &lines)?);
    Ok(())
}

#[test]
fn inputs_stand_by_precedence(rt: HostRuntime) -> Result<(), Fail> {
    let declared = [
        r#"{"facet":{"name":"L","combine":1}}"#,
        r#"{"input":{"name":"a","facet":"L","value":"a"}}"#,
        r#"{"input":{"name":"b","facet":"L","value":"b"}}"#,
        r#"{"input":{"name":"c","facet":"L","value":"c"}}"#,
        r#"{"input":{"name":"d","facet":"L","value":"d"}}"#,
        r#"{"prec":{"name":"hb","at":"high","of":"b"}}"#,
        r#"{"prec":{"name":"lc","at":"lowest","of":"c"}}"#,
        r#"{"prec":{"name":"ha","at":"highest","of":"a"}}"#,
        r#"{"group":{"name":"ga","of":["a"]}}"#,
    ];
    let lines = [
        (
            r#"{"start":{"extensions":["a","hb","lc","d"]}}"#,
            r#"{"ok":{"length":0}}"#,
        ),
        (r#"{"get":{"name":"L"}}"#, r#"{"ok":["b","a","d","c"]}"#),
        (
            r#"{"start":{"extensions":["b","ga","ha"]}}"#,
            r#"{"ok":{"length":0}}"#,
        ),
        (r#"{"get":{"name":"L"}}"#, r#"{"ok":["a","b"]}"#),
        (
            r#"{"start":{"extensions":["b","ga"]}}"#,
            r#"{"ok":{"length":0}}"#,
        ),
        (r#"{"get":{"name":"L"}}"#, r#"{"ok":["b","a"]}"#),
    ];
    assert!(rt; talks(rt.alloc(), &declared, &lines)?);
    Ok(())
}

#[test]
fn a_facet_is_computed_from_another(rt: HostRuntime) -> Result<(), Fail> {
    let declared = [
        r#"{"facet":{"name":"a","combine":5}}"#,
        r#"{"facet":{"name":"b","combine":5}}"#,
        r#"{"compute":{"name":"ca","facet":"a","rule":1,"deps":["doc"]}}"#,
        r#"{"compute":{"name":"cb","facet":"b","rule":5,"deps":["a"]}}"#,
    ];
    let lines = [
        (
            r#"{"start":{"doc":"ab","extensions":["ca","cb"]}}"#,
            r#"{"ok":{"length":2}}"#,
        ),
        (r#"{"get":{"name":"b"}}"#, r#"{"ok":2}"#),
        (
            r#"{"update":[{"changes":[{"from":2,"insert":"c"}]}]}"#,
            r#"{"ok":{"length":3}}"#,
        ),
        (r#"{"get":{"name":"b"}}"#, r#"{"ok":3}"#),
        (r#"{"facet":{"name":"later","combine":5}}"#, r#"{"ok":{}}"#),
        (r#"{"get":{"name":"later"}}"#, r#"{"ok":0}"#),
    ];
    assert!(rt; talks(rt.alloc(), &declared, &lines)?);
    Ok(())
}

#[test]
fn a_facet_is_computed_from_several_parts(rt: HostRuntime) -> Result<(), Fail> {
    let declared = [
        r#"{"facet":{"name":"a","combine":5}}"#,
        r#"{"facet":{"name":"b","combine":5}}"#,
        r#"{"compute":{"name":"ca","facet":"a","rule":1,"deps":["doc"]}}"#,
        r#"{"field":{"name":"n","create":2,"update":2}}"#,
        r#"{"compute":{"name":"cb","facet":"b","rule":5,"deps":["n","doc","selection","a"]}}"#,
        r#"{"facet":{"name":"c","combine":5}}"#,
        r#"{"compute":{"name":"cc","facet":"c","rule":3,"deps":["n","doc","selection"]}}"#,
    ];
    let lines = [
        (
            r#"{"start":{"doc":"ab","selection":[[1,1]],"extensions":["n","ca","cb","cc"]}}"#,
            r#"{"ok":{"length":2}}"#,
        ),
        (r#"{"get":{"name":"b"}}"#, r#"{"ok":2}"#),
        (r#"{"get":{"name":"c"}}"#, r#"{"ok":1}"#),
        (
            r#"{"update":[{"changes":[{"from":0,"insert":"cde"}]}]}"#,
            r#"{"ok":{"length":5}}"#,
        ),
        (r#"{"get":{"name":"b"}}"#, r#"{"ok":6}"#),
        (r#"{"get":{"name":"c"}}"#, r#"{"ok":4}"#),
    ];
    assert!(rt; talks(rt.alloc(), &declared, &lines)?);
    Ok(())
}

#[test]
fn a_circle_is_refused_with_its_members(rt: HostRuntime) -> Result<(), Fail> {
    let declared = [
        r#"{"facet":{"name":"f","combine":1}}"#,
        r#"{"facet":{"name":"g","combine":1}}"#,
        r#"{"compute":{"name":"cf","facet":"f","rule":4,"deps":["g"]}}"#,
        r#"{"compute":{"name":"cg","facet":"g","rule":4,"deps":["f"]}}"#,
    ];
    let lines = [
        (r#"{"start":{}}"#, r#"{"ok":{"length":0}}"#),
        (
            r#"{"update":[{"effects":[{"append":"cf"}]}]}"#,
            r#"{"ok":{"length":0}}"#,
        ),
        (r#"{"get":{"name":"f"}}"#, r#"{"ok":[[]]}"#),
        (
            r#"{"update":[{"effects":[{"append":"cg"}]}]}"#,
            r#"{"no":{"code":"Cycle","members":["f","g"]}}"#,
        ),
        (r#"{"get":{"name":"f"}}"#, r#"{"ok":[[]]}"#),
    ];
    assert!(rt; talks(rt.alloc(), &declared, &lines)?);
    Ok(())
}

#[test]
fn a_field_leaves_and_comes_back(rt: HostRuntime) -> Result<(), Fail> {
    let declared = [
        r#"{"field":{"name":"n","create":3,"update":2,"reads":["doc"]}}"#,
        r#"{"compartment":{"name":"c"}}"#,
        r#"{"slot":{"name":"s","compartment":"c","of":"n"}}"#,
        r#"{"group":{"name":"none","of":[]}}"#,
    ];
    let lines = [
        (
            r#"{"start":{"doc":"ab","extensions":["s"]}}"#,
            r#"{"ok":{"length":2}}"#,
        ),
        (r#"{"get":{"name":"n"}}"#, r#"{"ok":2}"#),
        (
            r#"{"update":[{"effects":[{"reconfigure":{"compartment":"c","to":"none"}}]}]}"#,
            r#"{"ok":{"length":2}}"#,
        ),
        (r#"{"get":{"name":"n"}}"#, r#"{"ok":{"absent":true}}"#),
        (
            r#"{"update":[{"changes":[{"from":2,"insert":"c"}]}]}"#,
            r#"{"ok":{"length":3}}"#,
        ),
        (
            r#"{"update":[{"changes":[{"from":3,"insert":"de"}],"effects":[{"reconfigure":{"compartment":"c","to":"n"}}]}]}"#,
            r#"{"ok":{"length":5}}"#,
        ),
        (r#"{"get":{"name":"n"}}"#, r#"{"ok":4}"#),
    ];
    assert!(rt; talks(rt.alloc(), &declared, &lines)?);
    Ok(())
}

#[test]
fn slots_are_nested_and_refused(rt: HostRuntime) -> Result<(), Fail> {
    let declared = [
        r#"{"facet":{"name":"L","combine":1}}"#,
        r#"{"input":{"name":"v1","facet":"L","value":1}}"#,
        r#"{"input":{"name":"v2","facet":"L","value":2}}"#,
        r#"{"compartment":{"name":"i"}}"#,
        r#"{"compartment":{"name":"o"}}"#,
        r#"{"slot":{"name":"si","compartment":"i","of":"v1"}}"#,
        r#"{"slot":{"name":"so","compartment":"o","of":"si"}}"#,
        r#"{"slot":{"name":"s2","compartment":"i","of":"v2"}}"#,
        r#"{"group":{"name":"none","of":[]}}"#,
    ];
    let lines = [
        (
            r#"{"start":{"extensions":["so"]}}"#,
            r#"{"ok":{"length":0}}"#,
        ),
        (r#"{"get":{"name":"L"}}"#, r#"{"ok":[1]}"#),
        (
            r#"{"update":[{"effects":[{"reconfigure":{"compartment":"i","to":"v2"}}]}]}"#,
            r#"{"ok":{"length":0}}"#,
        ),
        (r#"{"get":{"name":"L"}}"#, r#"{"ok":[2]}"#),
        (
            r#"{"update":[{"effects":[{"reconfigure":{"compartment":"o","to":"none"}}]}]}"#,
            r#"{"ok":{"length":0}}"#,
        ),
        (r#"{"get":{"name":"L"}}"#, r#"{"ok":[]}"#),
        (
            r#"{"update":[{"effects":[{"reconfigure":{"compartment":"o","to":"si"}}]}]}"#,
            r#"{"ok":{"length":0}}"#,
        ),
        (r#"{"get":{"name":"L"}}"#, r#"{"ok":[1]}"#),
        (
            r#"{"start":{"extensions":["si","s2"]}}"#,
            r#"{"no":{"code":"DuplicateCompartment","compartment":"i","first":"si","second":"s2"}}"#,
        ),
        (
            r#"{"start":{"extensions":["s2"]}}"#,
            r#"{"ok":{"length":0}}"#,
        ),
        (
            r#"{"update":[{"effects":[{"reconfigure":{"compartment":"i","to":"s2"}}]}]}"#,
            r#"{"no":{"code":"CompartmentLoop","path":["s2","s2"]}}"#,
        ),
        (r#"{"get":{"name":"L"}}"#, r#"{"ok":[2]}"#),
    ];
    assert!(rt; talks(rt.alloc(), &declared, &lines)?);
    Ok(())
}
