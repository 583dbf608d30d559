// Declarations that are refused.
use crate::playing::first_wrong;
use std::test::Fail;

#[test]
fn unknown_names_are_refused_in_the_order_of_fields(rt: HostRuntime) -> Result<(), Fail> {
    let cases = [
        (
            "{\"input\":{\"name\":\"i\",\"facet\":\"q\",\"value\":1}}",
            "{\"no\":{\"code\":\"UnknownName\",\"name\":\"q\"}}\n",
        ),
        (
            "{\"input\":{\"name\":\"doc\",\"facet\":\"doc\",\"value\":1}}",
            "{\"no\":{\"code\":\"UnknownName\",\"name\":\"doc\"}}\n",
        ),
        (
            "{\"inverse\":{\"effect\":\"tabSize\",\"back\":\"q\"}}",
            "{\"no\":{\"code\":\"UnknownName\",\"name\":\"tabSize\"}}\n",
        ),
        (
            "{\"inverse\":{\"effect\":\"note\",\"back\":\"q\"}}",
            "{\"no\":{\"code\":\"UnknownName\",\"name\":\"q\"}}\n",
        ),
        (
            "{\"facet\":{\"name\":\"f\",\"combine\":99,\"enables\":[\"history\",\"tabSize\",\"q\"]}}",
            "{\"no\":{\"code\":\"UnknownName\",\"name\":\"tabSize\"}}\n",
        ),
        (
            "{\"field\":{\"name\":\"n\",\"create\":99,\"update\":99,\"reads\":[\"doc\",\"note\"],\"listens\":[\"q\"]}}",
            "{\"no\":{\"code\":\"UnknownName\",\"name\":\"note\"}}\n",
        ),
        (
            "{\"field\":{\"name\":\"n\",\"create\":99,\"update\":99,\"listens\":[\"history\"],\"provides\":[{\"facet\":\"q\"}]}}",
            "{\"no\":{\"code\":\"UnknownName\",\"name\":\"history\"}}\n",
        ),
        (
            "{\"field\":{\"name\":\"n\",\"create\":99,\"update\":99,\"provides\":[{\"facet\":\"tabSize\"},{\"facet\":\"q\"}]}}",
            "{\"no\":{\"code\":\"UnknownName\",\"name\":\"q\"}}\n",
        ),
    ];
    assert!(rt; first_wrong(rt.alloc(), &cases)? == cases.len());
    Ok(())
}

#[test]
fn unknown_names_of_nodes_are_refused_in_the_order_of_fields(rt: HostRuntime) -> Result<(), Fail> {
    let cases = [
        (
            "{\"compute\":{\"name\":\"k\",\"facet\":\"q\",\"rule\":99,\"deps\":[\"r\"]}}",
            "{\"no\":{\"code\":\"UnknownName\",\"name\":\"q\"}}\n",
        ),
        (
            "{\"compute\":{\"name\":\"k\",\"facet\":\"tabSize\",\"rule\":99,\"deps\":[\"doc\",\"selection\",\"r\"]}}",
            "{\"no\":{\"code\":\"UnknownName\",\"name\":\"r\"}}\n",
        ),
        (
            "{\"from\":{\"name\":\"o\",\"facet\":\"tabSize\",\"field\":\"tabSize\"}}",
            "{\"no\":{\"code\":\"UnknownName\",\"name\":\"tabSize\"}}\n",
        ),
        (
            "{\"init\":{\"name\":\"w\",\"field\":\"note\",\"value\":7}}",
            "{\"no\":{\"code\":\"UnknownName\",\"name\":\"note\"}}\n",
        ),
        (
            "{\"group\":{\"name\":\"g\",\"of\":[\"history\",\"doc\"]}}",
            "{\"no\":{\"code\":\"UnknownName\",\"name\":\"doc\"}}\n",
        ),
        (
            "{\"prec\":{\"name\":\"p\",\"at\":\"high\",\"of\":\"g\"}}",
            "{\"no\":{\"code\":\"UnknownName\",\"name\":\"g\"}}\n",
        ),
        (
            "{\"slot\":{\"name\":\"s\",\"compartment\":\"history\",\"of\":\"q\"}}",
            "{\"no\":{\"code\":\"UnknownName\",\"name\":\"history\"}}\n",
        ),
    ];
    assert!(rt; first_wrong(rt.alloc(), &cases)? == cases.len());
    Ok(())
}

#[test]
fn names_that_are_taken_are_refused(rt: HostRuntime) -> Result<(), Fail> {
    let cases = [
        ("{\"facet\":{\"name\":\"f\",\"combine\":1}}", ""),
        (
            "{\"facet\":{\"name\":\"f\",\"combine\":1}}",
            "{\"no\":{\"code\":\"NameTaken\",\"name\":\"f\"}}\n",
        ),
        (
            "{\"facet\":{\"name\":\"doc\",\"combine\":99}}",
            "{\"no\":{\"code\":\"NameTaken\",\"name\":\"doc\"}}\n",
        ),
        (
            "{\"compartment\":{\"name\":\"selection\"}}",
            "{\"no\":{\"code\":\"NameTaken\",\"name\":\"selection\"}}\n",
        ),
        (
            "{\"effect\":{\"name\":\"history\",\"map\":9}}",
            "{\"no\":{\"code\":\"NameTaken\",\"name\":\"history\"}}\n",
        ),
        (
            "{\"field\":{\"name\":\"f\",\"create\":99,\"update\":1}}",
            "{\"no\":{\"code\":\"NameTaken\",\"name\":\"f\"}}\n",
        ),
        (
            "{\"input\":{\"name\":\"f\",\"facet\":\"decorations\",\"value\":{\"ranges\":[{\"kind\":\"mark\",\"from\":1}]}}}",
            "{\"no\":{\"code\":\"NameTaken\",\"name\":\"f\"}}\n",
        ),
        (
            "{\"group\":{\"name\":\"f\",\"of\":[]}}",
            "{\"no\":{\"code\":\"NameTaken\",\"name\":\"f\"}}\n",
        ),
        (
            "{\"prec\":{\"name\":\"f\",\"at\":\"high\",\"of\":\"q\"}}",
            "{\"no\":{\"code\":\"UnknownName\",\"name\":\"q\"}}\n",
        ),
        ("{\"compartment\":{\"name\":\"c\"}}", ""),
        (
            "{\"compartment\":{\"name\":\"c\"}}",
            "{\"no\":{\"code\":\"NameTaken\",\"name\":\"c\"}}\n",
        ),
    ];
    assert!(rt; first_wrong(rt.alloc(), &cases)? == cases.len());
    Ok(())
}

#[test]
fn rules_that_are_unknown_are_refused(rt: HostRuntime) -> Result<(), Fail> {
    let cases = [
        (
            "{\"effect\":{\"name\":\"e\",\"map\":0}}",
            "{\"no\":{\"code\":\"UnknownRule\",\"number\":0,\"sort\":\"effectMap\"}}\n",
        ),
        (
            "{\"facet\":{\"name\":\"f\",\"combine\":99}}",
            "{\"no\":{\"code\":\"UnknownRule\",\"number\":99,\"sort\":\"combine\"}}\n",
        ),
        (
            "{\"facet\":{\"name\":\"f\",\"combine\":1,\"compare\":4,\"compareInput\":5}}",
            "{\"no\":{\"code\":\"UnknownRule\",\"number\":5,\"sort\":\"compare\"}}\n",
        ),
        ("{\"facet\":{\"name\":\"f\",\"combine\":1}}", ""),
        (
            "{\"field\":{\"name\":\"n\",\"create\":0,\"update\":99}}",
            "{\"no\":{\"code\":\"UnknownRule\",\"number\":0,\"sort\":\"create\"}}\n",
        ),
        (
            "{\"field\":{\"name\":\"n\",\"create\":1,\"update\":99}}",
            "{\"no\":{\"code\":\"UnknownRule\",\"number\":99,\"sort\":\"update\"}}\n",
        ),
        (
            "{\"compute\":{\"name\":\"k\",\"facet\":\"f\",\"rule\":7,\"deps\":[]}}",
            "{\"no\":{\"code\":\"UnknownRule\",\"number\":7,\"sort\":\"compute\"}}\n",
        ),
        (
            "{\"compute\":{\"name\":\"k\",\"facet\":\"f\",\"rule\":3,\"deps\":[],\"many\":true}}",
            "{\"no\":{\"code\":\"UnknownRule\",\"number\":3,\"sort\":\"computeN\"}}\n",
        ),
        (
            "{\"from\":{\"name\":\"k\",\"facet\":\"f\",\"field\":\"history\",\"rule\":7}}",
            "{\"no\":{\"code\":\"UnknownRule\",\"number\":7,\"sort\":\"compute\"}}\n",
        ),
    ];
    assert!(rt; first_wrong(rt.alloc(), &cases)? == cases.len());
    Ok(())
}

#[test]
fn values_and_rules_of_another_shape_are_refused(rt: HostRuntime) -> Result<(), Fail> {
    let cases = [
        (
            "{\"input\":{\"name\":\"i\",\"facet\":\"tabSize\",\"value\":0}}",
            "{\"no\":{\"code\":\"WrongShape\",\"id\":\"tabSize\"}}\n",
        ),
        (
            "{\"input\":{\"name\":\"i\",\"facet\":\"tabSize\",\"value\":{\"ranges\":[]}}}",
            "{\"no\":{\"code\":\"WrongShape\",\"id\":\"tabSize\"}}\n",
        ),
        (
            "{\"compute\":{\"name\":\"k\",\"facet\":\"saveSeparator\",\"rule\":4,\"deps\":[\"tabSize\"]}}",
            "{\"no\":{\"code\":\"StaticFacet\",\"facet\":\"saveSeparator\"}}\n",
        ),
        (
            "{\"compute\":{\"name\":\"k\",\"facet\":\"readOnly\",\"rule\":1,\"deps\":[\"doc\"]}}",
            "{\"no\":{\"code\":\"WrongShape\",\"id\":\"readOnly\"}}\n",
        ),
        (
            "{\"init\":{\"name\":\"w\",\"field\":\"history\",\"value\":7}}",
            "{\"no\":{\"code\":\"WrongShape\",\"id\":\"history\"}}\n",
        ),
        (
            "{\"from\":{\"name\":\"o\",\"facet\":\"decorations\",\"field\":\"history\"}}",
            "{\"no\":{\"code\":\"WrongShape\",\"id\":\"decorations\"}}\n",
        ),
        (
            "{\"field\":{\"name\":\"n\",\"create\":2,\"update\":4}}",
            "{\"no\":{\"code\":\"WrongShape\",\"id\":\"n\"}}\n",
        ),
        (
            "{\"field\":{\"name\":\"n\",\"create\":2,\"update\":2,\"provides\":[{\"facet\":\"allowMultipleSelections\"}]}}",
            "{\"no\":{\"code\":\"StaticFacet\",\"facet\":\"allowMultipleSelections\"}}\n",
        ),
        (
            "{\"field\":{\"name\":\"n\",\"create\":2,\"update\":2,\"provides\":[{\"facet\":\"filterData\",\"rule\":1},{\"facet\":\"readOnly\",\"rule\":1}]}}",
            "{\"no\":{\"code\":\"WrongShape\",\"id\":\"readOnly\"}}\n",
        ),
        (
            "{\"field\":{\"name\":\"n\",\"create\":2,\"update\":2,\"provides\":[{\"facet\":\"filterData\",\"rule\":1}]}}",
            "",
        ),
    ];
    assert!(rt; first_wrong(rt.alloc(), &cases)? == cases.len());
    Ok(())
}

#[test]
fn a_field_and_a_facet_of_one_id_are_told_apart(rt: HostRuntime) -> Result<(), Fail> {
    let cases = [
        ("{\"field\":{\"name\":\"a\",\"create\":2,\"update\":2}}", ""),
        (
            "{\"field\":{\"name\":\"b\",\"create\":2,\"update\":4,\"provides\":[{\"facet\":\"tabSize\",\"rule\":2}]}}",
            "{\"no\":{\"code\":\"WrongShape\",\"id\":\"b\"}}\n",
        ),
        (
            "{\"field\":{\"name\":\"b\",\"create\":2,\"update\":2,\"provides\":[{\"facet\":\"tabSize\",\"rule\":4}]}}",
            "{\"no\":{\"code\":\"WrongShape\",\"id\":\"tabSize\"}}\n",
        ),
    ];
    assert!(rt; first_wrong(rt.alloc(), &cases)? == cases.len());
    Ok(())
}

#[test]
fn inverses_that_do_not_fit_are_refused(rt: HostRuntime) -> Result<(), Fail> {
    let cases = [
        ("{\"effect\":{\"name\":\"a\",\"map\":1}}", ""),
        ("{\"effect\":{\"name\":\"b\",\"map\":2}}", ""),
        ("{\"effect\":{\"name\":\"c\",\"map\":1}}", ""),
        (
            "{\"inverse\":{\"effect\":\"a\",\"back\":\"b\"}}",
            "{\"no\":{\"back\":\"b\",\"code\":\"BadInverse\",\"effect\":\"a\"}}\n",
        ),
        ("{\"inverse\":{\"effect\":\"b\",\"back\":\"b\"}}", ""),
        ("{\"inverse\":{\"effect\":\"a\",\"back\":\"c\"}}", ""),
        (
            "{\"inverse\":{\"effect\":\"c\",\"back\":\"a\"}}",
            "{\"no\":{\"code\":\"InverseTaken\",\"effect\":\"c\"}}\n",
        ),
        (
            "{\"inverse\":{\"effect\":\"a\",\"back\":\"a\"}}",
            "{\"no\":{\"code\":\"InverseTaken\",\"effect\":\"a\"}}\n",
        ),
    ];
    assert!(rt; first_wrong(rt.alloc(), &cases)? == cases.len());
    Ok(())
}
