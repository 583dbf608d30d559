// Lines that are accepted.
use crate::playing::{first_wrong, named};
use cm_plain::Str;
use names::{Valued, Values, found};
use registry::IdSort;
use std::alloc::{AllocError, Global};
use std::test::Fail;

#[test]
fn each_command_declares(rt: HostRuntime) -> Result<(), Fail> {
    let cases = [
        ("{\"effect\":{\"name\":\"e\",\"map\":1}}", ""),
        ("{\"effect\":{\"name\":\"u\",\"map\":1}}", ""),
        ("{\"inverse\":{\"effect\":\"e\",\"back\":\"u\"}}", ""),
        ("{\"facet\":{\"name\":\"f\",\"combine\":1}}", ""),
        ("{\"compartment\":{\"name\":\"c\"}}", ""),
        (
            "{\"input\":{\"name\":\"i\",\"facet\":\"f\",\"value\":[1]}}",
            "",
        ),
        (
            "{\"field\":{\"name\":\"n\",\"create\":3,\"update\":2,\"reads\":[\"doc\",\"selection\",\"f\",\"history\"],\"listens\":[\"e\",\"note\"],\"provides\":[{\"facet\":\"f\"}]}}",
            "",
        ),
        (
            "{\"compute\":{\"name\":\"k\",\"facet\":\"f\",\"rule\":4,\"deps\":[\"n\",\"doc\"]}}",
            "",
        ),
        (
            "{\"compute\":{\"name\":\"m\",\"facet\":\"f\",\"rule\":1,\"deps\":[\"doc\"],\"many\":true}}",
            "",
        ),
        (
            "{\"from\":{\"name\":\"o\",\"facet\":\"f\",\"field\":\"n\"}}",
            "",
        ),
        (
            "{\"init\":{\"name\":\"w\",\"field\":\"n\",\"value\":7}}",
            "",
        ),
        (
            "{\"group\":{\"name\":\"g\",\"of\":[\"i\",\"n\",\"history\",\"i\"]}}",
            "",
        ),
        (
            "{\"prec\":{\"name\":\"p\",\"at\":\"high\",\"of\":\"g\"}}",
            "",
        ),
        (
            "{\"slot\":{\"name\":\"s\",\"compartment\":\"c\",\"of\":\"p\"}}",
            "",
        ),
        (
            "{\"facet\":{\"name\":\"h\",\"combine\":5,\"enables\":[\"s\",\"n\"]}}",
            "",
        ),
    ];
    assert!(rt; first_wrong(rt.alloc(), &cases)? == cases.len());
    Ok(())
}

#[test]
fn what_is_predeclared_has_its_name(rt: HostRuntime) -> Result<(), Fail> {
    let cases = [
        (
            "{\"input\":{\"name\":\"a\",\"facet\":\"saveSeparator\",\"value\":\"\\r\\n\"}}",
            "",
        ),
        (
            "{\"input\":{\"name\":\"b\",\"facet\":\"allowMultipleSelections\",\"value\":true}}",
            "",
        ),
        (
            "{\"input\":{\"name\":\"c\",\"facet\":\"tabSize\",\"value\":16}}",
            "",
        ),
        (
            "{\"input\":{\"name\":\"d\",\"facet\":\"readOnly\",\"value\":false}}",
            "",
        ),
        (
            "{\"input\":{\"name\":\"e\",\"facet\":\"changeFilter\",\"value\":3}}",
            "",
        ),
        (
            "{\"input\":{\"name\":\"f\",\"facet\":\"transactionFilter\",\"value\":4}}",
            "",
        ),
        (
            "{\"input\":{\"name\":\"g\",\"facet\":\"transactionExtender\",\"value\":3}}",
            "",
        ),
        (
            "{\"input\":{\"name\":\"h\",\"facet\":\"decorations\",\"value\":{\"ranges\":[{\"kind\":\"mark\",\"from\":0,\"to\":2},{\"kind\":\"widget\",\"from\":1,\"side\":-10000},{\"kind\":\"replace\",\"from\":1,\"to\":3},{\"kind\":\"line\",\"from\":9}]}}}",
            "",
        ),
        (
            "{\"input\":{\"name\":\"i\",\"facet\":\"historyConfig\",\"value\":[100,500]}}",
            "",
        ),
        (
            "{\"input\":{\"name\":\"j\",\"facet\":\"filterData\",\"value\":[0,2]}}",
            "",
        ),
        ("{\"group\":{\"name\":\"k\",\"of\":[\"history\"]}}", ""),
    ];
    assert!(rt; first_wrong(rt.alloc(), &cases)? == cases.len());
    Ok(())
}

#[test]
fn names_are_kept_in_one_space(rt: HostRuntime) -> Result<(), Fail> {
    let none: [&str; 0] = [];
    assert!(rt; named(rt.alloc(), &none)?.len() == 14);
    let lines = [
        "{\"facet\":{\"name\":\"f\",\"combine\":1}}",
        "{\"facet\":{\"name\":\"f\",\"combine\":1}}",
        "{\"facet\":{\"name\":\"g\",\"combine\":99}}",
        "{\"inverse\":{\"effect\":\"note\",\"back\":\"note\"}}",
        "{\"facet\":{\"name\":\"g\",\"combine\":1}}",
    ];
    assert!(rt; named(rt.alloc(), &lines)?.len() == 16);
    Ok(())
}

/// The lines that the names of ids are looked up after.
const LINES: [&str; 5] = [
    "{\"facet\":{\"name\":\"f\",\"combine\":1}}",
    "{\"effect\":{\"name\":\"e\"}}",
    "{\"field\":{\"name\":\"n\",\"create\":2,\"update\":2,\"provides\":[{\"facet\":\"f\"}]}}",
    "{\"compartment\":{\"name\":\"c\"}}",
    "{\"group\":{\"name\":\"g\",\"of\":[\"n\"]}}",
];

/// Whether this is the name of the id after those lines; an empty one stands for none.
fn is_name(alloc: Global, sort: IdSort, id: u32, want: &str) -> Result<bool, AllocError> {
    let names = named(alloc, &LINES)?;
    match names.name_of(sort, id) {
        None => Ok(want.len() == 0),
        Some(name) => Ok(Str::of(alloc, name)?.text()?.as_str() == want),
    }
}

#[test]
fn ids_have_names(rt: HostRuntime) -> Result<(), Fail> {
    let cases = [
        (IdSort::Facet, 0, "saveSeparator"),
        (IdSort::Facet, 9, "filterData"),
        (IdSort::Facet, 10, "f"),
        (IdSort::Facet, 11, ""),
        (IdSort::Effect, 0, "note"),
        (IdSort::Effect, 1, "e"),
        (IdSort::Field, 0, "history"),
        (IdSort::Field, 1, "n"),
        (IdSort::Compartment, 0, "c"),
        (IdSort::Node, 0, "history"),
        (IdSort::Node, 1, ""),
        (IdSort::Node, 2, "n"),
        (IdSort::Node, 3, "g"),
    ];
    for (sort, id, name) in cases {
        assert!(rt; is_name(rt.alloc(), sort, id, name)?, "{name}");
    }
    Ok(())
}

/// What has a value and this name after those lines, from 0 for a facet and from 100 for a field.
fn valued(alloc: Global, name: &str) -> Result<Option<u32>, AllocError> {
    let names = named(alloc, &LINES)?;
    let name = Str::of_text(alloc, name)?;
    match found::<Values>(&names, &name) {
        Ok(Valued::Facet(id)) => Ok(Some(id)),
        Ok(Valued::Field(id)) => Ok(id.checked_add(100)),
        Err(_) => Ok(None),
    }
}

#[test]
fn facets_and_fields_have_values(rt: HostRuntime) -> Result<(), Fail> {
    let cases = [
        ("tabSize", Some(2)),
        ("f", Some(10)),
        ("history", Some(100)),
        ("n", Some(101)),
        ("doc", None),
        ("selection", None),
        ("note", None),
        ("g", None),
        ("q", None),
    ];
    for (name, want) in cases {
        assert!(rt; valued(rt.alloc(), name)? == want, "{name}");
    }
    Ok(())
}
