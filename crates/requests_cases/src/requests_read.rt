// Lines that are read.
use crate::reading::{are, declaration, is, request};
use cm_plain::Str;
use ext_tree::Precedence;
use requests::{
    Declaration, FieldNames, NamedEffect, ProvidedDeclaration, Request, SpecRequest, Written,
};
use std::alloc::{AllocError, Global};
use std::test::Fail;

/// The command of a line that is read.
fn command_of(alloc: Global, line: &str) -> &'static str {
    match request(alloc, line) {
        Some(found) => asking(&found),
        None => "none",
    }
}

/// The command of a request.
fn asking(found: &Request) -> &'static str {
    match found {
        Request::Declare(declaration) => declaring(declaration),
        Request::Start(_) => "start",
        Request::Open(_) => "open",
        Request::Save(_) => "save",
        Request::Update(_) => "update",
        Request::Do(_) => "do",
        Request::Text => "text",
        Request::Selection => "selection",
        Request::Get(_) => "get",
        Request::Map(_) => "map",
        Request::View(_) => "view",
        Request::Screen => "screen",
        Request::Summary => "summary",
    }
}

/// The command of a declaration.
fn declaring(declaration: &Declaration) -> &'static str {
    match declaration {
        Declaration::Effect(_) => "effect",
        Declaration::Inverse(_) => "inverse",
        Declaration::Facet(_) => "facet",
        Declaration::Field(_) => "field",
        Declaration::Compartment(_) => "compartment",
        Declaration::Input(_) => "input",
        Declaration::Compute(_) => "compute",
        Declaration::From(_) => "from",
        Declaration::Init(_) => "init",
        Declaration::Group(_) => "group",
        Declaration::Prec(_) => "prec",
        Declaration::Slot(_) => "slot",
    }
}

const EACH_COMMAND: &[(&str, &str)] = &[
    ("{\"effect\":{\"name\":\"e\"}}", "effect"),
    ("{\"inverse\":{\"effect\":\"a\",\"back\":\"b\"}}", "inverse"),
    ("{\"facet\":{\"name\":\"f\",\"combine\":1}}", "facet"),
    (
        "{\"field\":{\"name\":\"n\",\"create\":3,\"update\":2,\"reads\":[\"doc\"]}}",
        "field",
    ),
    ("{\"compartment\":{\"name\":\"c\"}}", "compartment"),
    (
        "{\"input\":{\"name\":\"i\",\"facet\":\"f\",\"value\":null}}",
        "input",
    ),
    (
        "{\"compute\":{\"name\":\"i\",\"facet\":\"f\",\"rule\":1,\"deps\":[]}}",
        "compute",
    ),
    (
        "{\"from\":{\"name\":\"i\",\"facet\":\"f\",\"field\":\"n\"}}",
        "from",
    ),
    (
        "{\"init\":{\"name\":\"i\",\"field\":\"n\",\"value\":{\"ranges\":[]}}}",
        "init",
    ),
    ("{\"group\":{\"name\":\"g\",\"of\":[\"i\",\"i\"]}}", "group"),
    (
        "{\"prec\":{\"name\":\"p\",\"at\":\"highest\",\"of\":\"i\"}}",
        "prec",
    ),
    (
        "{\"slot\":{\"name\":\"s\",\"compartment\":\"c\",\"of\":\"i\"}}",
        "slot",
    ),
    ("{\"start\":{}}", "start"),
    ("{\"open\":{\"file\":\"f\"}}", "open"),
    ("{\"save\":{\"file\":\"f\"}}", "save"),
    ("{\"update\":[]}", "update"),
    ("{\"do\":{\"command\":\"undo\"}}", "do"),
    ("{\"text\":{}}", "text"),
    ("{\"selection\":{}}", "selection"),
    ("{\"get\":{\"name\":\"f\"}}", "get"),
    ("{\"map\":{\"doc\":\"\",\"a\":[],\"op\":\"of\"}}", "map"),
    ("{\"view\":{\"rows\":0,\"cols\":0}}", "view"),
    ("{\"screen\":{}}", "screen"),
    ("{\"summary\":{}}", "summary"),
];

/// The place of the first line that is read as another command.
fn first_other(alloc: Global, cases: &[(&str, &str)]) -> usize {
    for i in 0..cases.len() {
        let (line, command) = cases[i];
        if command_of(alloc, line) != command {
            return i;
        }
    }
    cases.len()
}

#[test]
fn each_command_is_read(rt: HostRuntime) {
    assert!(rt; first_other(rt.alloc(), EACH_COMMAND) == EACH_COMMAND.len());
}

/// Whether a line declares a facet f of combiner 5 with these comparers, that is static or not, with so many nodes.
fn is_facet(
    alloc: Global,
    line: &str,
    compare_input: u32,
    compare: u32,
    is_static: bool,
    enables: &[&str],
) -> Result<bool, AllocError> {
    match declaration(alloc, line) {
        Some(Declaration::Facet(facet)) => Ok(
            facet.def.combine == 5
                && facet.def.compare_input == compare_input
                && facet.def.compare == compare
                && facet.def.is_static == is_static
                && is_named(&facet.name, facet.enables.as_slice(), enables)?,
        ),
        _ => Ok(false),
    }
}

/// Whether this is the name f, and these are the nodes.
fn is_named(name: &Str, nodes: &[Str], want: &[&str]) -> Result<bool, AllocError> {
    Ok(is(name, "f")? && are(nodes, want)?)
}

#[test]
fn facets_have_defaults(rt: HostRuntime) -> Result<(), Fail> {
    let bare = "{\"facet\":{\"name\":\"f\",\"combine\":5}}";
    assert!(rt; is_facet(rt.alloc(), bare, 1, 1, false, &[])?);
    let whole =
        "{\"facet\":{\"enables\":[\"a\",\"b\"],\"static\":true,\"compare\":3,\"compareInput\":2,\"combine\":5,\"name\":\"f\"}}";
    assert!(rt; is_facet(rt.alloc(), whole, 2, 3, true, &["a", "b"])?);
    Ok(())
}

/// Whether a line declares a field n of creator 3 and updater 2 with this comparer, these reads and effects, and one input of
/// facet f by this rule, if there is one.
fn is_field(
    alloc: Global,
    line: &str,
    compare: u32,
    reads: &[&str],
    listens: &[&str],
    rule: Option<u32>,
) -> Result<bool, AllocError> {
    match declaration(alloc, line) {
        Some(Declaration::Field(field)) => Ok(
            field.rules.create == 3
                && field.rules.update == 2
                && field.rules.compare == compare
                && has_names(&field.names, reads, listens, rule)?,
        ),
        _ => Ok(false),
    }
}

/// Whether these are the reads and the effects of a field, and one input of facet f by this rule, if there is one.
fn has_names(
    names: &FieldNames,
    reads: &[&str],
    listens: &[&str],
    rule: Option<u32>,
) -> Result<bool, AllocError> {
    Ok(
        provides(names.provides.as_slice(), rule)?
            && are(names.reads.as_slice(), reads)?
            && are(names.listens.as_slice(), listens)?,
    )
}

/// Whether there is one input of facet f by this rule, or none.
fn provides(all: &[ProvidedDeclaration], rule: Option<u32>) -> Result<bool, AllocError> {
    match (all, rule) {
        ([], None) => Ok(true),
        ([provided], Some(rule)) => Ok(provided.rule == rule && is(&provided.facet, "f")?),
        _ => Ok(false),
    }
}

#[test]
fn fields_have_defaults(rt: HostRuntime) -> Result<(), Fail> {
    let bare = "{\"field\":{\"name\":\"n\",\"create\":3,\"update\":2}}";
    assert!(rt; is_field(rt.alloc(), bare, 1, &[], &[], None)?);
    let whole =
        "{\"field\":{\"name\":\"n\",\"create\":3,\"update\":2,\"compare\":3,\"reads\":[\"doc\"],\"listens\":[\"e\"],\"provides\":[{\"facet\":\"f\"}]}}";
    assert!(rt; is_field(rt.alloc(), whole, 3, &["doc"], &["e"], Some(4))?);
    let ruled =
        "{\"field\":{\"name\":\"n\",\"create\":3,\"update\":2,\"provides\":[{\"facet\":\"f\",\"rule\":6}]}}";
    assert!(rt; is_field(rt.alloc(), ruled, 1, &[], &[], Some(6))?);
    Ok(())
}

/// The precedence of a wrapper of a, from 0 for the highest.
fn level_in(declared: &Declaration) -> Result<Option<usize>, AllocError> {
    match declared {
        Declaration::Prec(prec) => {
            if is(&prec.of, "a")? {
                Ok(Some(prec.at.level()))
            } else {
                Ok(None)
            }
        }
        _ => Ok(None),
    }
}

/// The precedence of a wrapper p of a that a line declares, from 0 for the highest.
fn level_of(alloc: Global, at: &str) -> Result<Option<usize>, AllocError> {
    let line = format!(in alloc; "{{\"prec\":{{\"name\":\"p\",\"at\":\"{at}\",\"of\":\"a\"}}}}")?;
    match declaration(alloc, line.as_str()) {
        Some(declared) => level_in(&declared),
        None => Ok(None),
    }
}

const LEVELS: &[&str] = &["highest", "high", "default", "low", "lowest"];

/// The first level that is read otherwise.
fn first_other_level(alloc: Global, levels: &[&str]) -> Result<usize, AllocError> {
    for level in 0..levels.len() {
        if level_of(alloc, levels[level])? != Some(level) {
            return Ok(level);
        }
    }
    Ok(levels.len())
}

#[test]
fn precedences_are_read(rt: HostRuntime) -> Result<(), Fail> {
    assert!(rt; first_other_level(rt.alloc(), LEVELS)? == LEVELS.len());
    assert!(rt; Precedence::Lowest.level() == 4);
    Ok(())
}

/// The form of the only effect of an update, and the names that stand in it.
fn is_effect(alloc: Global, effect: &str, form: &str, names: &[&str]) -> Result<bool, AllocError> {
    let line = format!(in alloc; "{{\"update\":[{{\"effects\":[{effect}]}}]}}")?;
    match request(alloc, line.as_str()) {
        Some(found) => updates_by(&found, form, names),
        None => Ok(false),
    }
}

/// Whether a request is an update whose only effect is of this form and has these names.
fn updates_by(found: &Request, form: &str, names: &[&str]) -> Result<bool, AllocError> {
    match found {
        Request::Update(specs) => is_only_effect(specs.as_slice(), form, names),
        _ => Ok(false),
    }
}

/// Whether the only effect of the only spec is of this form and has these names.
fn is_only_effect(specs: &[SpecRequest], form: &str, names: &[&str]) -> Result<bool, AllocError> {
    match specs {
        [spec] => match spec.effects.as_slice() {
            [effect] => has_form(effect, form, names),
            _ => Ok(false),
        },
        _ => Ok(false),
    }
}

/// Whether an effect is of this form and has these names.
fn has_form(effect: &NamedEffect, form: &str, names: &[&str]) -> Result<bool, AllocError> {
    match (effect, names) {
        (NamedEffect::Kind { effect, value }, [kind]) => {
            Ok(form == "effect" && is(effect, kind)? && value.depth() == 1)
        }
        (NamedEffect::Reconfigure { compartment, to }, [first, second]) => {
            Ok(form == "reconfigure" && is(compartment, first)? && is(to, second)?)
        }
        (NamedEffect::Root(nodes), _) => Ok(form == "root" && are(nodes.as_slice(), names)?),
        (NamedEffect::Append(node), [first]) => Ok(form == "append" && is(node, first)?),
        _ => Ok(false),
    }
}

#[test]
fn effects_of_all_forms_are_read(rt: HostRuntime) -> Result<(), Fail> {
    let kind = "{\"effect\":\"e\",\"value\":1}";
    assert!(rt; is_effect(rt.alloc(), kind, "effect", &["e"])?);
    let reconfigure = "{\"reconfigure\":{\"compartment\":\"c\",\"to\":\"n\"}}";
    assert!(rt; is_effect(rt.alloc(), reconfigure, "reconfigure", &["c", "n"])?);
    let root = "{\"root\":[\"a\",\"b\",\"a\"]}";
    assert!(rt; is_effect(rt.alloc(), root, "root", &["a", "b", "a"])?);
    assert!(rt; is_effect(rt.alloc(), "{\"append\":\"n\"}", "append", &["n"])?);
    Ok(())
}

/// Whether `start` with these extensions reads them.
fn starts_with(alloc: Global, line: &str, extensions: &[&str]) -> Result<bool, AllocError> {
    match request(alloc, line) {
        Some(found) => has_extensions(&found, extensions),
        None => Ok(false),
    }
}

/// Whether a request is for a state with these extensions.
fn has_extensions(found: &Request, extensions: &[&str]) -> Result<bool, AllocError> {
    match found {
        Request::Start(state) => are(state.extensions.as_slice(), extensions),
        _ => Ok(false),
    }
}

#[test]
fn extensions_are_read(rt: HostRuntime) -> Result<(), Fail> {
    assert!(rt; starts_with(rt.alloc(), "{\"start\":{\"doc\":\"a\"}}", &[])?);
    let line = "{\"start\":{\"doc\":\"ab\",\"selection\":[[1,2]],\"extensions\":[\"b\",\"a\"]}}";
    assert!(rt; starts_with(rt.alloc(), line, &["b", "a"])?);
    Ok(())
}

/// How deep the plain value is that a line gives an input, and none where it gives ranges.
fn depth_of(alloc: Global, value: &str) -> Result<Option<u64>, AllocError> {
    let line = format!(in alloc;
        "{{\"input\":{{\"name\":\"n\",\"facet\":\"f\",\"value\":{value}}}}}"
    )?;
    match declaration(alloc, line.as_str()) {
        Some(declared) => Ok(depth_in(&declared)),
        None => Ok(None),
    }
}

/// How deep the plain value of an input is, if it has one.
fn depth_in(declared: &Declaration) -> Option<u64> {
    match declared {
        Declaration::Input(input) => match &input.value {
            Written::Plain(plain) => Some(plain.depth() as u64),
            Written::Ranges(_) => None,
        },
        _ => None,
    }
}

#[test]
fn plain_values_are_read(rt: HostRuntime) -> Result<(), Fail> {
    assert!(rt; depth_of(rt.alloc(), "null")? == Some(1));
    assert!(rt; depth_of(rt.alloc(), "[[0],2]")? == Some(3));
    assert!(rt; depth_of(rt.alloc(), "[[[[[[[[[[[[[[[[]]]]]]]]]]]]]]]]")? == Some(16));
    assert!(rt; depth_of(rt.alloc(), "{\"ranges\":[]}")? == None);
    Ok(())
}
