//! What is wrong with a schema text.
ghost use Rattle.std.specs.Prelude.{◌≡◌, false, Some, All, IfOk, IfSome, OnOk};
ghost use Rattle.fb_findings.specs.Findings.{is_of_ids, offset_in, BeginsWith, IsLineOf, IsPlacedIn};
ghost use Rattle.fb_explain_schemas.specs.Refusals.{refusal, AddsPlaced};

use crate::bad_defaults::push_bad_default;
use crate::broken_rules::{Rule, push_broken, push_broken_ids};
use crate::declared::{declarations_of, is_in_a_union, is_under_an_enum, name_of, type_at};
use crate::layouts::memory_use_of_schema;
use crate::refusals::Which;
use crate::schema_tokens::{name_at, token_at};
use crate::syntax_faults::{another_kind, push_syntax_sentence};
use crate::unsupported::{
    add_others, attribute_sentence, is_unsupported_attribute, unsupported_at,
};
use fb_declare::{SchemaFault, SchemaTextFault};
use fb_faults::ToolFault;
use fb_findings::{Finding, Note, Source, value_of};
use fb_layout::LayoutFault;
use fb_syntax::Decls;
use std::alloc::{AllocError, Global};

/// What attributes are for.
const USES: &[(&str, &str)] = &[
    (
        "id",
        " may not be here: it takes a number, once, on a field of a table",
    ),
    (
        "deprecated",
        " may not be here: it goes on a field of a table, once, without a value",
    ),
    (
        "required",
        " may not be here: it goes on a table's field that isn't a number or an enum, once, without a value",
    ),
    (
        "force_align",
        " may not be here: it goes on a struct, once, with a power of two from the struct's own alignment to 256",
    ),
    (
        "bit_flags",
        " may not be here: it goes on an enum over an unsigned type, once, without a value",
    ),
    (
        "original_order",
        " may not be here: it goes on a table or struct, once, without a value",
    ),
];

/// What is wrong with an attribute, and what it is for.
fn use_of(attribute: &[u8]) -> &'static str {
    value_of(USES, attribute).unwrap_or(" may not be here")
}

/// Adds what isn't supported at an offset of a text that can be parsed.
fn push_unsupported(note: &mut Note, decls: &Decls<'_>, text: &[u8], offset: u64) {
    let place = offset as usize;
    let token = token_at(text, place);
    if let Some(what) = unsupported_at(text, place) {
        note.push_str(what.sentence);
        return;
    }
    if token == "force_align".as_bytes() {
        note.push_str("'force_align' on a field isn't supported: it goes on a struct");
        return;
    }
    if is_unsupported_attribute(token) {
        note.push_str(attribute_sentence(token));
        return;
    }
    note.push_name(name_at(text, place));
    note.push_str(if is_under_an_enum(decls, offset) {
        " can't be an enum's type: it is an integer type, as ubyte or int"
    } else {
        " is a union, and a vector of unions isn't supported: put the union into a table"
    });
}

fn push_bad_member(note: &mut Note, decls: &Decls<'_>, token: &[u8], offset: u64) {
    note.push_name(token);
    if is_in_a_union(decls, offset) {
        note.push_str(" can't be a member of a union: its members are tables, 255 at most");
        return;
    }
    note.push_str(" can't be in a struct: its fields are numbers, enums and other structs");
}

fn push_bad_root(note: &mut Note, token: &[u8]) {
    if token.is_empty() {
        note.push_str("the text has no root: add 'root_type NAME;' with the name of a table");
        return;
    }
    note.push_name(token);
    note.push_str(" can't be the root: it isn't a table");
}

fn push_named(note: &mut Note, front: &str, token: &[u8], rest: &str) {
    note.push_str(front);
    note.push_name(token);
    note.push_str(rest);
}

/// Adds that an attribute isn't declared, with the declaration.
fn push_undeclared(note: &mut Note, attribute: &[u8]) {
    push_named(
        note,
        "the attribute ",
        attribute,
        " isn't declared: add 'attribute ",
    );
    note.push_cut(attribute);
    note.push_str(";', or remove it");
}

/// The rule that is broken, where it is explained by what names and numbers mean.
fn rule_of(fault: SchemaFault) -> Option<Rule> {
    match fault {
        SchemaFault::DuplicateName(_) => Some(Rule::NamesOnce),
        SchemaFault::UnknownType(_) => Some(Rule::TypesDeclared),
        SchemaFault::IncompleteStruct(_) => Some(Rule::StructsInOrder),
        SchemaFault::BadEnumValue(_) => Some(Rule::EnumNumbers),
        _ => None,
    }
}

/// Adds what is wrong with the declarations of a text.
fn push_schema_sentence(
    note: &mut Note,
    text: &[u8],
    decls: &Decls<'_>,
    offset: u64,
    fault: SchemaFault,
) {
    if let Some(rule) = rule_of(fault) {
        push_broken(note, text, decls, offset, rule);
        return;
    }
    let token = token_at(text, offset as usize);
    let name = name_at(text, offset as usize);
    match fault {
        SchemaFault::BadDefault(_) => push_bad_default(note, decls, name, offset),
        SchemaFault::EmptyStruct(_) => push_named(note, "the struct ", token, " has no field"),
        SchemaFault::BadAttribute(_) => { push_named(note, "the attribute ", token, use_of(token)) }
        SchemaFault::UnknownAttribute(_) => push_undeclared(note, token),
        SchemaFault::Unsupported(_) => push_unsupported(note, decls, text, offset),
        SchemaFault::BadMember(_) => push_bad_member(note, decls, name, offset),
        SchemaFault::BadRoot(_) => push_bad_root(note, name),
        SchemaFault::BadIdentifier(_) => push_named(
            note,
            "the file identifier ",
            token,
            " must have four printable ASCII characters",
        ),
        SchemaFault::DuplicateName(_)
        | SchemaFault::UnknownType(_)
        | SchemaFault::IncompleteStruct(_)
        | SchemaFault::BadEnumValue(_)
        | SchemaFault::BadIds(_)
        | SchemaFault::Memory => {}
    }
}

/// Adds what is wrong with a schema text at an offset. Returns the offset of what is wrong there: of a table's ids the
/// field that has a wrong one.
fn push_refusal(note: &mut Note, text: &[u8], offset: u64, fault: SchemaTextFault) -> u64
    ensures own { is_of_ids fault ≡ false → result ≡ offset }
{
    let fault = match fault {
        SchemaTextFault::Schema(fault) => fault,
        SchemaTextFault::Syntax(fault) => {
            push_syntax_sentence(note, text, offset as usize, fault);
            return offset;
        }
        SchemaTextFault::Layout(_) => return offset,
    };
    let parsed = declarations_of(note.alloc(), text);
    let Some(Some(decls)) = note.keep(parsed) else {
        return offset;
    };
    if let SchemaFault::BadIds(_) = fault {
        return push_broken_ids(note, &decls, offset).unwrap_or(offset);
    }
    push_schema_sentence(note, text, &decls, offset, fault);
    offset
}

/// What a file is that isn't a schema at all, where a text can't be parsed.
fn another_kind_of(text: &[u8], which: Which, fault: SchemaTextFault) -> Option<&'static str> {
    match fault {
        SchemaTextFault::Syntax(_) => another_kind(text, which),
        _ => None,
    }
}

/// What is wrong with a schema text at an offset.
fn finding_at<'s>(
    alloc: Global,
    source: Source<'s>,
    which: Which,
    offset: u64,
    fault: SchemaTextFault,
) -> Result<Finding<'s>, AllocError>
    ensures fault { IfOk result (λ f. f.fault ≡ refusal which fault) }
    ensures place { IfOk result (λ f. is_of_ids fault ≡ false → offset_in f.place ≡ Some offset) }
    ensures line { IfOk result (λ f. IfSome f.place (IsLineOf source.entry.bytes.now)) }
{
    let refusal = which.refusal(fault);
    let mut note = Note::new(alloc);
    if let Some(what) = another_kind_of(source.bytes, which, fault) {
        note.push_str(what);
        return Finding::in_file(refusal, source.path, Some(offset), note);
    }
    let at = push_refusal(&mut note, source.bytes, offset, fault);
    Finding::in_text(refusal, source, at, note)
}

/// Adds which type takes too much. Returns the offset of its name.
fn push_layout_sentence(note: &mut Note, decls: &Decls<'_>, fault: SchemaTextFault) -> Option<u64> {
    let what = match fault {
        SchemaTextFault::Layout(LayoutFault::StructTooBig(_)) => " takes more than 65535 bytes",
        _ =>
            " is too wide: a table's fields take 65535 bytes together at most, in 32765 slots at most",
    };
    let (name, at) = name_of(type_at(decls, fault.owner()?.0)?);
    note.push_name(name.as_bytes());
    note.push_str(what);
    Some(at)
}

/// What is wrong with the size of a type.
fn layout_finding<'s>(
    alloc: Global,
    source: Source<'s>,
    refusal: ToolFault,
    fault: SchemaTextFault,
) -> Result<Finding<'s>, AllocError>
    ensures fault { IfOk result (λ f. f.fault ≡ refusal) }
    ensures line { IfOk result (λ f. IfSome f.place (IsLineOf source.entry.bytes.now)) }
{
    let mut note = Note::new(alloc);
    let at = match declarations_of(alloc, source.bytes)? {
        Some(decls) => push_layout_sentence(&mut note, &decls, fault),
        None => None,
    };
    match at {
        Some(at) => Finding::in_text(refusal, source, at, note),
        None => Ok(Finding::of(alloc, refusal)),
    }
}

/// Whether other places of a text are listed too: all at which something isn't supported.
fn lists_others(text: &[u8], offset: u64, which: Which, fault: SchemaTextFault) -> bool {
    matches!(fault, SchemaTextFault::Schema(SchemaFault::Unsupported(_)))
        || another_kind_of(text, which, fault).is_none()
            && unsupported_at(text, offset as usize).is_some()
}

/// The finding of the refusal itself.
fn first_finding<'s>(
    alloc: Global,
    source: Source<'s>,
    which: Which,
    fault: SchemaTextFault,
) -> Result<Finding<'s>, AllocError>
    ensures fault { IfOk result (λ f. f.fault ≡ refusal which fault) }
    ensures placed { IfOk result (IsPlacedIn source.entry.bytes.now) }
{
    if let Some(what) = memory_use_of_schema(fault) {
        return Finding::of_memory(alloc, which.refusal(fault), what);
    }
    match fault.offset() {
        Some(offset) => finding_at(alloc, source, which, offset, fault),
        None => layout_finding(alloc, source, which.refusal(fault), fault),
    }
}

/// Adds all else that isn't supported, where a text is refused by what isn't supported.
#[tactic(auto, using(crate::proofs::Placed::adds_none))]
fn add_unsupported<'s>(
    findings: &mut Vec<Finding<'s>>,
    alloc: Global,
    source: Source<'s>,
    which: Which,
    fault: SchemaTextFault,
) -> Result<(), AllocError>
    ensures { OnOk result (AddsPlaced source.entry.bytes.now findings.old.items findings.new.items) }
{
    match fault.offset() {
        Some(offset) if lists_others(source.bytes, offset, which, fault) => {
            add_others(findings, alloc, source, which, offset as usize)
        }
        _ => Ok(()),
    }
}

/// What is wrong with a schema text: first that by which it is refused. Where that isn't supported, all else that isn't
/// supported follows.
pub fn schema_findings<'s>(
    alloc: Global,
    source: Source<'s>,
    which: Which,
    fault: SchemaTextFault,
) -> Result<Vec<Finding<'s>>, AllocError>
    ensures first { IfOk result (λ list. BeginsWith (refusal which fault) list.items) }
    ensures places { IfOk result (λ list. All (IsPlacedIn source.entry.bytes.now) list.items) }
{
    let mut findings = Vec::new(alloc);
    findings.push(first_finding(alloc, source, which, fault)?)?;
    add_unsupported(&mut findings, alloc, source, which, fault)?;
    Ok(findings)
}
