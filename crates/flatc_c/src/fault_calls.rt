//! The calls over faults: name, sentence and explanation.
ghost use Rattle.std.specs.Prelude.{◌≡◌, ◌≢◌, ◌⊎◌, None, IfOk, IsTrue, chars, nat_eq, nat_lt, not, string_bytes};
ghost use Rattle.std.specs.List.{list_all, list_any};
ghost use Rattle.fb_explain_pages.specs.Lines.{IsPage};
ghost use Rattle.fb_faults.specs.FaultTable.{name_of, number_of};
ghost use Rattle.fb_faults.specs.declared.faults.ToolFault.{ToolFault};
ghost use Rattle.flatc_c.specs.Handles.{HasBytes};
ghost use Rattle.flatc_c.specs.Faults.{IsReported, IsTold, is_sentence, name_field};
ghost use Rattle.flatc_c.specs.Settings.{AreSet};

use crate::contents::{clear, give};
use crate::fault_lists::{fault_at, fault_of};
use crate::faults::{Fault, FaultName, padded};
use crate::handles::Bytes;
use crate::options::Options;
use crate::status::{BAD_OPTIONS, NO_FAULT, NO_MEMORY, OK};
use fb_explain::{COLUMNS, Source, Sources, explain};
use flatc_tool::{Place, ToolFault, TypeId};
use std::alloc::{AllocError, Global};

/// The name of the fault that has this number, if a call writes such a fault.
#[unsafe(no_mangle)]
pub extern "C" fn flatc_fault_name(number: u8, name: &mut FaultName) -> bool
    ensures named { IsTrue result → (f : ToolFault) × IsReported f × (number_of f ≡ number)
        × (name.new.text ≡ name_field (name_of f)) }
    ensures unnamed { ¬ IsTrue result → name.new ≡ name.old }
    ensures unknown { ¬ IsTrue result → (f : ToolFault) → IsReported f → number_of f ≢ number }
{
    let place = Place {
        owner: TypeId(0),
        slot: None,
    };
    match fault_at(number, 0, place) {
        Some(fault) => {
            *name = FaultName {
                text: padded(fault.name()),
            };
            true
        }
        None => false,
    }
}

/// Whether a text has a byte that is no blank and no control character.
fn has_word(text: &[u8]) -> bool
    ensures { result ≡ list_any (λ byte. nat_lt 32 byte) text.now }
{
    text.iter().any(|byte| *byte > 32)
}

/// Whether a text has no line feed.
fn is_line(text: &[u8]) -> bool
    ensures { result ≡ list_all (λ byte. not (nat_eq byte 10)) text.now }
{
    text.iter().all(|byte| *byte != 10)
}

/// The sentence of a fault. No clause says what a fault displays, so its name stands in for a text that isn't a line.
fn sentence_of(alloc: Global, fault: ToolFault) -> Result<String, AllocError>
    ensures { IfOk result (λ text. IsTrue (is_sentence (string_bytes text))) }
{
    let sentence = fault.to_string(alloc)?;
    if has_word(sentence.as_bytes()) && is_line(sentence.as_bytes()) {
        return Ok(sentence);
    }
    String::from_str(alloc, fault.name())
}

/// The sentence of a fault: which it is, and where.
#[unsafe(no_mangle)]
pub extern "C" fn flatc_fault_message(alloc: Global, fault: &Fault, out: &mut Bytes) -> u32
    ensures told { (result ≡ 0) → (f : ToolFault) × IsTold fault.now f }
    ensures no_fault { (result ≡ 5) → (f : ToolFault) → IsReported f → ¬ IsTold fault.now f }
    ensures sentence { (result ≡ 0) → HasBytes out.new (λ text. IsTrue (is_sentence text)) }
    ensures status { (result ≡ 0) ⊎ ((result ≡ 2) ⊎ (result ≡ 5)) }
    ensures empty { (result ≢ 0) → out.new.held.value ≡ None }
{
    clear(alloc, out);
    let Some(fault) = fault_of(fault) else {
        return NO_FAULT;
    };
    match sentence_of(alloc, fault) {
        Ok(text) => if give(alloc, out, text.into_bytes()) {
            OK
        } else {
            NO_MEMORY
        },
        Err(_) => NO_MEMORY,
    }
}

/// What the schema and the other input are called in an explanation.
fn source_names(fault: ToolFault) -> (&'static str, &'static str) {
    match fault {
        ToolFault::Breach(_) => ("old schema", "new schema"),
        ToolFault::Read(_) | ToolFault::Text(_) => ("schema", "buffer"),
        _ => ("schema", "JSON"),
    }
}

/// What is wrong and where, in lines for people, as `explain` returns them.
///
/// The texts and options are those of the call that refused.
#[unsafe(no_mangle)]
pub extern "C" fn flatc_explain<'a>(
    alloc: Global,
    fault: &Fault,
    schema: &'a [u8],
    input: &'a [u8],
    options: &Options,
    out: &mut Bytes,
) -> u32
    ensures told { (result ≡ 0) → (f : ToolFault) × IsTold fault.now f }
    ensures no_fault { (result ≡ 5) → (f : ToolFault) → IsReported f → ¬ IsTold fault.now f }
    ensures plain { (result ≡ 0) → HasBytes out.new (λ text. IsPage (chars text)) }
    ensures bad_options { (result ≡ 4) → ¬ AreSet options.now }
    ensures status { (result ≡ 0) ⊎ ((result ≡ 2) ⊎ ((result ≡ 4) ⊎ (result ≡ 5))) }
    ensures empty { (result ≢ 0) → out.new.held.value ≡ None }
{
    clear(alloc, out);
    let Some(limits) = options.limits() else {
        return BAD_OPTIONS;
    };
    let Some(fault) = fault_of(fault) else {
        return NO_FAULT;
    };
    let (schema_name, input_name) = source_names(fault);
    let sources = Sources {
        schema: Source {
            path: schema_name,
            bytes: schema,
        },
        input: Source {
            path: input_name,
            bytes: input,
        },
        limits,
        unknown_json: options.ignores_unknown(),
        raw_binary: options.is_raw(),
        size_prefixed: options.has_prefix(),
        failure: None,
    };
    match explain(alloc, fault, &sources, COLUMNS) {
        Ok(text) => if give(alloc, out, text.into_bytes()) {
            OK
        } else {
            NO_MEMORY
        },
        Err(_) => NO_MEMORY,
    }
}
