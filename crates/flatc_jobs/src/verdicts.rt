//! What a job finds, with the flags of its line.
ghost use Rattle.std.specs.Prelude.{◌≡◌, ◌<◌, Bool, IfErr, IfOk, List, MatchResult, OnOk};
ghost use Rattle.flatc_files.specs.Runs.{IsStatusOf, status_of};
ghost use Rattle.flatc_jobs.specs.Verdicts.{Conform, IsConformRefused, IsHeld, IsRefused, conforms_line, verdict_of};
ghost use Rattle.flatc_tool.specs.Encodes.{IsOfJson};
ghost use Rattle.flatc_tool.specs.Jobs.{BinaryRefused, IsBinary, IsNotMemory, MayBeBinary};
ghost use Rattle.flatc_tool.specs.Options.{usual_limits};

use crate::flags::{Flags, limits};
use flatc_cli::Verb;
use flatc_files::RunStatus;
use flatc_tool::{
    Entries, Layout, ToolFault, conform_names, conform_texts, encode_plan, verify_framed,
};
use std::alloc::Global;

/// That a buffer holds a value.
pub fn verified(layout: &Layout, bytes: &[u8], flags: Flags) -> Result<(), ToolFault>
    ensures held { OnOk result (IsHeld flags layout.now bytes.now) }
    ensures refused { IfErr result (IsRefused flags layout.now bytes.now) }
    ensures exact { IfErr result (λ _. ¬ IsHeld flags layout.now bytes.now) }
{
    let raw = flags.raw_binary;
    let prefixed = flags.form.size_prefixed;
    match verify_framed(layout, bytes, limits(), raw, prefixed, &mut Entries::new()) {
        Ok(_) => Ok(()),
        Err(fault) => Err(ToolFault::Read(fault)),
    }
}

/// The buffer of a JSON text, which is freed once its value is noted. A text that isn't JSON, or whose meaning breaks a
/// rule, stays as it is.
pub fn encoded(
    alloc: Global,
    layout: &Layout,
    json: &mut Vec<u8>,
    flags: Flags,
) -> Result<Vec<u8>, ToolFault>
    ensures binary { IfOk result (λ b. IsBinary flags.form.size_prefixed layout.now json.old.items usual_limits
        flags.unknown_json b.items) }
    ensures refused { IfErr result (BinaryRefused flags.form.size_prefixed layout.now json.old.items
        usual_limits flags.unknown_json) }
    ensures exact { IfErr result (λ f. IsNotMemory f → ¬ MayBeBinary flags.form.size_prefixed layout.now
        json.old.items usual_limits flags.unknown_json) }
    ensures kept { IfErr result (λ f. IsOfJson f → json.new.items ≡ json.old.items) }
{
    match encode_plan(alloc, layout, json, &flags.encode_options()) {
        Ok(plan) => Ok(plan.finish()),
        Err(fault) => Err(fault),
    }
}

/// That a new schema text reads the data of an old one, and with `names` its JSON texts too.
pub fn compared(alloc: Global, old: &[u8], new: &[u8], names: bool) -> Result<(), ToolFault>
    ensures conforms { OnOk result (Conform names old.now new.now) }
    ensures refused { IfErr result (IsConformRefused names old.now new.now) }
    ensures exact { IfErr result (λ f. IsNotMemory f → ¬ Conform names old.now new.now) }
{
    if names {
        conform_names(alloc, old, new)
    } else {
        conform_texts(alloc, old, new)
    }
}

/// What is printed once all inputs of a verb are done.
pub fn verdict_of(verb: Verb) -> &'static str
    ensures { result.now ≡ verdict_of verb }
{
    match verb {
        Verb::Check { .. } => "ok\n",
        Verb::Binary { .. } => "",
        Verb::Json { .. } => "",
    }
}

/// What is printed where a new schema conforms to an old one, or each version of a chain to the one before it.
pub fn conforms_line() -> &'static str
    ensures { result.now ≡ conforms_line }
{
    "conforms\n"
}

/// The text that a run over many inputs ends with; the status instead where one of them was refused.
fn end_with(text: &'static str, status: RunStatus) -> Result<&'static str, u8>
    ensures text { IfOk result (λ end. end.now ≡ text.now) }
    ensures status { (done : List Bool) → IsStatusOf status done → MatchResult result (λ _. status_of done ≡ 0)
        (λ code. (code ≡ status_of done) × (0 < code)) }
{
    match status.code() {
        0 => Ok(text),
        code => Err(code),
    }
}

/// What is printed at the end of a run over many inputs; the status instead where one of them was refused.
pub fn end_of(verb: Verb, status: RunStatus) -> Result<&'static str, u8>
    ensures text { IfOk result (λ text. text.now ≡ verdict_of verb) }
    ensures status { (done : List Bool) → IsStatusOf status done → MatchResult result (λ _. status_of done ≡ 0)
        (λ code. (code ≡ status_of done) × (0 < code)) }
{
    end_with(verdict_of(verb), status)
}

/// What is printed at the end of a chain; the status instead where a version or a step was refused.
pub fn chain_end(status: RunStatus) -> Result<&'static str, u8>
    ensures text { IfOk result (λ text. text.now ≡ conforms_line) }
    ensures status { (done : List Bool) → IsStatusOf status done → MatchResult result (λ _. status_of done ≡ 0)
        (λ code. (code ≡ status_of done) × (0 < code)) }
{
    end_with(conforms_line(), status)
}
