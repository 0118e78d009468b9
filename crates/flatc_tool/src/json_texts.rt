//! Buffers printed as JSON texts under a layout.
ghost use Rattle.std.specs.Prelude.{◌≡◌, IfOk, IfErr, OnOk, false, string_bytes};
ghost use Rattle.fb_text.specs.Noted.{write_failed, writer_of};
ghost use Rattle.flatc_tool.specs.Jobs.{IsText, MayBeText, TextRefused, IsNotMemory, spacing_of};
ghost use Rattle.flatc_tool.specs.Prints.{IsSent, PrintRefused, TellsFailure};
ghost use Rattle.flatc_tool.specs.Prints.{IfUnwritten, IsOfInput, text_fault};

use crate::laws::layer_laws;
use crate::options::DecodeOptions;
use fb_faults::ToolFault;
use fb_layout::{Layout, layout_is_well_made};
use fb_read::{Entries, verify_framed};
use fb_text::{Noted, Spacing, TextFault, WriteFault, spaced_texts_are_utf8, write_spaced};
use std::alloc::Global;
use std::io::Write;

/// How a text is spaced.
#[inline(always)]
fn spacing_of(compact: bool) -> Spacing
    ensures { result ≡ spacing_of compact }
{
    if compact {
        Spacing::Compact
    } else {
        Spacing::Indented
    }
}

/// Writes the JSON text of the value that a buffer holds under a layout, which may be kept for any
/// number of buffers.
///
/// The bytes are verified before the first byte is written, and no memory is allocated. A write that
/// fails is reported with the count of the bytes before it, all of which are the text's first. A
/// `Noted` may be used again for the next buffer, unless a write failed.
pub fn decode_to<W: Write>(
    layout: &Layout,
    bytes: &[u8],
    options: &DecodeOptions,
    out: &mut Noted<W>,
) -> Result<(), ToolFault>
    requires fresh { write_failed out.old ≡ false }
    ensures printed { OnOk result (IsSent options.now.compact options.now.size_prefixed layout.now bytes.now
        options.now.limits options.now.raw_binary options.now.defaults_json (W.contents (writer_of out.old))
        (W.contents (writer_of out.new))) }
    ensures refused { IfErr result (PrintRefused options.now.compact options.now.size_prefixed layout.now
        bytes.now options.now.limits options.now.raw_binary options.now.defaults_json
        (W.contents (writer_of out.old)) (W.contents (writer_of out.new))) }
    ensures failed { TellsFailure (write_failed out.new) result }
    ensures untouched { IfUnwritten result (out.new ≡ out.old) }
    ensures exact { IfErr result (λ f. IsOfInput f
        → ¬ MayBeText options.now.size_prefixed layout.now bytes.now options.now.limits options.now.raw_binary) }
{
    layer_laws();
    spaced_texts_are_utf8(layout);
    layout_is_well_made(layout);
    let mut entries = Entries::new();
    let view = match verify_framed(
        layout,
        bytes,
        options.limits,
        options.raw_binary,
        options.size_prefixed,
        &mut entries,
    ) {
        Ok(view) => view,
        Err(fault) => return Err(ToolFault::Read(fault)),
    };
    match write_spaced(
        &view,
        options.defaults_json,
        spacing_of(options.compact),
        out,
    ) {
        Ok(()) => Ok(()),
        Err(fault) => Err(ToolFault::Write(fault)),
    }
}

/// A refusal to print to memory: a write fails only where memory runs out.
fn text_fault(fault: ToolFault) -> ToolFault
    ensures { result ≡ text_fault fault }
{
    match fault {
        ToolFault::Write(WriteFault::NoMemberName(place)) => {
            ToolFault::Text(TextFault::NoMemberName(place))
        }
        ToolFault::Write(WriteFault::WriteFailed(_)) => ToolFault::Text(TextFault::Memory),
        _ => fault,
    }
}

/// The JSON text of the value that a buffer holds under a layout, which may be kept for any number of
/// buffers.
///
/// The bytes are checked before a union's code that has no name.
pub fn decode(
    alloc: Global,
    layout: &Layout,
    bytes: &[u8],
    options: &DecodeOptions,
) -> Result<String, ToolFault>
    ensures text { IfOk result (λ s. IsText options.now.compact options.now.size_prefixed layout.now
        bytes.now options.now.limits options.now.raw_binary options.now.defaults_json (string_bytes s)) }
    ensures refused { IfErr result
        (TextRefused options.now.size_prefixed layout.now bytes.now options.now.limits options.now.raw_binary) }
    ensures exact { IfErr result (λ f. IsNotMemory f
        → ¬ MayBeText options.now.size_prefixed layout.now bytes.now options.now.limits options.now.raw_binary) }
{
    let mut out = Noted::over(Vec::new(alloc));
    if let Err(fault) = decode_to(layout, bytes, options, &mut out) {
        return Err(text_fault(fault));
    }
    match String::from_utf8(out.into_inner()) {
        Ok(text) => Ok(text),
        Err(_) => unreachable!(),
    }
}
