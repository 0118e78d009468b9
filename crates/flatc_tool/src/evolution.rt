//! The comparison of an old schema text with a new one.
ghost use Rattle.std.specs.Prelude.{OnOk, IfOk, IfErr};
ghost use Rattle.fb_conform.specs.Conforms.{Conforms};
ghost use Rattle.fb_declare.specs.SchemaTexts.{IsAccepted};
ghost use Rattle.flatc_tool.specs.Evolution.{TextsConform, ConformRefused, TextsKeepNames, NamesRefused};
ghost use Rattle.flatc_tool.specs.Jobs.{IsNotMemory};

use crate::laws::layer_laws;
use fb_conform::{conform, moved_names};
use fb_declare::schema_of;
use fb_faults::ToolFault;
use fb_layout::Layout;
use std::alloc::Global;

/// The layouts of an old schema text and of a new one that conforms to it.
fn conforming(alloc: Global, old: &[u8], new: &[u8]) -> Result<(Layout, Layout), ToolFault>
    ensures conforms { IfOk result (λ both. IsAccepted old.now both.0 × IsAccepted new.now both.1
        × Conforms both.0 both.1) }
    ensures refused { IfErr result (ConformRefused old.now new.now) }
    ensures exact { IfErr result (λ f. IsNotMemory f → ¬ TextsConform old.now new.now) }
{
    layer_laws();
    let was = match schema_of(alloc, old) {
        Ok(layout) => layout,
        Err(fault) => return Err(ToolFault::Older(fault)),
    };
    let is = match schema_of(alloc, new) {
        Ok(layout) => layout,
        Err(fault) => return Err(ToolFault::Newer(fault)),
    };
    match conform(&was, &is) {
        Ok(()) => Ok((was, is)),
        Err(breach) => Err(ToolFault::Breach(breach)),
    }
}

/// Whether a new schema text conforms to an old one: new programs then read what old ones wrote, and
/// old programs what new ones write.
///
/// The old text is checked first. The breach that is reported is the first: the root's, the
/// identifier's, then the old types' by number, in a type its slots' by number.
pub fn conform_texts(alloc: Global, old: &[u8], new: &[u8]) -> Result<(), ToolFault>
    ensures conforms { OnOk result (TextsConform old.now new.now) }
    ensures refused { IfErr result (ConformRefused old.now new.now) }
    ensures exact { IfErr result (λ f. IsNotMemory f → ¬ TextsConform old.now new.now) }
{
    match conforming(alloc, old, new) {
        Ok(_) => Ok(()),
        Err(fault) => Err(fault),
    }
}

/// Whether a new schema text conforms to an old one and keeps its names: what is still called as it was is what it was,
/// so that JSON texts and generated code, which go by names, mean the same too.
///
/// It refuses what `conform_texts` refuses, and else the first name that stands for another field or member. Names may
/// be given up: a field may be renamed where it is.
pub fn conform_names(alloc: Global, old: &[u8], new: &[u8]) -> Result<(), ToolFault>
    ensures conforms { OnOk result (TextsKeepNames old.now new.now) }
    ensures refused { IfErr result (NamesRefused old.now new.now) }
    ensures exact { IfErr result (λ f. IsNotMemory f → ¬ TextsKeepNames old.now new.now) }
{
    layer_laws();
    let layouts = match conforming(alloc, old, new) {
        Ok(layouts) => layouts,
        Err(fault) => return Err(fault),
    };
    let Ok(moved) = moved_names(alloc, &layouts.0, &layouts.1) else {
        return Err(ToolFault::Memory);
    };
    match moved.first() {
        Some(first) => Err(ToolFault::NameMoved(*first)),
        None => Ok(()),
    }
}
