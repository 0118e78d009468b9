//! From declarations to a schema.
ghost use Rattle.std.specs.Prelude.{◌≡◌, ◌≢◌, [], IfOk, IfErr, Some, length};
ghost use Rattle.std.specs.Option.{ForSome, option_copied, option_map};
ghost use Rattle.fb_syntax.specs.DeclsRead.{DeclsRead};
ghost use Rattle.fb_schema.specs.Schema.{DeclaredSchema};
ghost use Rattle.fb_declare.specs.declared.faults.SchemaFault.TheVariants.{Memory};
ghost use Rattle.fb_declare.specs.Faults.{least_of};
ghost use Rattle.fb_declare.specs.TypeFaults.{faults_of_outline, faults_of};
ghost use Rattle.fb_declare.specs.Declares.{Gives, Declares, Stands};

use crate::faults::{SchemaFault, earlier_fault};
use crate::name_set::names_met;
use crate::root::{identifier_fault, root_fault};
use crate::types::{types_fault, types_of};
use fb_resolve::{Outline, Resolved, table_of};
use fb_schema::Schema;
use fb_syntax::{Decls, Text};
use std::alloc::{AllocError, Global};

fn identifier_of(identifier: Option<&Text<'_>>) -> Option<[u8; 4]>
    requires { ForSome (option_copied identifier) (λ t. length t.bytes ≡ 4) }
    ensures { result ≡ option_map (λ t. t.bytes) (option_copied identifier.entry) }
{
    let bytes = identifier?.text.as_bytes();
    Some([bytes[0], bytes[1], bytes[2], bytes[3]])
}

/// The least of all faults. The only error is a refused allocation.
fn least_fault(
    alloc: Global,
    resolved: &Resolved<'_, '_, '_>,
) -> Result<Option<SchemaFault>, AllocError>
    ensures { IfOk result (λ f. f ≡ least_of (faults_of_outline resolved.now.outline.now)) }
{
    let outline = resolved.outline;
    let declared = names_met(alloc, outline.key, outline.attributes.as_slice())?;
    let in_types = types_fault(alloc, &declared, resolved)?;
    let root = root_fault(outline.text_len, outline.root.as_ref(), resolved.root);
    let identifier = identifier_fault(outline.identifier);
    Ok(earlier_fault(earlier_fault(in_types, root), identifier))
}

/// The schema that declarations with no fault give. The only error is a refused allocation.
#[tactic(auto, using(crate::proofs::Kept::buildable, crate::proofs::Kept::has_root, crate::proofs::Kept::four_bytes))]
fn build_schema(alloc: Global, resolved: Resolved<'_, '_, '_>) -> Result<Schema, SchemaFault>
    requires { faults_of_outline resolved.outline.now ≡ [] }
    ensures given { IfOk result (Gives resolved.entry.outline.now) }
    ensures fault { IfErr result (λ f. f ≡ Memory) }
{
    let Some(root) = table_of(resolved.root) else {
        unreachable!()
    };
    let outline = resolved.outline;
    let types = types_of(alloc, resolved.types)?;
    Ok(Schema::new(alloc, types, root, identifier_of(outline.identifier))?)
}

/// The schema of what a text declares, or the least of its faults.
#[tactic(auto, using(crate::proofs::Least::least_none))]
fn schema_of_outline(alloc: Global, outline: &Outline<'_, '_>) -> Result<Schema, SchemaFault>
    ensures declared { IfOk result (λ s. (faults_of_outline outline.now ≡ []) × Gives outline.now s) }
    ensures fault { IfErr result (λ f. f ≢ Memory → least_of (faults_of_outline outline.now) ≡ Some f) }
{
    let resolved = Resolved::of(alloc, outline)?;
    if let Some(fault) = least_fault(alloc, &resolved)? {
        return Err(fault);
    }
    build_schema(alloc, resolved)
}

/// The schema that declarations give.
///
/// A refusal tells the fault of least offset and, there, of the lowest number; `Memory` is a
/// refused allocation. The rules are those of "Writing a schema".
pub fn declare(alloc: Global, decls: &Decls<'_>) -> Result<Schema, SchemaFault>
    ensures declared { IfOk result (Declares decls.now) }
    ensures fault { IfErr result (λ f. f ≢ Memory → Stands decls.now f) }
    ensures least { IfErr result (λ f. f ≢ Memory → least_of (faults_of decls.now) ≡ Some f) }
{
    schema_of_outline(alloc, &Outline::of(alloc, decls)?)
}

/// Declarations give at most one schema.
#[tactic(auto, using(crate::proofs::OneSchema::one_declared))]
pub fn one_schema()
    ensures { (d : DeclsRead) (S T : DeclaredSchema) → Declares d S → Declares d T → S ≡ T }
{}
