//! The root and the file identifier: what is wrong with them.
ghost use Rattle.std.specs.Prelude.{◌≡◌};
ghost use Rattle.std.specs.List.{list_all};
ghost use Rattle.std.specs.Option.{option_copied};
ghost use Rattle.fb_declare.specs.Faults.{least_of};
ghost use Rattle.fb_declare.specs.FaultRows.{root_faults, is_printable, identifier_faults};

use crate::faults::{SchemaFault, earlier_fault, fault_if};
use crate::field_faults::use_fault;
use fb_resolve::{Meaning, RootRead, is_table};
use fb_syntax::Text;

/// The least fault of the root.
#[tactic(auto, using(crate::proofs::Least::least_of_append))]
pub(crate) fn root_fault(
    text_len: u64,
    root: Option<&RootRead<'_, '_>>,
    meaning: Meaning,
) -> Option<SchemaFault>
    ensures { result ≡ least_of (root_faults text_len (option_copied root.entry) meaning) }
{
    let Some(root) = root else {
        return Some(SchemaFault::BadRoot(text_len));
    };
    let name = root.name;
    let bad_root = fault_if(!is_table(meaning), SchemaFault::BadRoot(name.at()));
    earlier_fault(use_fault(meaning, name.at()), bad_root)
}

fn are_printable(text: &[u8]) -> bool
    ensures { result ≡ list_all is_printable text.now }
{
    text.iter().all(|byte| 32 <= *byte && *byte <= 126)
}

/// A file identifier that isn't four printable bytes.
pub(crate) fn identifier_fault(identifier: Option<&Text<'_>>) -> Option<SchemaFault>
    ensures { result ≡ least_of (identifier_faults (option_copied identifier.entry)) }
{
    let text = identifier?;
    let bytes = text.text.as_bytes();
    let is_right = bytes.len() == 4 && are_printable(bytes);
    fault_if(!is_right, SchemaFault::BadIdentifier(text.at))
}
