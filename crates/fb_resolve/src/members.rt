//! Members of unions.
ghost use Rattle.std.specs.Prelude.{◌≡◌, IfOk, is_some, string_bytes};
ghost use Rattle.std.specs.Option.{option_map};
ghost use Rattle.std.specs.Cow.{cow_str_bytes};
ghost use Rattle.fb_resolve.specs.MembersRead.{with_underscores, member_name, table_of, member_read};

use crate::meanings::Meaning;
use crate::resolved::ResolvedMember;
use fb_schema::{Kind, TypeId};
use fb_syntax::UnionMember;
use std::alloc::{AllocError, Global};
use std::borrow::CowStr;

/// The table of a use.
pub fn table_of(meaning: Meaning) -> Option<TypeId>
    ensures { option_map (λ t. t.0) result ≡ table_of meaning }
{
    match meaning {
        Meaning::Known(Kind::Table(table)) => Some(table),
        _ => None,
    }
}

/// Whether a use is that of a table.
pub fn is_table(meaning: Meaning) -> bool
    ensures { result ≡ is_some (table_of meaning) }
{
    matches!(meaning, Meaning::Known(Kind::Table(_)))
}

/// A table's name with underscores for dots, borrowed if it has none.
fn underscored(alloc: Global, name: &str) -> Result<CowStr<'_>, AllocError>
    ensures { IfOk result (λ s. cow_str_bytes s ≡ with_underscores name.now) }
{
    let Some(_) = name.split_once('.') else {
        return Ok(CowStr::Borrowed(name));
    };
    let mut underscored = String::new(alloc);
    let mut rest = name;
    while let Some((word, behind)) = rest.split_once('.') {
        underscored.push_str(word)?;
        underscored.push_str("_")?;
        rest = behind;
    }
    underscored.push_str(rest)?;
    Ok(CowStr::Owned(underscored))
}

/// The name of a member, its alias or that of its table, and the offset of its first word. The only
/// error is a refused allocation.
pub(crate) fn member_name<'d>(
    alloc: Global,
    member: &'d UnionMember<'_>,
) -> Result<(CowStr<'d>, u64), AllocError>
    ensures { IfOk result
        (λ n. record { bytes = cow_str_bytes n.0; at = n.1 } ≡ member_name member.now) }
{
    match &member.alias {
        Some(alias) => Ok((CowStr::Borrowed(alias.text), alias.at)),
        None => {
            let text = underscored(alloc, member.table.as_str())?;
            Ok((text, member.table.at()))
        }
    }
}

/// A member's name and its table; a member at fault stands as type 0. The only error is a refused
/// allocation.
pub fn member_read(
    alloc: Global,
    resolved: ResolvedMember<'_, '_>,
) -> Result<(String, TypeId), AllocError>
    ensures { IfOk result (λ m. (string_bytes m.0, m.1.0) ≡ member_read resolved.entry) }
{
    let name = resolved.name.into_owned(alloc)?;
    let table = table_of(resolved.meaning).unwrap_or(TypeId(0));
    Ok((name, table))
}
