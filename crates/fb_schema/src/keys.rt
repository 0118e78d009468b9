//! The key of the digests of a schema's names.
ghost use Rattle.std.specs.Prelude.{◌≡◌, map};
ghost use Rattle.fb_schema.specs.Seen.{type_seen};
ghost use Rattle.fb_schema.specs.Keys.{with_name, with_names, with_type, key_of_types};

use crate::named::Named;
use crate::types::{Body, TypeInfo};
use fb_index::{HashKey, KeyDigest};

/// What comes after each name, since no name has it.
const NAME_END: u8 = 0xff;

/// Digests a name.
fn write_name(digest: &mut KeyDigest, name: &str)
    ensures { digest.new ≡ with_name digest.old name.now }
{
    digest.write(name.as_bytes());
    digest.write(&[NAME_END]);
}

/// Digests the names of some items.
fn write_names<T: Named>(digest: &mut KeyDigest, items: &[T])
    ensures { digest.new ≡ with_names digest.old (map T.name items.now) }
{
    for item in items {
        write_name(digest, item.name());
    }
}

/// Digests the full name of a type, and the names of its fields, values or members.
fn write_type(digest: &mut KeyDigest, info: &TypeInfo)
    ensures { digest.new ≡ with_type digest.old (type_seen info.now) }
{
    write_name(digest, info.name.as_str());
    match &info.body {
        Body::Table(fields) => write_names(digest, fields.as_slice()),
        Body::Struct(fields, _) => write_names(digest, fields.as_slice()),
        Body::Enum(_, _, values) => write_names(digest, values.as_slice()),
        Body::Union(members) => write_names(digest, members.as_slice()),
    }
}

/// The key of all names of some types, so that no name can be chosen for its digest: to choose it changes
/// the key.
pub(crate) fn key_of_types(types: &[TypeInfo]) -> HashKey
    ensures { result ≡ key_of_types (map type_seen types.now) }
{
    let mut digest = KeyDigest::new();
    for info in types {
        write_type(&mut digest, info);
    }
    digest.key()
}
