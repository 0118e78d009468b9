//! How values of enums and members of unions are named outside their types.
ghost use Rattle.std.specs.Prelude.{◌≡◌, is_some, option_copied};
ghost use Rattle.std.specs.Path.{rsplit_once};
ghost use Rattle.fb_schema.specs.Paths.{dot, declared_name, is_name_of, name_in_path};

/// A type's declared name: its full name without the namespace.
fn declared_name(full: &str) -> &str
    ensures { result.now ≡ declared_name full.now }
{
    match full.rsplit_once('.') {
        Some((_, name)) => name,
        None => full,
    }
}

/// Whether a name is a type's full name or its declared one.
fn is_name_of(full: &str, name: &str) -> bool
    ensures { result ≡ is_name_of full.now name.now }
{
    name == full || name == declared_name(full)
}

/// Whether a text has a dot. Most names have none, and a look at their few bytes costs less than a
/// search for a character.
fn has_dot(text: &str) -> bool
    ensures { result ≡ is_some (rsplit_once dot text.now) }
{
    text.as_bytes().contains(&b'.')
}

/// The name of a value or member that a path says for the type with a full name: alone, or after
/// the type's declared name and a dot, or after its full name and a dot.
pub(crate) fn name_in_path<'p>(full: &str, path: &'p str) -> Option<&'p str>
    ensures { option_copied result ≡ name_in_path full.now path.now }
{
    if !has_dot(path) {
        return Some(path);
    }
    match path.rsplit_once('.') {
        None => Some(path),
        Some((before, name)) if is_name_of(full, before) => Some(name),
        Some(_) => None,
    }
}
