//! What the matches of a command line have: flags, and paths by their ids.
ghost use Rattle.std.specs.Prelude.{◌≡◌, ◌≢◌, ◌∷◌, [], IfOk, IfErr, OnOk, OnErr, true, false};
ghost use Rattle.std.specs.Prelude.{map, option_map, string_bytes, codes, length};
ghost use Rattle.clap.specs.Words.{all_of, first_of, found_of, rows_of};
ghost use Rattle.flatc_cli.specs.Lines.{IsPath, is_set, paths_in, first_text};
ghost use Rattle.flatc_files.specs.StandardPaths.{is_read_once};

use crate::misuse::Misuse;
use clap::ArgMatches;
use flatc_files::are_read_once;
use std::alloc::{AllocError, Global};

/// The first value of an id.
pub(crate) fn text_of<'a>(found: &ArgMatches<'a>, id: &str) -> Option<&'a str>
    ensures { option_map (λ s. s.now) result ≡ first_of id.now (rows_of (found_of found.now)) }
{
    found.get_str(id)
}

/// The values of an id, in the order of the words.
pub(crate) fn texts_of<'f, 'a: 'f>(found: &'f ArgMatches<'a>, id: &str) -> Option<&'f [&'a str]>
    ensures { option_map (λ texts. map (λ text. text.now) texts.now) result
        ≡ all_of id.now (rows_of (found_of found.now)) }
{
    found.get_raw(id)
}

/// The paths of an id that clap has refused the words without.
pub(crate) fn paths_of<'f, 'a: 'f>(
    found: &'f ArgMatches<'a>,
    id: &str,
) -> Result<&'f [&'a str], Misuse<'a>>
    ensures ok { IfOk result (λ paths. map (λ path. path.now) paths.now
        ≡ paths_in id.now (rows_of (found_of found.now))) }
    ensures refusal { IfErr result (λ m. m ≡ Misuse.Memory) }
{
    texts_of(found, id).ok_or(Misuse::Memory)
}

/// The path that an id has. clap has refused the words where there is none.
pub(crate) fn path_of(alloc: Global, found: &ArgMatches<'_>, id: &str) -> Result<String, AllocError>
    ensures { IfOk result (IsPath id.now (rows_of (found_of found.now))) }
{
    String::from_str(alloc, text_of(found, id).ok_or(AllocError)?)
}

/// The schema's path, as the line writes it.
fn schema_of<'a>(found: &ArgMatches<'a>) -> &'a str
    ensures { result.now ≡ first_text (codes "SCHEMA") (rows_of (found_of found.now)) }
{
    text_of(found, "SCHEMA").unwrap_or("")
}

pub(crate) fn flag_of(found: &ArgMatches<'_>, name: &str) -> bool
    ensures { result ≡ is_set name.now (rows_of (found_of found.now)) }
{
    text_of(found, name) == Some("true")
}

pub(crate) fn strings_of(alloc: Global, texts: &[&str]) -> Result<Vec<String>, AllocError>
    ensures { IfOk result (λ strings. map string_bytes strings.items ≡ map (λ text. text.now) texts.now) }
{
    let mut strings = Vec::with_capacity(alloc, texts.len())?;
    for text in texts {
        strings.push(String::from_str(alloc, text)?)?;
    }
    Ok(strings)
}

/// A text and those after it.
fn strings_from(alloc: Global, first: &str, rest: &[&str]) -> Result<Vec<String>, AllocError>
    ensures { IfOk result (λ strings. map string_bytes strings.items
        ≡ first.now ∷ map (λ text. text.now) rest.now) }
{
    let mut strings = Vec::new(alloc);
    strings.push(String::from_str(alloc, first)?)?;
    strings.append(&mut strings_of(alloc, rest)?)?;
    Ok(strings)
}

pub(crate) fn check_read_once(schema: &str, files: &[&str]) -> Result<(), Misuse<'static>>
    ensures ok { OnOk result (is_read_once (schema.now ∷ map (λ f. f.now) files.now) ≡ true) }
    ensures refusal { OnErr result (is_read_once (schema.now ∷ map (λ f. f.now) files.now) ≡ false) }
{
    if are_read_once(schema, files) {
        Ok(())
    } else {
        Err(Misuse::ReadTwice)
    }
}

/// That a line reads standard input once at most: as its schema, or as one of these.
pub(crate) fn check_inputs(found: &ArgMatches<'_>, files: &[&str]) -> Result<(), Misuse<'static>>
    ensures ok { OnOk result (is_read_once (first_text (codes "SCHEMA") (rows_of (found_of found.now))
        ∷ map (λ f. f.now) files.now) ≡ true) }
    ensures refusal { OnErr result (is_read_once (first_text (codes "SCHEMA") (rows_of (found_of found.now))
        ∷ map (λ f. f.now) files.now) ≡ false) }
{
    check_read_once(schema_of(found), files)
}

/// The paths of an id, where they are two; the second has this name.
pub(crate) fn two_paths<'a>(
    found: &ArgMatches<'a>,
    id: &str,
    second: &'static str,
) -> Result<(&'a str, &'a str), Misuse<'a>>
    ensures ok { IfOk result (λ p. paths_in id.now (rows_of (found_of found.now)) ≡ p.0.now ∷ p.1.now ∷ []) }
    ensures refusal { OnErr result (length (paths_in id.now (rows_of (found_of found.now))) ≢ 2) }
{
    match texts_of(found, id) {
        Some([one, other]) => Ok((one, other)),
        Some([_, _, extra, ..]) => Err(Misuse::Extra(extra)),
        _ => Err(Misuse::Missing(second)),
    }
}

/// The path of an id, where it is one, of this name.
pub(crate) fn only_path<'a>(
    found: &ArgMatches<'a>,
    id: &str,
    name: &'static str,
) -> Result<&'a str, Misuse<'a>>
    ensures ok { IfOk result (λ path. paths_in id.now (rows_of (found_of found.now)) ≡ path.now ∷ []) }
    ensures refusal { OnErr result (length (paths_in id.now (rows_of (found_of found.now))) ≢ 1) }
{
    match texts_of(found, id) {
        Some([path]) => Ok(path),
        Some([_, extra, ..]) => Err(Misuse::Extra(extra)),
        _ => Err(Misuse::Missing(name)),
    }
}

/// The path of an id and all of another, each of which is read.
pub(crate) fn all_paths<'a>(
    alloc: Global,
    found: &ArgMatches<'a>,
    first: &str,
    rest: &str,
) -> Result<Vec<String>, Misuse<'a>>
    ensures paths { IfOk result (λ paths. map string_bytes paths.items
        ≡ first_text first.now (rows_of (found_of found.now)) ∷ paths_in rest.now (rows_of (found_of found.now))) }
    ensures line { OnOk result (is_read_once (first_text first.now (rows_of (found_of found.now))
        ∷ paths_in rest.now (rows_of (found_of found.now))) ≡ true) }
    ensures refusal { IfErr result (λ m. is_read_once (first_text first.now (rows_of (found_of found.now))
        ∷ paths_in rest.now (rows_of (found_of found.now))) ≡ true → m ≡ Misuse.Memory) }
{
    let first = text_of(found, first).ok_or(Misuse::Memory)?;
    let rest = texts_of(found, rest).unwrap_or(&[]);
    check_read_once(first, rest)?;
    Ok(strings_from(alloc, first, rest)?)
}
