//! Each used name means the type in the innermost namespace around its use that has one.
ghost use Rattle.std.specs.Prelude.{◌≡◌, ◌<◌, ◌≤◌, ◌+◌, ◌++◌, ◌==◌, ◌&&◌, All, IfSome, IfNone, IfOk, OnOk};
ghost use Rattle.std.specs.Prelude.{None, Some, ℕ, List, [], length, get_or, reverse, if◌then◌else◌};
ghost use Rattle.std.specs.Option.{option_or};
ghost use Rattle.fb_resolve.specs.InnermostTypes.{innermost_type};
ghost use Rattle.fb_resolve.specs.PathTree.{paths, IsTree};
ghost use Rattle.fb_resolve.specs.NamedTypes.{type_at, path_count, name_count, HasMaps, HasRoom};
ghost use Rattle.fb_resolve.specs.Scopes.{paths_at};
ghost use Rattle.fb_resolve.specs.Words.{Path, full_path, is_same_path, place_of_path};

use super::named_types::NamedTypes;
use super::path_tree::PathTree;
use std::alloc::{AllocError, Global};

/// The same full name, a path and a name after it, with the path's last word in the name instead; none
/// where no such name is used.
fn outer_split<'d>(
    tree: &PathTree<'d>,
    used: &PathTree<'d>,
    path: usize,
    name: usize,
) -> Option<(usize, usize)>
    requires tree { IsTree tree.now }
    requires used { IsTree used.now }
    requires path { path < length (paths tree.now) }
    requires name { name < length (paths used.now) }
    ensures path { IfSome result (λ r. r.0 < path) }
    ensures name { IfSome result (λ r. r.1 < length (paths used.now)) }
    ensures same { IfSome result (λ r. full_path (paths tree.now) (paths used.now) r.0 r.1
        ≡ full_path (paths tree.now) (paths used.now) path name) }
    ensures shorter { IfSome result (λ r. length (get_or (paths tree.now) r.0 []) + 1
        ≡ length (get_or (paths tree.now) path [])) }
    ensures last { IfNone result ((p n : ℕ) → p < length (paths tree.now) → n < length (paths used.now)
        → full_path (paths tree.now) (paths used.now) p n ≡ full_path (paths tree.now) (paths used.now) path name
        → length (get_or (paths tree.now) path []) ≤ length (get_or (paths tree.now) p [])) }
{
    let (outer, word) = tree.split_last(path)?;
    let longer = used.child(name, word)?;
    Some((outer, longer))
}

/// Notes a type for a used name at a path, where none is noted yet. Name 0 has no words and is never
/// used.
fn note_use(
    noted: &mut NamedTypes,
    path: usize,
    name: usize,
    number: usize,
) -> Result<(), AllocError>
    requires maps { HasMaps noted.now }
    requires path { path < path_count noted.now }
    requires name { name < name_count noted.now }
    requires number { number < usize.MAX }
    ensures kept { OnOk result (HasMaps noted.new) }
    ensures paths { OnOk result (path_count noted.new ≡ path_count noted.old) }
    ensures names { OnOk result (name_count noted.new ≡ name_count noted.old) }
    ensures noted { OnOk result ((p n : ℕ) → 0 < n → type_at noted.new p n
        ≡ option_or (type_at noted.old p n) (if p == path && n == name then Some number else None)) }
{
    if name == 0 {
        return Ok(());
    }
    noted.note(path, name, number)
}

/// Notes a type for each used name that means it from some path, where none is noted yet.
fn note_type<'d>(
    tree: &PathTree<'d>,
    used: &PathTree<'d>,
    noted: &mut NamedTypes,
    full_name: usize,
    number: usize,
) -> Result<(), AllocError>
    requires tree { IsTree tree.now }
    requires used { IsTree used.now }
    requires room { HasRoom noted.now (length (paths tree.now)) (length (paths used.now)) }
    requires full_name { full_name < length (paths tree.now) }
    requires number { number < usize.MAX }
    ensures room { OnOk result (HasRoom noted.new (length (paths tree.now)) (length (paths used.now))) }
    ensures noted { OnOk result ((p n : ℕ) → p < length (paths tree.now)
        → 0 < n → n < length (paths used.now) → type_at noted.new p n ≡ option_or (type_at noted.old p n)
        (if is_same_path (full_path (paths tree.now) (paths used.now) p n) (get_or (paths tree.now) full_name [])
        then Some number else None)) }
{
    let mut next = Some((full_name, 0));
    while let Some((path, name)) = next {
        note_use(noted, path, name, number)?;
        next = outer_split(tree, used, path, name);
    }
    Ok(())
}

/// Notes for each path and used name the first type whose full name they are together.
fn note_types<'d>(
    tree: &PathTree<'d>,
    used: &PathTree<'d>,
    noted: &mut NamedTypes,
    full_names: &[usize],
) -> Result<(), AllocError>
    requires tree { IsTree tree.now }
    requires used { IsTree used.now }
    requires room { HasRoom noted.now (length (paths tree.now)) (length (paths used.now)) }
    requires full_names { All (λ n. n < length (paths tree.now)) full_names.now }
    requires empty { (p n : ℕ) → type_at noted.now p n ≡ None }
    ensures room { OnOk result (HasRoom noted.new (length (paths tree.now)) (length (paths used.now))) }
    ensures noted { OnOk result ((p n : ℕ) → p < length (paths tree.now)
        → 0 < n → n < length (paths used.now) → type_at noted.new p n
        ≡ place_of_path (paths_at tree.now full_names.now) (full_path (paths tree.now) (paths used.now) p n)) }
{
    for (number, full_name) in full_names.iter().enumerate() {
        note_type(tree, used, noted, *full_name, number)?;
    }
    Ok(())
}

/// Notes at each path also what is noted at the paths that it begins with, the longest first.
fn inherit_all(tree: &PathTree<'_>, noted: &mut NamedTypes) -> Result<(), AllocError>
    requires tree { IsTree tree.now }
    requires room { path_count noted.now ≡ length (paths tree.now) }
    requires maps { HasMaps noted.now }
    ensures kept { OnOk result (HasMaps noted.new) }
    ensures paths { OnOk result (path_count noted.new ≡ path_count noted.old) }
    ensures names { OnOk result (name_count noted.new ≡ name_count noted.old) }
    ensures inherited { (types : List Path) (rest : Path) (n : ℕ)
        → ((p : ℕ) → p < length (paths tree.now)
        → type_at noted.old p n ≡ place_of_path types (get_or (paths tree.now) p [] ++ rest))
        → OnOk result ((p : ℕ) → p < length (paths tree.now)
        → type_at noted.new p n ≡ innermost_type types (get_or (paths tree.now) p []) rest) }
{
    for path in 1..tree.len() {
        let Some((outer, _word)) = tree.split_last(path) else {
            unreachable!()
        };
        noted.inherit(path, outer)?;
    }
    Ok(())
}

/// The type that each used name means at each path.
pub(crate) fn innermost_types(
    alloc: Global,
    tree: &PathTree<'_>,
    used: &PathTree<'_>,
    full_names: &[usize],
) -> Result<NamedTypes, AllocError>
    requires tree { IsTree tree.now }
    requires used { IsTree used.now }
    requires full_names { All (λ n. n < length (paths tree.now)) full_names.now }
    ensures room { IfOk result (λ t. HasRoom t (length (paths tree.now)) (length (paths used.now))) }
    ensures innermost { IfOk result (λ t. (p n : ℕ) → p < length (paths tree.now)
        → 0 < n → n < length (paths used.now) → type_at t p n
        ≡ innermost_type (paths_at tree.now full_names.now) (get_or (paths tree.now) p [])
        (reverse (get_or (paths used.now) n []))) }
{
    let mut noted = NamedTypes::new(alloc, tree.len(), used.len(), full_names.len())?;
    note_types(tree, used, &mut noted, full_names)?;
    inherit_all(tree, &mut noted)?;
    Ok(noted)
}
