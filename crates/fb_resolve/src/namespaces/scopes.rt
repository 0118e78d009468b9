//! Which type each used name means in each namespace.
ghost use Rattle.std.specs.Prelude.{◌≡◌, ◌<◌, All, IfOk, List, [], length, get_or};
ghost use Rattle.fb_resolve.specs.InnermostTypes.{innermost_type};
ghost use Rattle.fb_resolve.specs.PathTree.{paths, IsTree};
ghost use Rattle.fb_resolve.specs.Scopes.{paths_at, tree_of, names_of, IsUse, AreScopes};
ghost use Rattle.fb_schema.specs.Schema.{Name};
ghost use Rattle.fb_resolve.specs.Words.{words, Path};

use super::innermost_types::innermost_types;
use super::named_types::NamedTypes;
use super::path_tree::PathTree;
use std::alloc::{AllocError, Global};

/// The types of a text, found by the names that mean them in each namespace.
#[derive(Drop)]
pub(crate) struct Scopes<'d> {
    tree: PathTree<'d>,
    used: PathTree<'d>,
    noted: NamedTypes,
}

impl<'d> Scopes<'d> {
    /// The types of these full names, where `tree` has the paths of namespaces and types, and `used`
    /// the names that are used, each from its last word on. The only error is a refused allocation.
    pub(crate) fn of(
        alloc: Global,
        tree: PathTree<'d>,
        used: PathTree<'d>,
        full_names: &[usize],
    ) -> Result<Scopes<'d>, AllocError>
        requires tree { IsTree tree }
        requires used { IsTree used }
        requires full_names { All (λ n. n < length (paths tree)) full_names.now }
        ensures scopes { IfOk result (λ s. AreScopes s (paths_at tree.entry full_names.now)) }
        ensures tree { IfOk result (λ s. tree_of s ≡ tree.entry) }
        ensures names { IfOk result (λ s. names_of s ≡ used.entry) }
    {
        let noted = innermost_types(alloc, &tree, &used, full_names)?;
        Ok(Scopes { tree, used, noted })
    }

    /// The number of the type that a used name means inside a namespace, by the numbers of both.
    pub(crate) fn resolve(&self, path: usize, used: usize) -> Option<usize>
        requires path { path < length (paths (tree_of self.now)) }
        requires used { used < length (paths (names_of self.now)) }
        requires scopes { (types : List Path) × AreScopes self.now types }
        ensures { (types : List Path) (name : Name) → AreScopes self.now types
            → IsUse (names_of self.now) used name
            → result ≡ innermost_type types (get_or (paths (tree_of self.now)) path []) (words name) }
    {
        self.noted.get(path, used)
    }
}
