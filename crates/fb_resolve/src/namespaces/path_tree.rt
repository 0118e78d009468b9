//! Paths of words, each with a number.
ghost use Rattle.std.specs.Prelude.{◌≡◌, ◌≢◌, ◌<◌, ◌++◌, [], ◌∷◌, ℕ, length, slice_get, get_or, reverse};
ghost use Rattle.std.specs.Prelude.{IfSome, IfNone, IfOk, OnOk, Some};
ghost use Rattle.fb_resolve.specs.Words.{words};
ghost use Rattle.fb_resolve.specs.PathTree.{paths, child_of, IsTree, KeepsPaths};

use fb_index::HashKey;
use indexmap::IndexSet;
use std::alloc::{AllocError, Global};

/// Paths of words, each with a number; the empty path's is 0, and that of a path without its last
/// word is the smaller one.
#[derive(Drop)]
pub(crate) struct PathTree<'t> {
    /// Of each path but the empty one the number of the path without its last word, and that word.
    links: IndexSet<(usize, &'t str), HashKey>,
}

impl<'t> PathTree<'t> {
    /// The empty path alone. The key is that of the text whose words are put into paths.
    pub(crate) fn new(alloc: Global, key: HashKey) -> PathTree<'t>
        ensures tree { IsTree result }
        ensures empty { paths result ≡ [] ∷ [] }
    {
        let links = IndexSet::with_hasher(alloc, key);
        PathTree { links }
    }

    /// How many paths have numbers.
    pub(crate) fn len(&self) -> usize
        requires { IsTree self.now }
        ensures { result ≡ length (paths self.now) }
    {
        self.links.len() + 1
    }

    /// The number of a path with a word after it, if it has one.
    pub(crate) fn child(&self, path: usize, word: &'t str) -> Option<usize>
        requires tree { IsTree self.now }
        requires inside { path < length (paths self.now) }
        ensures found { IfSome result
            (λ n. slice_get (paths self.now) n ≡ Some (child_of (paths self.now) path word.now)) }
        ensures missing { IfNone result
            ((n : ℕ) → slice_get (paths self.now) n ≢ Some (child_of (paths self.now) path word.now)) }
    {
        let index = self.links.get_index_of(&(path, word))?;
        prove!(index < self.links.len());
        Some(index + 1)
    }

    /// The number of the path without its last word, and that word; the empty path has none.
    pub(crate) fn split_last(&self, path: usize) -> Option<(usize, &'t str)>
        requires tree { IsTree self.now }
        requires inside { path < length (paths self.now) }
        ensures before { IfSome result (λ l. l.0 < path) }
        ensures word { IfSome result
            (λ l. slice_get (paths self.now) path ≡ Some (child_of (paths self.now) l.0 l.1.now)) }
        ensures empty { IfNone result (path ≡ 0) }
    {
        Some(self.links.as_slice()[path.checked_sub(1)?])
    }

    /// The number of a path with a word after it, which gets the next one if it has none. The only
    /// error is a refused allocation.
    pub(crate) fn insert(&mut self, path: usize, word: &'t str) -> Result<usize, AllocError>
        requires tree { IsTree self.now }
        requires inside { path < length (paths self.now) }
        ensures tree { OnOk result (IsTree self.new) }
        ensures kept { OnOk result (KeepsPaths self.old self.new) }
        ensures child { IfOk result
            (λ n. slice_get (paths self.new) n ≡ Some (child_of (paths self.old) path word.now)) }
    {
        let (index, _) = self.links.insert_full((path, word))?;
        prove!(index < self.links.len());
        Ok(index + 1)
    }

    /// The number of the path that a name's words make after this one, each of which gets a number
    /// where it has none. The only error is a refused allocation.
    pub(crate) fn insert_words(&mut self, path: usize, name: &'t str) -> Result<usize, AllocError>
        requires tree { IsTree self.now }
        requires inside { path < length (paths self.now) }
        ensures tree { OnOk result (IsTree self.new) }
        ensures kept { OnOk result (KeepsPaths self.old self.new) }
        ensures path { IfOk result
            (λ n. slice_get (paths self.new) n ≡ Some (get_or (paths self.old) path [] ++ words name.now)) }
    {
        let mut path = path;
        let mut rest = name;
        while let Some((word, behind)) = rest.split_once('.') {
            path = self.insert(path, word)?;
            rest = behind;
        }
        self.insert(path, rest)
    }

    /// The number of the path of a name's words from the last to the first, each of which gets a
    /// number where it has none. The only error is a refused allocation.
    pub(crate) fn insert_reversed(&mut self, name: &'t str) -> Result<usize, AllocError>
        requires tree { IsTree self.now }
        ensures tree { OnOk result (IsTree self.new) }
        ensures kept { OnOk result (KeepsPaths self.old self.new) }
        ensures path { IfOk result (λ n. slice_get (paths self.new) n ≡ Some (reverse (words name.now))) }
    {
        let mut path = 0;
        let mut rest = name;
        while let Some((before, word)) = rest.rsplit_once('.') {
            path = self.insert(path, word)?;
            rest = before;
        }
        self.insert(path, rest)
    }
}
