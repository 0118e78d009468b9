//! The types that each path has for names, as numbers, where paths share most of what they have.
ghost use Rattle.std.specs.Prelude.{◌≡◌, ◌<◌, ◌≤◌, ◌==◌, ◌&&◌, ℕ, IfOk, OnOk, None, Some, if◌then◌else◌};
ghost use Rattle.std.specs.Option.{option_or};
ghost use Rattle.fb_resolve.specs.NamedTypes.{type_at, path_count, name_count, HasMaps, HasRoom};

use super::maps::Maps;
use std::alloc::{AllocError, Global};

/// Of each path and name a type's number, or none.
#[derive(Drop)]
pub(crate) struct NamedTypes {
    maps: Maps,
    /// The map of each path.
    tops: Vec<usize>,
}

impl NamedTypes {
    /// Nothing at so many paths, for so many names, with room for so many entries. The only error is a
    /// refused allocation.
    pub(crate) fn new(
        alloc: Global,
        paths: usize,
        names: usize,
        entries: usize,
    ) -> Result<NamedTypes, AllocError>
        ensures room { IfOk result (λ t. HasRoom t paths names) }
        ensures empty { IfOk result (λ t. (p n : ℕ) → type_at t p n ≡ None) }
    {
        let maps = Maps::new(alloc, names, entries)?;
        let tops = vec![in alloc; 0; paths]?;
        Ok(NamedTypes { maps, tops })
    }

    /// What is noted for a name at a path.
    #[tactic(auto, using(crate::proofs::namespaces::NamedTypesKept::map_read))]
    pub(crate) fn get(&self, path: usize, name: usize) -> Option<usize>
        requires maps { HasMaps self.now }
        requires path { path < path_count self.now }
        ensures { result ≡ type_at self.now path name }
    {
        self.maps.get(self.tops[path], name)
    }

    /// Notes a number for a name at a path, where none is noted yet. The only error is a refused allocation.
    pub(crate) fn note(&mut self, path: usize, name: usize, number: usize) -> Result<(), AllocError>
        requires maps { HasMaps self.now }
        requires path { path < path_count self.now }
        requires name { name < name_count self.now }
        requires number { number < usize.MAX }
        ensures kept { OnOk result (HasMaps self.new) }
        ensures paths { OnOk result (path_count self.new ≡ path_count self.old) }
        ensures names { OnOk result (name_count self.new ≡ name_count self.old) }
        ensures noted { OnOk result ((p n : ℕ) → type_at self.new p n
            ≡ option_or (type_at self.old p n) (if p == path && n == name then Some number else None)) }
    {
        let top = self.tops[path];
        if self.maps.get(top, name).is_none() {
            self.tops[path] = self.maps.insert(top, name, number)?;
        }
        Ok(())
    }

    /// Notes at a path all that is noted at another and not at it. The only error is a refused allocation.
    #[tactic(auto, using(crate::proofs::namespaces::NamedTypesKept::map_read))]
    pub(crate) fn inherit(&mut self, path: usize, outer: usize) -> Result<(), AllocError>
        requires maps { HasMaps self.now }
        requires path { path < path_count self.now }
        requires outer { outer < path_count self.now }
        ensures kept { OnOk result (HasMaps self.new) }
        ensures paths { OnOk result (path_count self.new ≡ path_count self.old) }
        ensures names { OnOk result (name_count self.new ≡ name_count self.old) }
        ensures noted { OnOk result ((p n : ℕ) → type_at self.new p n
            ≡ (if p == path then option_or (type_at self.old path n) (type_at self.old outer n)
            else type_at self.old p n)) }
    {
        self.tops[path] = self.maps.overlay(self.tops[path], self.tops[outer])?;
        Ok(())
    }
}
