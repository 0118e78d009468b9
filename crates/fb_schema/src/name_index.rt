//! All names of a schema in one index.
ghost use Rattle.std.specs.Prelude.{◌≡◌, ◌≢◌, ◌≤◌, ◌-◌, ◌↔◌, length, map, slice_get};
ghost use Rattle.std.specs.Prelude.{AllPairs, IfOk, IfSome, IfNone, OnOk, IsTrue, List, None, Some};
ghost use Rattle.fb_index.specs.DigestIndexes.{KeepsPlaces};
ghost use Rattle.fb_schema.specs.Schema.{DeclaredType};
ghost use Rattle.fb_schema.specs.Seen.{type_seen, body_seen};
ghost use Rattle.fb_schema.specs.Found.{index_of};
ghost use Rattle.fb_schema.specs.Indexed.{inner_names, AreAt, IndexesInner, IndexesNames, IndexesTypes};

use crate::few_names::{FEW_NAMES, position_among};
use crate::kinds::TypeId;
use crate::named::Named;
use crate::types::{Body, TypeInfo};
use fb_index::{DigestIndex, HashKey};
use std::alloc::{AllocError, Global};

/// Whether the item at a place has a name.
fn has_name<T: Named>(items: &[T], place: usize, name: &str) -> bool
    ensures { IsTrue result ↔ (slice_get (map T.name items.now) place ≡ Some name.now) }
{
    match items.get(place) {
        Some(item) => name == item.name(),
        None => false,
    }
}

/// Whether the item at a place has a name, where the items' places begin at `first`.
fn has_name_from<T: Named>(items: &[T], first: usize, place: usize, name: &str) -> bool
    ensures { IsTrue result
        ↔ ((first ≤ place) × (slice_get (map T.name items.now) (place - first) ≡ Some name.now)) }
{
    first <= place && has_name(items, place - first, name)
}

/// The names of one scope: the full names of a schema's types, or the names inside one type.
#[derive(Clone, Copy)]
pub(crate) struct ScopeNames<'a> {
    digests: &'a DigestIndex,
    key: HashKey,
    // the place of the first of them
    first: usize,
}

impl ScopeNames<'_> {
    /// The number of a name in its scope, from 0, if it is there.
    pub(crate) fn position<T: Named>(self, items: &[T], name: &str) -> Option<usize>
        requires indexed { IndexesNames self (map T.name items.now) }
        requires distinct { AllPairs (λ a b. a ≢ b) (map T.name items.now) }
        ensures { result ≡ index_of (map T.name items.now) name.now }
    {
        if items.len() <= FEW_NAMES {
            return position_among(items, name);
        }
        let digest = self.key.digest(name.as_bytes());
        let first = self.first;
        let place = self
            .digests
            .find(digest, |place| has_name_from(items, first, place, name))?;
        Some(place - first)
    }
}

/// Inserts the names of some items. The only error is a refused allocation.
fn push_names<T: Named>(
    digests: &mut DigestIndex,
    key: HashKey,
    items: &[T],
) -> Result<(), AllocError>
    ensures at { OnOk result (AreAt digests.new.keys key (length digests.old.keys) (map T.name items.now)) }
    ensures kept { OnOk result (KeepsPlaces digests.old.keys digests.new.keys) }
{
    digests.reserve(items.len())?;
    for item in items {
        digests.push_reserved(key.digest(item.name().as_bytes()));
    }
    Ok(())
}

/// Inserts the names of a type's fields, values or members. The only error is a refused allocation.
fn push_inner_names(digests: &mut DigestIndex, key: HashKey, body: &Body) -> Result<(), AllocError>
    ensures at { OnOk result (AreAt digests.new.keys key (length digests.old.keys) (inner_names (body_seen body.now))) }
    ensures kept { OnOk result (KeepsPlaces digests.old.keys digests.new.keys) }
{
    match body {
        Body::Table(fields) | Body::Struct(fields, _) => push_names(
            digests,
            key,
            fields.as_slice(),
        ),
        Body::Enum(_, _, values) => push_names(digests, key, values.as_slice()),
        Body::Union(members) => push_names(digests, key, members.as_slice()),
    }
}

/// How many names a type has inside it.
fn inner_count(body: &Body) -> usize {
    match body {
        Body::Table(fields) | Body::Struct(fields, _) => fields.len(),
        Body::Enum(_, _, values) => values.len(),
        Body::Union(members) => members.len(),
    }
}

/// How many names some types have: their own, and those inside them.
fn name_count(types: &[TypeInfo]) -> usize {
    types.iter().fold(types.len(), |count, info| {
        count.saturating_add(inner_count(&info.body))
    })
}

/// Inserts the names inside each type, and returns the place of the first of each. The only error is a refused
/// allocation.
fn push_all_inner_names(
    alloc: Global,
    digests: &mut DigestIndex,
    key: HashKey,
    types: &[TypeInfo],
) -> Result<Vec<usize>, AllocError>
    ensures inner { IfOk result (λ firsts. IndexesInner digests.new.keys key firsts.items (map type_seen types.now)) }
    ensures kept { OnOk result (KeepsPlaces digests.old.keys digests.new.keys) }
{
    let mut firsts = Vec::with_capacity(alloc, types.len())?;
    for (number, info) in types.iter().enumerate() {
        firsts.push(digests.len())?;
        push_inner_names(digests, key.inside(number as u64), &info.body)?;
    }
    Ok(firsts)
}

/// All names of a schema in one index: the full names of its types, and then, type by type, the names inside each,
/// under a key that its number makes. The index holds no name: a search is given what has them.
///
/// Nobody can choose names with one digest: the key is made of all names of the schema.
#[derive(Drop)]
pub(crate) struct NameIndex {
    digests: DigestIndex,
    key: HashKey,
    // of each type the place of the first name inside it
    firsts: Vec<usize>,
}

impl NameIndex {
    /// The index of all names of some types. The only error is a refused allocation.
    pub(crate) fn of(
        alloc: Global,
        key: HashKey,
        types: &[TypeInfo],
    ) -> Result<NameIndex, AllocError>
        ensures key { IfOk result (λ index. index.key ≡ key) }
        ensures types { IfOk result (λ index. IndexesTypes index (map type_seen types.now)) }
    {
        let mut digests = DigestIndex::new(alloc, key);
        digests.reserve(name_count(types))?;
        push_names(&mut digests, key, types)?;
        let firsts = push_all_inner_names(alloc, &mut digests, key, types)?;
        Ok(NameIndex {
            digests,
            key,
            firsts,
        })
    }

    /// The key of the digests.
    pub(crate) fn key(&self) -> HashKey
        ensures { result ≡ self.now.key }
    {
        self.key
    }

    /// The full names of the types.
    pub(crate) fn full_names(&self) -> ScopeNames<'_>
        ensures { (types : List DeclaredType) → IndexesTypes self.now types
            → IndexesNames result (map (λ t. t.name) types) }
    {
        ScopeNames {
            digests: &self.digests,
            key: self.key,
            first: 0,
        }
    }

    /// The names inside a type.
    pub(crate) fn inner_names(&self, owner: TypeId) -> Option<ScopeNames<'_>>
        ensures found { IfSome result (λ names. (types : List DeclaredType) (type : DeclaredType)
            → IndexesTypes self.now types → slice_get types owner.0 ≡ Some type
            → IndexesNames names (inner_names type.body)) }
        ensures absent { IfNone result ((types : List DeclaredType) → IndexesTypes self.now types
            → slice_get types owner.0 ≡ None) }
    {
        let first = *self.firsts.get(owner.0 as usize)?;
        Some(ScopeNames {
            digests: &self.digests,
            key: self.key.inside(owner.0),
            first,
        })
    }
}
