//! What reads a JSON text piece by piece.
ghost use Rattle.std.specs.Prelude.{◌≡◌, ◌-◌, ◌≤◌, ◌<◌, ℕ, IfOk, IfSome, OnOk, IsUtf8, Some, length, true};
ghost use Rattle.serde_json.specs.Data.{Items, array, no_items, string};
ghost use Rattle.serde_json.specs.Read.{read};
ghost use Rattle.serde_json.specs.View.{items_view, view as tree_view};
ghost use Rattle.fb_json.specs.Meant.{count};
ghost use Rattle.fb_pieces.specs.InBrackets.{in_arrays, in_brackets};
ghost use Rattle.fb_encode.specs.Outlines.{IsOutlined};
ghost use Rattle.fb_encode.specs.TextsRead.{IsRead, IsReadAs, IsRunReadAs};

use crate::outlines::{Container, container_of};
use fb_pieces::{Cuts, MOST_BRACKETS, count_elements, is_json_at, leading_blanks, string_of};
use fb_schema::{Kind, Shape};
use json::Scratch;
use serde_json::Value as Json;
use std::alloc::{AllocError, Global};

/// Why a text wasn't read piece by piece.
#[derive(Clone, Copy)]
pub(crate) enum Unread {
    /// A piece can't be read on its own: whether the text can be read is seen by reading it at once.
    Piece,
    /// Memory ran out.
    Memory,
}

impl From<AllocError> for Unread {
    fn from(_error: AllocError) -> Unread {
        Unread::Memory
    }
}

/// A text within a JSON text, in which `brackets` arrays and objects may be open at once.
#[derive(Clone, Copy)]
pub(crate) struct JsonExcerpt<'t> {
    pub(crate) text: &'t [u8],
    pub(crate) brackets: u8,
    /// Where it begins in the whole text.
    pub(crate) at: usize,
}

/// Reads excerpts in brackets of their own, as many as are open around each in the whole text: so each may nest as deep
/// as it may there.
#[derive(Drop)]
pub(crate) struct Reader {
    alloc: Global,
    bracketed: Vec<u8>,
    /// The most bytes of an excerpt that is read at once.
    most: usize,
    /// Where strings with escapes are written. It is kept, since making one costs as much as reading a piece.
    scratch: Box<Scratch>,
    /// Where the whole text may be cut.
    pub(crate) cuts: Cuts,
}

impl Reader {
    /// What reads excerpts of a JSON text.
    pub(crate) fn new(alloc: Global, json: &[u8], most: usize) -> Result<Reader, Unread> {
        let Some(cuts) = Cuts::of(alloc, json, most)? else {
            return Err(Unread::Piece);
        };
        Ok(Reader {
            alloc,
            bracketed: Vec::new(alloc),
            most,
            scratch: Box::new(alloc, Scratch::new(alloc)).map_err(AllocError::from)?,
            cuts,
        })
    }

    /// Whether the one element of a run is read on its own: a string, which needs no brackets, or what can be cut.
    pub(crate) fn reads_alone(&self, element: &[u8], kind: Kind) -> bool {
        match kind {
            Kind::Text => true,
            _ => element.len() > self.most,
        }
    }

    /// Whether an excerpt is cut, if it can be.
    pub(crate) fn is_long(&self, excerpt: JsonExcerpt<'_>) -> bool
        ensures { result ≡ true → 0 < excerpt.entry.brackets }
    {
        excerpt.text.len() > self.most && excerpt.brackets > 0
    }

    /// Puts a text into this many brackets.
    fn put_in_brackets(&mut self, text: &[u8], brackets: u8) -> Result<(), AllocError>
        ensures { OnOk result (self.new.bracketed.items ≡ in_brackets brackets text.now) }
    {
        self.bracketed.clear();
        let around = 2 * usize::from(brackets);
        self.bracketed
            .reserve_exact(text.len().saturating_add(around))?;
        for _ in 0..brackets {
            self.bracketed.push(b'[')?;
        }
        self.bracketed.extend_from_slice(text)?;
        for _ in 0..brackets {
            self.bracketed.push(b']')?;
        }
        Ok(())
    }

    /// The tree of a text in this many brackets.
    pub(crate) fn read_in_brackets(&mut self, text: &[u8], brackets: u8) -> Result<Json, Unread>
        ensures utf8 { OnOk result (IsUtf8 text.now) }
        ensures tree { IfOk result (λ tree. read (in_brackets brackets text.now) ≡ Some (tree_view tree)) }
    {
        self.put_in_brackets(text, brackets)?;
        match Json::from_slice(self.alloc, self.bracketed.as_slice()) {
            Ok(tree) => Ok(tree),
            Err(error) if error.is_memory() => Err(Unread::Memory),
            Err(_) => Err(Unread::Piece),
        }
    }

    /// The number of elements of a run, which is read in a bracket of its own. No tree is made.
    pub(crate) fn count_run(&mut self, text: &[u8], brackets: u8) -> Result<usize, Unread>
        ensures { IfOk result (λ n. (ds : Items) × IsRunReadAs brackets text.entry.now ds × (n ≡ count ds)) }
    {
        self.put_in_brackets(text, 1)?;
        match count_elements(self.bracketed.as_slice(), brackets, &mut *self.scratch)? {
            Some(count) if count > 0 => Ok(count),
            _ => Err(Unread::Piece),
        }
    }

    /// The string that a text is read as, without brackets. `None` where it is none, or isn't UTF-8.
    pub(crate) fn string<'t>(&'t mut self, text: &'t [u8]) -> Result<Option<&'t str>, AllocError>
        ensures { IfOk result (λ found. IfSome found (λ s. (brackets : ℕ)
            → IsReadAs brackets text.entry.now (string s.now))) }
    {
        if text.get(leading_blanks(text)) != Some(&b'"') {
            return Ok(None);
        }
        let Ok(text) = simdutf8::basic::from_utf8(text) else {
            return Ok(None);
        };
        string_of(text, &mut *self.scratch)
    }

    /// The tree of a text that is a string, without brackets. None of another text.
    pub(crate) fn string_tree(&mut self, text: &[u8]) -> Result<Option<Json>, AllocError>
        ensures { IfOk result (λ found. IfSome found (λ tree. (brackets : ℕ)
            → IsReadAs brackets text.entry.now (tree_view tree))) }
    {
        let alloc = self.alloc;
        match self.string(text)? {
            Some(string) => Ok(Some(Json::String(String::from_str(alloc, string)?))),
            None => Ok(None),
        }
    }

    /// The tree of an excerpt, in the brackets in which it is read.
    pub(crate) fn read(&mut self, excerpt: JsonExcerpt<'_>) -> Result<Json, Unread>
        requires { excerpt.brackets ≤ 127 }
        ensures utf8 { OnOk result (IsUtf8 excerpt.entry.text.now) }
        ensures tree { IfOk result (λ tree.
            read (in_brackets (127 - excerpt.entry.brackets) excerpt.entry.text.now) ≡ Some (tree_view tree)) }
    {
        // A tree takes many times its text: none is made of a long text that isn't JSON.
        if excerpt.text.len() > self.most {
            self.pass_by(excerpt)?;
        }
        self.read_in_brackets(excerpt.text, MOST_BRACKETS - excerpt.brackets)
    }

    /// Checks an excerpt whose tree has no meaning, so that none is made.
    pub(crate) fn pass_by(&mut self, excerpt: JsonExcerpt<'_>) -> Result<(), Unread>
        ensures { OnOk result (IsRead excerpt.entry.brackets excerpt.entry.text.now) }
    {
        let is_json = is_json_at(excerpt.text, excerpt.brackets, &mut *self.scratch)?;
        if excerpt.text.len() > self.most {
            // It has grown to the text's length, and a tree may follow.
            *self.scratch = Scratch::new(self.alloc);
        }
        if is_json { Ok(()) } else { Err(Unread::Piece) }
    }

    /// An empty array, object or string in the place of one whose content has no meaning where a value of this shape is
    /// wanted. None for another text.
    pub(crate) fn outline(
        &mut self,
        excerpt: JsonExcerpt<'_>,
        shape: Shape,
    ) -> Result<Option<Json>, Unread>
        ensures { IfOk result (λ found. IfSome found (λ tree.
            IsOutlined excerpt.entry.brackets excerpt.entry.text.now shape (tree_view tree))) }
    {
        match container_of(excerpt.text) {
            Some(container) if !container.has_content(shape) => {
                self.pass_by(excerpt)?;
                Ok(Some(container.outline(self.alloc)))
            }
            Some(Container::Array) => Ok(self.empty_array(excerpt)?),
            _ => Ok(None),
        }
    }

    /// An empty array in the place of a long one without elements, which isn't cut. None of another text.
    fn empty_array(&mut self, excerpt: JsonExcerpt<'_>) -> Result<Option<Json>, AllocError>
        ensures { IfOk result (λ found. IfSome found (λ tree. (tree_view tree ≡ array no_items)
            × IsReadAs excerpt.entry.brackets excerpt.entry.text.now (array no_items))) }
    {
        if excerpt.text.len() <= self.most {
            return Ok(None);
        }
        match count_elements(excerpt.text, excerpt.brackets, &mut *self.scratch)? {
            Some(0) => Ok(Some(Json::Array(Vec::new(self.alloc)))),
            _ => Ok(None),
        }
    }
}

/// The tree in this many arrays. None where one of them isn't an array of one element.
pub(crate) fn innermost(tree: &Json, arrays: u8) -> Option<&Json>
    ensures { IfSome result (λ inner. tree_view tree.now ≡ in_arrays arrays (tree_view inner.now)) }
{
    let mut inner = tree;
    for _ in 0..arrays {
        let elements = inner.as_array()?;
        if elements.len() != 1 {
            return None;
        }
        inner = &elements[0];
    }
    Some(inner)
}

/// The elements of the array in this many arrays. None where one of those isn't an array of one element, or where the
/// innermost tree isn't an array or has no elements.
pub(crate) fn innermost_elements(tree: &Json, arrays: u8) -> Option<&[Json]>
    ensures are { IfSome result (λ elements.
        tree_view tree.now ≡ in_arrays arrays (array (items_view elements.now))) }
    ensures some { IfSome result (λ elements. 0 < length elements.now) }
{
    match innermost(tree, arrays)?.as_array() {
        Some(elements) if !elements.is_empty() => Some(elements),
        _ => None,
    }
}
