//! Where a schema text declares what its schema has.
use fb_explain_schemas::{fields_of, name_of};
use fb_findings::{LineStarts, Location, Source};
use fb_schema::{FieldInfo, Kind, Schema, Shape, TypeId};
use fb_syntax::{Declaration, Decls, Directive, TypeDecl};
use std::alloc::{AllocError, Global};

/// Where a type and its fields are named, as offsets in the text.
#[derive(Drop)]
struct TypePlaces {
    name: u64,
    /// By slot; the type's own where the text has no field of a slot.
    fields: Vec<u64>,
}

/// Where the types of a text and their fields are declared, with the lines of the text.
///
/// It is made once a text, so that each place is looked up and not searched for.
#[derive(Drop)]
pub(crate) struct Places {
    starts: LineStarts,
    types: Vec<TypePlaces>,
    /// Where the root and the identifier are named; the text's start where it has none.
    root: u64,
    identifier: u64,
}

/// Sets where a field is named. A union's code is where the union is.
fn set_place(fields: &mut [u64], field: &FieldInfo, at: u64) {
    let slot = field.slot as usize;
    if let Some(place) = fields.get_mut(slot) {
        *place = at;
    }
    if let Shape::One(Kind::Union(_)) = field.shape
        && let Some(code) = slot.checked_sub(1)
        && let Some(place) = fields.get_mut(code)
    {
        *place = at;
    }
}

fn places_of(
    alloc: Global,
    declared: &TypeDecl<'_>,
    schema: &Schema,
    number: TypeId,
) -> Result<TypePlaces, AllocError> {
    let name = name_of(declared).1;
    let mut fields = vec![in alloc; name; fb_schema::fields_of(schema, number).len()]?;
    for field in fields_of(declared) {
        if let Some(found) = schema.field_by_name(number, field.name.text) {
            set_place(fields.as_mut_slice(), found, field.name.at);
        }
    }
    Ok(TypePlaces { name, fields })
}

impl Places {
    /// The places of a text, of which no declaration is known yet.
    pub(crate) fn none(alloc: Global, text: &[u8]) -> Result<Places, AllocError> {
        Ok(Places {
            starts: LineStarts::of(alloc, text)?,
            types: Vec::new(alloc),
            root: 0,
            identifier: 0,
        })
    }

    /// Adds the places of a schema's declarations.
    pub(crate) fn add_all(
        &mut self,
        alloc: Global,
        decls: &Decls<'_>,
        schema: &Schema,
    ) -> Result<(), AllocError> {
        for declaration in decls.declarations() {
            match declaration {
                Declaration::Type(declared) => self.add_type(alloc, declared, schema)?,
                Declaration::Directive(Directive::RootType(name)) => self.root = name.at(),
                Declaration::Directive(Directive::FileIdentifier(text)) => {
                    self.identifier = text.at
                }
                _ => {}
            }
        }
        Ok(())
    }

    fn add_type(
        &mut self,
        alloc: Global,
        declared: &TypeDecl<'_>,
        schema: &Schema,
    ) -> Result<(), AllocError> {
        let number = TypeId(self.types.len() as u64);
        self.types
            .push(places_of(alloc, declared, schema, number)?)?;
        Ok(())
    }

    /// The offset at which a type is named.
    fn offset_of_type(&self, number: TypeId) -> Option<u64> {
        Some(self.types.get(number.0 as usize)?.name)
    }

    /// The offset at which a table's or struct's field is named; the type's own where the text has no such field.
    fn offset_of_field(&self, owner: TypeId, slot: u64) -> Option<u64> {
        let found = self.types.get(owner.0 as usize)?;
        let field = found.fields.get(slot as usize).copied();
        Some(field.unwrap_or(found.name))
    }

    /// The line in which a type is named.
    pub(crate) fn line_of_type(&self, number: TypeId) -> Option<usize> {
        let offset = self.offset_of_type(number)?;
        Some(self.starts.line_of(offset as usize))
    }

    /// The line in which a table's or struct's field is named.
    pub(crate) fn line_of_field(&self, owner: TypeId, slot: u64) -> Option<usize> {
        let offset = self.offset_of_field(owner, slot)?;
        Some(self.starts.line_of(offset as usize))
    }

    /// Where a type or one of its fields is named; the text's start where it has none.
    pub(crate) fn location_of<'s>(
        &self,
        source: Source<'s>,
        owner: Option<TypeId>,
        slot: Option<u64>,
    ) -> Location<'s> {
        let offset = match (owner, slot) {
            (Some(owner), Some(slot)) => self.offset_of_field(owner, slot),
            (Some(owner), None) => self.offset_of_type(owner),
            (None, _) => None,
        };
        self.starts.location_of(source, offset.unwrap_or(0))
    }

    /// Where the root is named.
    pub(crate) fn location_of_root<'s>(&self, source: Source<'s>) -> Location<'s> {
        self.starts.location_of(source, self.root)
    }

    /// Where the file identifier is.
    pub(crate) fn location_of_identifier<'s>(&self, source: Source<'s>) -> Location<'s> {
        self.starts.location_of(source, self.identifier)
    }
}
