//! The fields of a row.
use crate::faults::RowFault;
use crate::repeats::{Repeat, expand, repeats_of};
use json::{Scratch, Value};
use std::alloc::Global;

/// The fields of a row that nothing has taken yet, and what its texts repeat.
#[derive(Drop)]
pub(crate) struct Fields<'a> {
    alloc: Global,
    left: Vec<(&'a str, Value<'a>)>,
    repeats: Vec<Repeat<'a>>,
}

impl<'a> Fields<'a> {
    /// The fields of a line, which is a JSON object without a key twice.
    pub(crate) fn parse(
        alloc: Global,
        line: &'a str,
        scratch: &'a mut Scratch,
    ) -> Result<Fields<'a>, RowFault> {
        match Value::parse_strict(alloc, line, scratch) {
            Ok(Value::Object(left)) => Fields::of(alloc, left),
            Ok(_) => Err(RowFault::NotAnObject),
            Err(error) => Err(RowFault::NotJson(error)),
        }
    }

    /// These fields, where `repeats` names what the others repeat.
    fn of(alloc: Global, left: Vec<(&'a str, Value<'a>)>) -> Result<Fields<'a>, RowFault> {
        let mut fields = Fields {
            alloc,
            left,
            repeats: Vec::new(alloc),
        };
        if let Some(value) = fields.value("repeats") {
            fields.repeats = repeats_of(alloc, value)?;
        }
        Ok(fields)
    }

    /// Whether the texts are written out.
    pub(crate) fn is_written_out(&self) -> bool {
        self.repeats.is_empty()
    }

    /// Whether every field was taken.
    pub(crate) fn is_empty(&self) -> bool {
        self.left.is_empty()
    }

    /// Takes a field of any type.
    pub(crate) fn value(&mut self, name: &'static str) -> Option<Value<'a>> {
        let place = self.left.iter().position(|(key, _)| *key == name)?;
        let (_, value) = self.left.remove(place);
        Some(value)
    }

    /// Takes a text, if it is there.
    pub(crate) fn optional_text(&mut self, name: &'static str) -> Result<Option<String>, RowFault> {
        match self.value(name) {
            None => Ok(None),
            Some(Value::String(text)) => {
                Ok(Some(expand(self.alloc, text, self.repeats.as_slice())?))
            }
            Some(_) => Err(RowFault::Invalid(name)),
        }
    }

    /// Takes a text.
    pub(crate) fn text(&mut self, name: &'static str) -> Result<String, RowFault> {
        match self.optional_text(name)? {
            Some(text) => Ok(text),
            None => Err(RowFault::Missing(name)),
        }
    }

    /// Takes a number, if it is there.
    pub(crate) fn number(&mut self, name: &'static str) -> Result<Option<u64>, RowFault> {
        match self.value(name) {
            None => Ok(None),
            Some(value) => match value.as_u64() {
                Some(number) => Ok(Some(number)),
                None => Err(RowFault::Invalid(name)),
            },
        }
    }

    /// Takes a flag, which is false where it isn't there.
    pub(crate) fn flag(&mut self, name: &'static str) -> Result<bool, RowFault> {
        match self.value(name) {
            None => Ok(false),
            Some(Value::Bool(flag)) => Ok(flag),
            Some(_) => Err(RowFault::Invalid(name)),
        }
    }
}
