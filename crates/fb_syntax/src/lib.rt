//! Tokens and grammar of FlatBuffers schema texts.
#![tactic(auto)]

mod attributes;
mod bytes;
mod declarations;
mod faults;
mod integers;
mod parser;
mod scan;
mod schema_text;
mod tokens;

pub use attributes::{Attribute, BuiltInAttribute};
pub use declarations::{
    AttributeValue, Declaration, Decls, DefaultValue, Directive, DottedName, EnumDecl, EnumValue,
    Field, FieldType, Number, TableDecl, Text, TypeDecl, UnionDecl, UnionMember,
};
pub use faults::SyntaxFault;
pub use integers::integer_value;
pub use scan::{Tokens, one_spelling};
pub use schema_text::{one_reading, parse};
pub use tokens::{BadToken, Token, TokenKind};
