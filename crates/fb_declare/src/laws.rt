//! The laws of schema texts, and those of the layers that they rest on.
ghost use Rattle.fb_declare.specs.SchemaLaws.{RefusedTextHasNoLayout, SchemaLaws, TextHasOneLayout};

use crate::schema::one_schema;
use fb_layout::{no_layout_where_refused, one_layout};
use fb_syntax::{one_reading, one_spelling};

/// What the layers promise of all schema texts. It does nothing when it runs.
#[inline(always)]
pub(crate) fn schema_laws()
    ensures laws { SchemaLaws }
{
    one_spelling();
    one_reading();
    one_schema();
    one_layout();
    no_layout_where_refused();
}

/// A schema text has one layout at most.
pub fn text_has_one_layout()
    ensures { TextHasOneLayout }
{
    schema_laws();
}

/// A schema text that a layer refuses has no layout, unless that layer ran out of memory.
pub fn refused_text_has_no_layout()
    ensures { RefusedTextHasNoLayout }
{
    schema_laws();
}
