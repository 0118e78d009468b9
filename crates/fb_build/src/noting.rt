//! A tape with the tables that aren't whole yet, and what is stored as a reference.
ghost use Rattle.std.specs.Prelude.{◌≡◌, [], IfOk};
ghost use Rattle.fb_layout.specs.Laid.{LaidSchema};
ghost use Rattle.fb_tape.specs.Tapes.{Waits};
ghost use Rattle.fb_build.specs.Fields.{is_reference, shape_seen};

use fb_layout::Layout;
use fb_schema::{Kind, Shape};
use fb_tape::{OpenFields, Tape};
use std::alloc::{AllocError, Global};

/// A tape, and the stored fields of the tables that aren't whole yet.
#[derive(Drop)]
pub struct Noting<'l> {
    /// What is noted of texts, vectors and whole tables.
    pub tape: Tape<'l>,
    /// The stored fields of tables that stand in one another, the innermost table's last.
    pub opened: OpenFields,
}

impl<'l> Noting<'l> {
    /// A tape of nothing.
    pub fn new(alloc: Global, layout: &'l Layout) -> Noting<'l>
        ensures layout { result.tape.layout ≡ layout.now }
        ensures waits { Waits result.tape [] }
        ensures whole { result.tape.unfinished ≡ [] }
        ensures room { result.tape.room ≡ 0 }
        ensures opened { result.opened ≡ [] }
    {
        Noting {
            tape: Tape::new(alloc, layout),
            opened: OpenFields::new(alloc),
        }
    }

    /// The same, with memory for the first parts.
    pub fn with_capacity(alloc: Global, layout: &'l Layout) -> Result<Noting<'l>, AllocError>
        ensures layout { IfOk result (λ noting. noting.tape.layout ≡ layout.now) }
        ensures waits { IfOk result (λ noting. Waits noting.tape []) }
        ensures whole { IfOk result (λ noting. noting.tape.unfinished ≡ []) }
        ensures room { IfOk result (λ noting. noting.tape.room ≡ 0) }
        ensures opened { IfOk result (λ noting. noting.opened ≡ []) }
    {
        let mut noting = Noting::new(alloc, layout);
        noting.tape.reserve()?;
        noting.opened.reserve()?;
        Ok(noting)
    }
}

/// Whether a shape is stored as a reference.
pub fn is_reference(shape: Shape) -> bool
    ensures { (L : LaidSchema) → result ≡ is_reference (shape_seen L shape) }
{
    matches!(
        shape,
        Shape::One(Kind::Text | Kind::Table(_) | Kind::Union(_)) | Shape::Many(_)
    )
}
