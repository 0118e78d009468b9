//! Which blanks and line feeds stand between the values of a text.

/// How a JSON text is spaced.
#[derive(Clone, Copy, Debug, PartialEq, Eq, Drop)]
pub enum Spacing {
    /// Two blanks an indent, one member or element a line, and a line feed at the end.
    Indented,
    /// No blanks and no line feeds outside strings, also none at the end.
    Compact,
}

/// How far a line is indented, in levels of two blanks.
#[derive(Clone, Copy)]
pub(crate) enum Indent<'a> {
    Levels(u64),
    /// So many levels deeper than another, where no `u64` has the sum.
    Deeper(&'a Indent<'a>, u64),
    /// There are no lines.
    Compact,
}

impl Indent<'_> {
    ghost use Rattle.std.specs.Prelude.{◌≡◌};
    ghost use Rattle.fb_text.specs.Indents.{blanks, deeper};
    ghost use Rattle.fb_text.specs.Texts.{edge, inside};

    /// No blanks.
    pub(crate) fn edge(spacing: Spacing) -> Indent<'static>
        ensures { blanks result ≡ edge spacing }
    {
        match spacing {
            Spacing::Indented => Indent::Levels(0),
            Spacing::Compact => Indent::Compact,
        }
    }

    /// So many levels deeper.
    #[inline]
    pub(crate) fn deeper(&self, levels: u64) -> Indent<'_>
        ensures { blanks result ≡ deeper levels (blanks self.now) }
    {
        match self {
            Indent::Levels(outer) if *outer <= u64::MAX - levels => Indent::Levels(*outer + levels),
            Indent::Levels(_) => Indent::Deeper(self, levels),
            Indent::Deeper(_, _) => Indent::Deeper(self, levels),
            Indent::Compact => Indent::Compact,
        }
    }

    /// One level deeper.
    pub(crate) fn inside(&self) -> Indent<'_>
        ensures { blanks result ≡ inside (blanks self.now) }
    {
        self.deeper(1)
    }
}
