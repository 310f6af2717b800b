//! Whether a visibility is written.
ghost use Rattle.std.specs.Prelude.{◌≡◌, ◌↔◌, IsTrue};
ghost use Rattle.hir_ids.specs.declared.explicitness.VisibilityExplicitness.TheVariants.{Explicit};

/// Whether a visibility was written.
#[derive(Clone, Copy, Debug, PartialEq, Eq, PartialOrd, Ord, Hash)]
pub enum VisibilityExplicitness {
    Explicit,
    Implicit,
}

impl VisibilityExplicitness {
    /// Whether it was written.
    pub fn is_explicit(&self) -> bool
        ensures value { IsTrue result ↔ (self.now ≡ Explicit) }
    {
        match self {
            VisibilityExplicitness::Explicit => true,
            VisibilityExplicitness::Implicit => false,
        }
    }
}
