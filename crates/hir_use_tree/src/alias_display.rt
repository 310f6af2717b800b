//! Aliases of imports as they print.
ghost use Rattle.std.specs.Prelude.{◌≡◌, Some};
ghost use Rattle.hir_use_tree.specs.AliasDisplay.{alias_shown, alias_display_text};

use crate::imports::ImportAlias;
use hir_base::edition::Edition;
use std::fmt::{Display, Formatter, Write};

/// An alias as it prints; see `ImportAlias::display`.
#[derive(Clone, Copy)]
pub struct ImportAliasDisplay<'a> {
    alias: &'a ImportAlias,
    edition: Edition,
}

impl ImportAlias {
    /// The alias as it is written in an edition: a reserved word is raw.
    pub fn display(&self, edition: Edition) -> ImportAliasDisplay<'_>
        ensures value { alias_display_text result ≡ alias_shown edition self.now }
    {
        ImportAliasDisplay {
            alias: self,
            edition,
        }
    }
}

impl Display for ImportAliasDisplay<'_> {
    ghost output = { λ d. Some (alias_display_text d) };

    fn fmt<W: Write>(&self, f: &mut Formatter<W>) -> std::fmt::Result {
        let edition = self.edition;
        match self.alias {
            ImportAlias::Underscore => f.write_str("_"),
            ImportAlias::Alias(name) => write!(f, "{}", name.display(edition)),
        }
    }
}
