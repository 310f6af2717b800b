//! Names and paths as they print.
ghost use Rattle.std.specs.Prelude.{◌≡◌, Some, None};
ghost use Rattle.hir_base.specs.Display.{kind_text, path_shown, levels_text};
ghost use Rattle.hir_base.specs.DisplayText.{path_display_text};
ghost use Rattle.hir_ids.specs.Display.{behind, joined};
ghost use Rattle.std.specs.List.{flat_map};

use crate::edition::Edition;
use crate::mod_path::{ModPath, PathKind};
use crate::name::Name;
pub use hir_ids::display::{NameDisplay, is_reserved};
use std::fmt::{Display, Formatter, Write};

/// Names, each behind `::`.
#[derive(Clone, Copy)]
struct Behind<'a> {
    names: &'a [Name],
    edition: Option<Edition>,
}

impl Display for Behind<'_> {
    ghost output = { λ d. Some (flat_map (behind d.edition) d.names.now) };

    fn fmt<W: Write>(&self, f: &mut Formatter<W>) -> std::fmt::Result {
        let names = self.names;
        let edition = self.edition;
        for name in names {
            write!(f, "::{}", NameDisplay { name, edition })?;
        }
        Ok(())
    }
}

/// Names joined by `::`.
#[derive(Clone, Copy)]
struct Joined<'a> {
    names: &'a [Name],
    edition: Option<Edition>,
}

impl Display for Joined<'_> {
    ghost output = { λ d. Some (joined d.edition d.names.now) };

    fn fmt<W: Write>(&self, f: &mut Formatter<W>) -> std::fmt::Result {
        let edition = self.edition;
        let [name, names @ ..] = self.names else {
            return Ok(());
        };
        write!(
            f,
            "{}{}",
            NameDisplay { name, edition },
            Behind { names, edition }
        )
    }
}

/// Levels of `super`.
#[derive(Clone, Copy)]
struct Levels(u8);

impl Display for Levels {
    ghost output = { λ d. Some (levels_text d.0) };

    fn fmt<W: Write>(&self, f: &mut Formatter<W>) -> std::fmt::Result {
        let levels = self.0;
        if levels == 0 {
            return f.write_str("self");
        }
        f.write_str("super")?;
        for level in 1..levels {
            f.write_str("::super")?;
        }
        Ok(())
    }
}

impl Display for PathKind {
    ghost output = { λ kind. Some (kind_text kind) };

    fn fmt<W: Write>(&self, f: &mut Formatter<W>) -> std::fmt::Result {
        match *self {
            PathKind::Plain => Ok(()),
            PathKind::Abs => f.write_str("::"),
            PathKind::Crate => f.write_str("crate"),
            PathKind::Super(levels) => write!(f, "{}", Levels(levels)),
            PathKind::DollarCrate(krate) => write!(f, "${}", krate.0),
        }
    }
}

/// A path as it prints; see `ModPath::display`.
#[derive(Clone, Copy)]
pub struct ModPathDisplay<'a> {
    path: &'a ModPath,
    edition: Option<Edition>,
}

impl ModPath {
    /// The path as it is written in an edition: names that are reserved words are raw.
    pub fn display(&self, edition: Edition) -> ModPathDisplay<'_>
        ensures value { path_display_text result ≡ path_shown (Some edition) self.now }
    {
        ModPathDisplay {
            path: self,
            edition: Some(edition),
        }
    }

    /// The path as `parse` reads it: no name is raw.
    pub fn display_verbatim(&self) -> ModPathDisplay<'_>
        ensures value { path_display_text result ≡ path_shown None self.now }
    {
        ModPathDisplay {
            path: self,
            edition: None,
        }
    }
}

impl Display for ModPathDisplay<'_> {
    ghost output = { λ d. Some (path_shown d.edition d.path.now) };

    fn fmt<W: Write>(&self, f: &mut Formatter<W>) -> std::fmt::Result {
        let kind = self.path.kind();
        let names = self.path.segments();
        let edition = self.edition;
        match kind {
            PathKind::Plain | PathKind::Abs => write!(f, "{}{}", kind, Joined { names, edition }),
            _ => write!(f, "{}{}", kind, Behind { names, edition }),
        }
    }
}
