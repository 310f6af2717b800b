//! The stated limits of what is handed in.
ghost use Rattle.std.specs.Prelude.{◌≡◌, Some};
ghost use Rattle.hir_base.specs.Limit.{limit_text};

use std::fmt::{Display, Formatter, Write};

/// A limit, in the order in which limits are looked for.
#[derive(Clone, Copy, Debug, PartialEq, Eq, PartialOrd, Ord, Hash)]
pub enum Limit {
    Line,
    Name,
    Path,
    File,
    Index,
    Nodes,
    Modules,
    UseTree,
    Cfg,
    Blocks,
    Crates,
    Inner,
}

impl Limit {
    /// The limit's word in replies.
    pub fn as_str(&self) -> &'static str
        ensures value { result.now ≡ limit_text self.now }
    {
        match *self {
            Limit::Line => "line",
            Limit::Name => "name",
            Limit::Path => "path",
            Limit::File => "file",
            Limit::Index => "index",
            Limit::Nodes => "nodes",
            Limit::Modules => "modules",
            Limit::UseTree => "use tree",
            Limit::Cfg => "cfg",
            Limit::Blocks => "blocks",
            Limit::Crates => "crates",
            Limit::Inner => "inner",
        }
    }
}

impl Display for Limit {
    ghost output = { λ limit. Some (limit_text limit) };

    fn fmt<W: Write>(&self, f: &mut Formatter<W>) -> std::fmt::Result {
        f.write_str(self.as_str())
    }
}
