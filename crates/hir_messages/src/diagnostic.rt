//! What couldn't be resolved in a crate, as a caller names things.
ghost use Rattle.std.specs.Prelude.{◌≡◌};

use crate::answer::{Definition, SourceCallKind, SourceItem};
use hir_base::mod_path::ModPath;
use hir_base::text::Text;
use std::marker::Model;

/// Texts, one after another.
#[derive(Drop)]
pub struct Texts {
    inner: Vec<Text>,
}

impl Model for Texts {
    ghost use Rattle.std.specs.Prelude.{ℕ, List};

    ghost Value = { List (List ℕ) };

    ghost view = { λ t. t.inner.items };
}

impl Texts {
    pub fn new(inner: Vec<Text>) -> Texts
        ensures value { result ≡ inner.items }
    {
        Texts { inner }
    }

    pub fn as_slice(&self) -> &[Text]
        ensures value { result.now ≡ self.now }
    {
        self.inner.as_slice()
    }
}

/// A macro call, by the called or decorated item.
#[derive(Drop)]
pub struct CalledItem {
    pub item: SourceItem,
    pub kind: SourceCallKind,
}

/// What is wrong, and with which item.
#[derive(Drop)]
pub enum DiagnosticKind {
    /// The file of a `mod` item isn't there: the files that were looked for, as they are written.
    UnresolvedModule {
        candidates: Texts,
        item: SourceItem,
    },
    UnresolvedExternCrate {
        item: SourceItem,
    },
    /// An import of a `use` item, by its leaf's place in the use tree.
    UnresolvedImport {
        item: SourceItem,
        place: u32,
    },
    /// A condition that leaves the item out, as a page prints it.
    UnconfiguredCode {
        cfg: Text,
        item: SourceItem,
    },
    UnresolvedMacroCall {
        call: CalledItem,
        path: ModPath,
    },
    /// A builtin macro that has no expander.
    UnimplementedBuiltinMacro {
        item: SourceItem,
    },
    /// A `derive` on an item that is no struct, enum or union, by the number of the attribute.
    InvalidDeriveTarget {
        attr: u32,
        item: SourceItem,
    },
    /// A `derive` without paths, by the number of the attribute.
    MalformedDerive {
        attr: u32,
        item: SourceItem,
    },
    MacroDefError {
        item: SourceItem,
        message: Text,
    },
    /// A call whose macro is known, and why it didn't expand.
    MacroError {
        error: Text,
        item: SourceItem,
        path: ModPath,
    },
}

/// What is wrong, and in which module.
#[derive(Drop)]
pub struct Diagnostic {
    pub in_module: Definition,
    pub kind: DiagnosticKind,
}

/// Diagnostics in the order in which they were found.
#[derive(Drop)]
pub struct Diagnostics {
    inner: Vec<Diagnostic>,
}

impl Model for Diagnostics {
    ghost use Rattle.std.specs.Prelude.{List};
    ghost use Rattle.hir_messages.specs.declared.diagnostic.Diagnostic.{Diagnostic};

    ghost Value = { List Diagnostic };

    ghost view = { λ d. d.inner.items };
}

impl Diagnostics {
    pub fn new(inner: Vec<Diagnostic>) -> Diagnostics
        ensures value { result ≡ inner.items }
    {
        Diagnostics { inner }
    }

    pub fn as_slice(&self) -> &[Diagnostic]
        ensures value { result.now ≡ self.now }
    {
        self.inner.as_slice()
    }
}
