//! What the asker of a path chooses: how builtin types and macros are looked for.

/// Whether a module comes before a builtin type of its name.
#[derive(Clone, Copy, Debug, PartialEq, Eq)]
pub enum BuiltinShadowMode {
    /// It does.
    Module,
    /// The builtin type does, as where a type is wanted.
    Other,
}

/// Which macros are asked for.
#[derive(Clone, Copy, Debug, PartialEq, Eq)]
pub enum MacroSubNs {
    Bang,
    Attr,
}
