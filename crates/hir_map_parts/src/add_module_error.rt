//! Why a module isn't added to a map.

/// Why a module isn't added, in the order in which it is looked for.
#[derive(Clone, Copy, Debug, PartialEq, Eq)]
pub enum AddModuleError {
    /// The map has `MAX_MODULES` modules.
    TooMany,
    Memory,
}
