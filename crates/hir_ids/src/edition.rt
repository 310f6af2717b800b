//! Editions of Rust.

/// An edition, the oldest first.
#[derive(Clone, Copy, Debug, PartialEq, Eq, PartialOrd, Ord, Hash)]
pub enum Edition {
    Edition2015,
    Edition2018,
    Edition2021,
    Edition2024,
}

impl Edition {
    /// The edition in which a text is printed that no crate owns.
    pub const LATEST: Edition = Edition::Edition2024;
}
