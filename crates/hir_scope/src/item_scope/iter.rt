//! Walks over a scope. None of them takes memory.

pub mod bindings;
pub mod calls;
pub mod entries;
pub mod impls;
pub mod imports;
pub mod modules_and_traits;
pub mod tables;
