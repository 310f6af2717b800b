//! What has finished maps, and the part of them that may be read.

pub mod finished;
pub mod finished_maps;
pub mod part;
