//! Tests of `hir_base`, over what it makes public; apart from it, so that it is proved once.
#![tactic(auto)]

#[cfg(test)]
mod conditions;
#[cfg(test)]
mod copies;
#[cfg(test)]
mod ids;
#[cfg(test)]
mod names;
#[cfg(test)]
mod tables;
