//! Tests of `hir_item_tree`, over what it makes public; apart from it, so that it is proved once.
//!
//! Pages and limits that the text of a source can reach are rows of `hir_session_rows`.
#![tactic(auto)]

#[cfg(test)]
mod attributes;
#[cfg(test)]
mod equal_trees;
#[cfg(test)]
mod handed_in;
#[cfg(test)]
mod item_tree;
#[cfg(test)]
mod kinds;
#[cfg(test)]
mod large;
#[cfg(test)]
mod limits;
#[cfg(test)]
mod lowered_use_trees;
#[cfg(test)]
mod pages;
#[cfg(test)]
mod trees;
#[cfg(test)]
mod units;
#[cfg(test)]
mod use_items;
#[cfg(test)]
mod use_trees;
