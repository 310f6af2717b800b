//! What a name is bound to in one namespace.

/// What a name stands for in one namespace: the definition, who may see it there, and what brought it.
#[derive(Clone, Copy, Debug, PartialEq, Eq, Hash)]
pub struct Item<Def, Vis, Import> {
    pub def: Def,
    pub vis: Vis,
    pub import: Option<Import>,
}

/// What is pushed to a name in one namespace: an item with the import that is to be stored, and whether a glob
/// pushes it.
#[derive(Clone, Copy)]
pub struct Push<Def, Vis, Import> {
    pub item: Item<Def, Vis, Import>,
    pub is_glob: bool,
}

/// A push, and what its import reached.
#[derive(Clone, Copy)]
pub struct Candidate<Def, Vis, Import, Target> {
    pub push: Push<Def, Vis, Import>,
    pub source: Target,
}
