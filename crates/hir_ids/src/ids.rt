//! Crates, def maps, modules and items, after rust-analyzer's `ItemLoc`, `Lookup` and `HasModule`.
//!
//! An item's id carries its location: what holds the item, the tree that it is written in and its node there. So no
//! table is asked for it.
ghost use Rattle.std.specs.Prelude.{◌≡◌, None};
ghost use Rattle.hir_ids.specs.Ids.{container_module, adt_module, assoc_module, definition_module, definition_krate};

use crate::ast_id::{BlockId, HirFileId, SyntaxId};
use crate::builtin_type::BuiltinType;
use crate::macro_kind::MacroId;

/// A crate, by its number in the workspace.
#[derive(Clone, Copy, Debug, PartialEq, Eq, PartialOrd, Ord, Hash)]
pub struct Crate(pub u32);

/// The def map of a crate, or of a block of a crate.
#[derive(Clone, Copy, Debug, PartialEq, Eq, PartialOrd, Ord, Hash)]
pub struct MapId {
    pub krate: Crate,
    pub block: Option<BlockId>,
}

impl MapId {
    /// The def map of a crate.
    pub fn of_crate(krate: Crate) -> MapId
        ensures value { result ≡ record { krate = krate; block = None } }
    {
        MapId { krate, block: None }
    }
}

/// A module, by its number in its def map; the root has number 0.
#[derive(Clone, Copy, Debug, PartialEq, Eq, PartialOrd, Ord, Hash)]
pub struct ModuleId {
    pub map: MapId,
    pub index: u32,
}

impl ModuleId {
    /// The root of a def map.
    pub fn root(map: MapId) -> ModuleId
        ensures value { result ≡ record { map = map; index = 0 } }
    {
        ModuleId { map, index: 0 }
    }
}

/// What lies in a module, or is one.
pub trait HasModule: Copy {
    ghost use Rattle.hir_ids.specs.declared.ids.ModuleId.{ModuleId};

    ghost module_of: { Self → ModuleId };

    /// The module itself, or the one that holds it.
    fn module(self) -> ModuleId
        ensures value { result ≡ module_of self };

    /// That module's crate.
    fn krate(self) -> Crate
        ensures value { result ≡ (module_of self).map.krate }
    {
        self.module().map.krate
    }
}

impl HasModule for ModuleId {
    ghost module_of = { λ id. id };

    fn module(self) -> ModuleId {
        self
    }
}

/// An id that carries its item's location.
pub trait Lookup: Copy {
    type Loc: HasModule;

    ghost loc_of: { Self → Self.Loc };

    /// Where the item is written, and what holds it.
    fn lookup(self) -> Self::Loc
        ensures value { result ≡ loc_of self };

    /// The module that holds it.
    fn module(self) -> ModuleId
        ensures value { result ≡ Self.Loc.module_of (loc_of self) }
    {
        self.lookup().module()
    }

    /// That module's crate.
    fn krate(self) -> Crate
        ensures value { result ≡ (Self.Loc.module_of (loc_of self)).map.krate }
    {
        self.lookup().krate()
    }
}

/// The location of an item that `C` holds.
#[derive(Clone, Copy, Debug, PartialEq, Eq, PartialOrd, Ord, Hash)]
pub struct ItemLoc<C> {
    pub container: C,
    pub file_id: HirFileId,
    /// The block whose tree keeps the item, if any.
    pub block: Option<BlockId>,
    pub id: SyntaxId,
}

impl<C: HasModule> HasModule for ItemLoc<C> {
    ghost module_of = { λ loc. C.module_of loc.container };

    fn module(self) -> ModuleId {
        self.container.module()
    }
}

/// An extern block.
#[derive(Clone, Copy, Debug, PartialEq, Eq, PartialOrd, Ord, Hash)]
pub struct ExternBlockId {
    pub loc: ItemLoc<ModuleId>,
}

impl Lookup for ExternBlockId {
    type Loc = ItemLoc<ModuleId>;

    ghost loc_of = { λ id. id.loc };

    fn lookup(self) -> ItemLoc<ModuleId> {
        self.loc
    }
}

/// An impl.
#[derive(Clone, Copy, Debug, PartialEq, Eq, PartialOrd, Ord, Hash)]
pub struct ImplId {
    pub loc: ItemLoc<ModuleId>,
}

impl Lookup for ImplId {
    type Loc = ItemLoc<ModuleId>;

    ghost loc_of = { λ id. id.loc };

    fn lookup(self) -> ItemLoc<ModuleId> {
        self.loc
    }
}

/// A trait.
#[derive(Clone, Copy, Debug, PartialEq, Eq, PartialOrd, Ord, Hash)]
pub struct TraitId {
    pub loc: ItemLoc<ModuleId>,
}

impl Lookup for TraitId {
    type Loc = ItemLoc<ModuleId>;

    ghost loc_of = { λ id. id.loc };

    fn lookup(self) -> ItemLoc<ModuleId> {
        self.loc
    }
}

/// A struct.
#[derive(Clone, Copy, Debug, PartialEq, Eq, PartialOrd, Ord, Hash)]
pub struct StructId {
    pub loc: ItemLoc<ModuleId>,
}

impl Lookup for StructId {
    type Loc = ItemLoc<ModuleId>;

    ghost loc_of = { λ id. id.loc };

    fn lookup(self) -> ItemLoc<ModuleId> {
        self.loc
    }
}

/// A union.
#[derive(Clone, Copy, Debug, PartialEq, Eq, PartialOrd, Ord, Hash)]
pub struct UnionId {
    pub loc: ItemLoc<ModuleId>,
}

impl Lookup for UnionId {
    type Loc = ItemLoc<ModuleId>;

    ghost loc_of = { λ id. id.loc };

    fn lookup(self) -> ItemLoc<ModuleId> {
        self.loc
    }
}

/// An enum.
#[derive(Clone, Copy, Debug, PartialEq, Eq, PartialOrd, Ord, Hash)]
pub struct EnumId {
    pub loc: ItemLoc<ModuleId>,
}

impl Lookup for EnumId {
    type Loc = ItemLoc<ModuleId>;

    ghost loc_of = { λ id. id.loc };

    fn lookup(self) -> ItemLoc<ModuleId> {
        self.loc
    }
}

/// A `use` item.
#[derive(Clone, Copy, Debug, PartialEq, Eq, PartialOrd, Ord, Hash)]
pub struct UseId {
    pub loc: ItemLoc<ModuleId>,
}

impl Lookup for UseId {
    type Loc = ItemLoc<ModuleId>;

    ghost loc_of = { λ id. id.loc };

    fn lookup(self) -> ItemLoc<ModuleId> {
        self.loc
    }
}

/// An `extern crate` item.
#[derive(Clone, Copy, Debug, PartialEq, Eq, PartialOrd, Ord, Hash)]
pub struct ExternCrateId {
    pub loc: ItemLoc<ModuleId>,
}

impl Lookup for ExternCrateId {
    type Loc = ItemLoc<ModuleId>;

    ghost loc_of = { λ id. id.loc };

    fn lookup(self) -> ItemLoc<ModuleId> {
        self.loc
    }
}

/// What holds an item.
#[derive(Clone, Copy, Debug, PartialEq, Eq, PartialOrd, Ord, Hash)]
pub enum ItemContainerId {
    ExternBlockId(ExternBlockId),
    ModuleId(ModuleId),
    ImplId(ImplId),
    TraitId(TraitId),
}

impl HasModule for ItemContainerId {
    ghost module_of = { container_module };

    fn module(self) -> ModuleId {
        match self {
            ItemContainerId::ExternBlockId(id) => id.loc.container,
            ItemContainerId::ModuleId(id) => id,
            ItemContainerId::ImplId(id) => id.loc.container,
            ItemContainerId::TraitId(id) => id.loc.container,
        }
    }
}

/// A function.
#[derive(Clone, Copy, Debug, PartialEq, Eq, PartialOrd, Ord, Hash)]
pub struct FunctionId {
    pub loc: ItemLoc<ItemContainerId>,
}

impl Lookup for FunctionId {
    type Loc = ItemLoc<ItemContainerId>;

    ghost loc_of = { λ id. id.loc };

    fn lookup(self) -> ItemLoc<ItemContainerId> {
        self.loc
    }
}

/// A constant.
#[derive(Clone, Copy, Debug, PartialEq, Eq, PartialOrd, Ord, Hash)]
pub struct ConstId {
    pub loc: ItemLoc<ItemContainerId>,
}

impl Lookup for ConstId {
    type Loc = ItemLoc<ItemContainerId>;

    ghost loc_of = { λ id. id.loc };

    fn lookup(self) -> ItemLoc<ItemContainerId> {
        self.loc
    }
}

/// A static.
#[derive(Clone, Copy, Debug, PartialEq, Eq, PartialOrd, Ord, Hash)]
pub struct StaticId {
    pub loc: ItemLoc<ItemContainerId>,
}

impl Lookup for StaticId {
    type Loc = ItemLoc<ItemContainerId>;

    ghost loc_of = { λ id. id.loc };

    fn lookup(self) -> ItemLoc<ItemContainerId> {
        self.loc
    }
}

/// A type alias.
#[derive(Clone, Copy, Debug, PartialEq, Eq, PartialOrd, Ord, Hash)]
pub struct TypeAliasId {
    pub loc: ItemLoc<ItemContainerId>,
}

impl Lookup for TypeAliasId {
    type Loc = ItemLoc<ItemContainerId>;

    ghost loc_of = { λ id. id.loc };

    fn lookup(self) -> ItemLoc<ItemContainerId> {
        self.loc
    }
}

/// A variant of an enum, written in the enum's tree.
#[derive(Clone, Copy, Debug, PartialEq, Eq, PartialOrd, Ord, Hash)]
pub struct EnumVariantId {
    pub parent: EnumId,
    pub id: SyntaxId,
}

impl EnumVariantId {
    /// The variant's location, which its id is.
    pub fn lookup(self) -> EnumVariantId
        ensures value { result ≡ self }
    {
        self
    }
}

impl HasModule for EnumVariantId {
    ghost module_of = { λ id. id.parent.loc.container };

    fn module(self) -> ModuleId {
        self.parent.loc.container
    }
}

/// A struct, a union or an enum.
#[derive(Clone, Copy, Debug, PartialEq, Eq, PartialOrd, Ord, Hash)]
pub enum AdtId {
    StructId(StructId),
    UnionId(UnionId),
    EnumId(EnumId),
}

impl HasModule for AdtId {
    ghost module_of = { adt_module };

    fn module(self) -> ModuleId {
        match self {
            AdtId::StructId(id) => id.loc.container,
            AdtId::UnionId(id) => id.loc.container,
            AdtId::EnumId(id) => id.loc.container,
        }
    }
}

/// What a name of types or values stands for.
#[derive(Clone, Copy, Debug, PartialEq, Eq, PartialOrd, Ord, Hash)]
pub enum ModuleDefId {
    ModuleId(ModuleId),
    FunctionId(FunctionId),
    AdtId(AdtId),
    EnumVariantId(EnumVariantId),
    ConstId(ConstId),
    StaticId(StaticId),
    TraitId(TraitId),
    TypeAliasId(TypeAliasId),
    BuiltinType(BuiltinType),
    MacroId(MacroId),
}

impl ModuleDefId {
    /// The module itself, or the one that holds the definition; a builtin type has none.
    pub fn module(self) -> Option<ModuleId>
        ensures value { result ≡ definition_module self }
    {
        match self {
            ModuleDefId::ModuleId(id) => Some(id),
            ModuleDefId::FunctionId(id) => Some(id.module()),
            ModuleDefId::AdtId(id) => Some(id.module()),
            ModuleDefId::EnumVariantId(id) => Some(id.module()),
            ModuleDefId::ConstId(id) => Some(id.module()),
            ModuleDefId::StaticId(id) => Some(id.module()),
            ModuleDefId::TraitId(id) => Some(id.module()),
            ModuleDefId::TypeAliasId(id) => Some(id.module()),
            ModuleDefId::BuiltinType(_) => None,
            ModuleDefId::MacroId(id) => Some(id.module()),
        }
    }

    /// That module's crate.
    pub fn krate(self) -> Option<Crate>
        ensures value { result ≡ definition_krate self }
    {
        match self.module() {
            Some(module) => Some(module.krate()),
            None => None,
        }
    }
}

/// An item of a trait or an impl.
#[derive(Clone, Copy, Debug, PartialEq, Eq, PartialOrd, Ord, Hash)]
pub enum AssocItemId {
    FunctionId(FunctionId),
    ConstId(ConstId),
    TypeAliasId(TypeAliasId),
}

impl HasModule for AssocItemId {
    ghost module_of = { assoc_module };

    fn module(self) -> ModuleId {
        match self {
            AssocItemId::FunctionId(id) => id.module(),
            AssocItemId::ConstId(id) => id.module(),
            AssocItemId::TypeAliasId(id) => id.module(),
        }
    }
}
