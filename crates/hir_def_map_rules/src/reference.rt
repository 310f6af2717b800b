//! What a map refers to.
ghost use Rattle.std.specs.Prelude.{◌≡◌};
ghost use Rattle.hir_def_map_rules.specs.References.{map_of_reference, reference_to, visibility_reference};

use hir_base::ids::{AdtId, EnumId, MapId, ModuleDefId, ModuleId};
use hir_scope::visibility::Visibility;

/// A module, an enum or a map that a map refers to.
#[derive(Clone, Copy, Debug)]
pub enum Reference {
    Module(ModuleId),
    Enum(EnumId),
    Map(MapId),
}

/// What has to be there for a definition: a module itself, an enum itself, and a variant's enum.
pub fn reference_to(def: ModuleDefId) -> Option<Reference>
    ensures value { result ≡ reference_to def }
{
    match def {
        ModuleDefId::ModuleId(id) => Some(Reference::Module(id)),
        ModuleDefId::AdtId(AdtId::EnumId(id)) => Some(Reference::Enum(id)),
        ModuleDefId::EnumVariantId(id) => Some(Reference::Enum(id.parent)),
        _ => None,
    }
}

/// The module that a visibility names.
pub fn visibility_reference(vis: Visibility) -> Option<Reference>
    ensures value { result ≡ visibility_reference vis }
{
    match vis {
        Visibility::Module(id, _) => Some(Reference::Module(id)),
        _ => None,
    }
}

impl Reference {
    /// The map in which it has to be.
    pub fn map(self) -> MapId
        ensures value { result ≡ map_of_reference self }
    {
        match self {
            Reference::Module(id) => id.map,
            Reference::Enum(id) => id.loc.container.map,
            Reference::Map(id) => id,
        }
    }
}
