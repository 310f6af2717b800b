//! The variants of an enum.
ghost use Rattle.std.specs.Prelude.{◌≡◌, [], OnOk, OnErr};
ghost use Rattle.hir_map_parts.specs.References.{are_variants_of};
ghost use Rattle.hir_map_parts.specs.State.{at_name, with_name};

use hir_base::ids::{EnumId, EnumVariantId};
use hir_base::name::Name;
use hir_base::shape::FieldsShape;
use std::alloc::{AllocError, Global};
use std::collections::{BTreeMap, btree_map};
use std::marker::Model;

/// A variant: which it is, and the shape of its fields.
#[derive(Clone, Copy, Debug, PartialEq, Eq, Hash)]
pub struct EnumVariant {
    pub id: EnumVariantId,
    pub shape: FieldsShape,
}

/// The variants of an enum by name, after rust-analyzer's `EnumVariants`.
#[derive(Drop)]
pub struct EnumVariants {
    variants: BTreeMap<Name, EnumVariant>,
}

impl Model for EnumVariants {
    ghost use Rattle.hir_map_parts.specs.State.{Variants};

    ghost Value = { Variants };

    ghost view = { λ v. v.variants.entries };
}

impl EnumVariants {
    /// No variants.
    pub fn new(alloc: Global) -> EnumVariants
        ensures value { result ≡ [] }
    {
        EnumVariants {
            variants: BTreeMap::new(alloc),
        }
    }

    /// Adds a variant, in place of another of its name.
    pub fn insert(&mut self, name: Name, variant: EnumVariant) -> Result<(), AllocError>
        ensures ok { OnOk result (self.new ≡ with_name self.old name variant) }
        ensures err { OnErr result (self.new ≡ self.old) }
    {
        self.variants.insert(name, variant)?;
        Ok(())
    }

    /// The variant of a name.
    pub fn get(&self, name: &Name) -> Option<EnumVariant>
        ensures value { result ≡ at_name self.now name.now }
    {
        self.variants.get(name).copied()
    }

    /// The variants by name.
    pub fn iter(&self) -> btree_map::Iter<'_, Name, EnumVariant>
        ensures value { result ≡ self.now }
    {
        self.variants.iter()
    }

    /// Whether they are the variants of an enum.
    pub fn are_of(&self, id: EnumId) -> bool
        ensures value { result ≡ are_variants_of id self.now }
    {
        let mut left = self.variants.iter();
        'each: while let Some((_, variant)) = left.next() {
            if variant.id.parent != id {
                return false;
            }
        }
        true
    }
}

impl PartialEq for EnumVariants {
    ghost use Rattle.std.specs.Cmp.{partial_equiv_from_equiv};
    ghost use Rattle.hir_map_parts.specs.Equality.{same_variants, same_variants_equiv};

    ghost eq = { same_variants };

    ghost laws = { partial_equiv_from_equiv same_variants_equiv };

    fn eq(&self, other: &EnumVariants) -> bool {
        self.variants == other.variants
    }
}

impl Eq for EnumVariants {
    ghost use Rattle.hir_map_parts.specs.Equality.{same_variants_equiv};

    ghost laws = { same_variants_equiv };
}
