//! What a scope declares, after the `define_` methods of rust-analyzer's `ItemScope`.
ghost use Rattle.std.specs.Prelude.{◌≡◌, ◌++◌, ◌∷◌, [], OnOk, OnErr};
ghost use Rattle.hir_textual_scope.specs.Macros.{with_macro};
ghost use Rattle.hir_scope.specs.Scope.Updates.{with_unnamed_trait};

use crate::imports::ImportId;
use crate::item_scope::ItemScope;
use crate::per_ns::Item;
use crate::visibility::Visibility;
use hir_ids::ids::{ConstId, ExternBlockId, ExternCrateId, ImplId, ModuleDefId, TraitId, UseId};
use hir_ids::macro_kind::{BuiltinDeriveImplId, MacroId};
use hir_ids::name::Name;
use hir_textual_scope::textual_scope::TextualScope;
use std::alloc::AllocError;

impl ItemScope {
    /// Notes a definition that is declared here.
    pub fn declare(&mut self, def: ModuleDefId) -> Result<(), AllocError>
        ensures ok { OnOk result (self.new ≡ record self.old { declarations = self.old.declarations ++ def ∷ [] }) }
        ensures err { OnErr result (self.new ≡ self.old) }
    {
        self.declarations.push(def)?;
        Ok(())
    }

    /// Notes an impl, and whether it is of a trait.
    pub fn define_impl(&mut self, imp: ImplId, is_trait_impl: bool) -> Result<(), AllocError>
        ensures ok { OnOk result (self.new ≡ record self.old { impls = self.old.impls ++ (imp, is_trait_impl) ∷ [] }) }
        ensures err { OnErr result (self.new ≡ self.old) }
    {
        self.impls.push((imp, is_trait_impl))?;
        Ok(())
    }

    /// Notes the impl that a builtin derive macro stands for.
    pub fn define_builtin_derive_impl(&mut self, imp: BuiltinDeriveImplId) -> Result<(), AllocError>
        ensures ok { OnOk result (self.new ≡ record self.old { builtin_derive_impls = self.old.builtin_derive_impls ++ imp ∷ [] }) }
        ensures err { OnErr result (self.new ≡ self.old) }
    {
        self.builtin_derive_impls.push(imp)?;
        Ok(())
    }

    /// Notes an extern block.
    pub fn define_extern_block(&mut self, extern_block: ExternBlockId) -> Result<(), AllocError>
        ensures ok { OnOk result (self.new ≡ record self.old { extern_blocks = self.old.extern_blocks ++ extern_block ∷ [] }) }
        ensures err { OnErr result (self.new ≡ self.old) }
    {
        self.extern_blocks.push(extern_block)?;
        Ok(())
    }

    /// Notes an `extern crate` item.
    pub fn define_extern_crate_decl(
        &mut self,
        extern_crate: ExternCrateId,
    ) -> Result<(), AllocError>
        ensures ok { OnOk result (self.new ≡ record self.old { extern_crate_decls = self.old.extern_crate_decls ++ extern_crate ∷ [] }) }
        ensures err { OnErr result (self.new ≡ self.old) }
    {
        self.extern_crate_decls.push(extern_crate)?;
        Ok(())
    }

    /// Notes a constant without a name.
    pub fn define_unnamed_const(&mut self, konst: ConstId) -> Result<(), AllocError>
        ensures ok { OnOk result (self.new ≡ record self.old { unnamed_consts = self.old.unnamed_consts ++ konst ∷ [] }) }
        ensures err { OnErr result (self.new ≡ self.old) }
    {
        self.unnamed_consts.push(konst)?;
        Ok(())
    }

    /// Notes a `use` item.
    pub fn define_use(&mut self, use_: UseId) -> Result<(), AllocError>
        ensures ok { OnOk result (self.new ≡ record self.old { use_decls = self.old.use_decls ++ use_ ∷ [] }) }
        ensures err { OnErr result (self.new ≡ self.old) }
    {
        self.use_decls.push(use_)?;
        Ok(())
    }

    /// Defines a macro in textual scope, after those of its name that are there.
    pub fn define_legacy_macro(&mut self, name: Name, mac: MacroId) -> Result<(), AllocError>
        ensures ok { OnOk result (self.new ≡ record self.old { legacy_macros = with_macro self.old.legacy_macros name mac }) }
        ensures err { OnErr result (self.new ≡ self.old) }
    {
        self.legacy_macros.define(name, mac)
    }

    /// Takes these macros as those in textual scope.
    pub fn set_textual_scope(&mut self, macros: TextualScope)
        ensures value { self.new ≡ record self.old { legacy_macros = macros } }
    {
        self.legacy_macros = macros;
    }

    /// Imports a trait without a name.
    ///
    /// A trait that is there takes the visibility; its import stays.
    pub fn push_unnamed_trait(
        &mut self,
        tr: TraitId,
        vis: Visibility,
        import: Option<ImportId>,
    ) -> Result<(), AllocError>
        ensures ok { OnOk result (self.new ≡ record self.old { unnamed_traits = with_unnamed_trait self.old.unnamed_traits tr vis import }) }
        ensures err { OnErr result (self.new ≡ self.old) }
    {
        let import = match self.unnamed_traits.get(&tr) {
            Some(bound) => bound.import,
            None => import,
        };
        self.unnamed_traits.insert(
            tr,
            Item {
                def: (),
                vis,
                import,
            },
        )?;
        Ok(())
    }
}
