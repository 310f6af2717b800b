//! What a module declares, whether or not a name stands for it, is listed in its scope.
//!
//! After rust-analyzer's `ModCollector`, which calls these methods of a module's `ItemScope`.
ghost use Rattle.std.specs.Prelude.{◌≡◌, OnOk, OnErr};
ghost use Rattle.hir_def_map_rules.specs.State.{with_declared, with_extern_block, with_extern_crate, with_impl, with_scope, with_unnamed_const, with_use};
ghost use Rattle.hir_def_map_rules.specs.Declaration.{listed};

use crate::nameres::DefMap;
use hir_base::ids::{ConstId, ExternBlockId, ExternCrateId, ImplId, ModuleDefId, UseId};
use hir_def_map_rules::declaration::Declaration;
use std::alloc::AllocError;

impl DefMap {
    /// Lists a definition that a module declares; nothing happens where the module isn't there.
    pub fn declare(&mut self, at: u32, def: ModuleDefId) -> Result<(), AllocError>
        ensures ok { OnOk result (self.new ≡ with_declared self.old at def) }
        ensures err { OnErr result (self.new ≡ self.old) }
    {
        self.list(at, Declaration::Def(def))
    }

    /// Lists a `use` item of a module; nothing happens where the module isn't there.
    pub fn define_use(&mut self, at: u32, use_: UseId) -> Result<(), AllocError>
        ensures ok { OnOk result (self.new ≡ with_use self.old at use_) }
        ensures err { OnErr result (self.new ≡ self.old) }
    {
        self.list(at, Declaration::Use(use_))
    }

    /// Lists an `extern crate` item of a module; nothing happens where the module isn't there.
    pub fn define_extern_crate_decl(
        &mut self,
        at: u32,
        extern_crate: ExternCrateId,
    ) -> Result<(), AllocError>
        ensures ok { OnOk result (self.new ≡ with_extern_crate self.old at extern_crate) }
        ensures err { OnErr result (self.new ≡ self.old) }
    {
        self.list(at, Declaration::ExternCrate(extern_crate))
    }

    /// Lists an impl of a module, and whether it is of a trait; nothing happens where the module isn't there.
    pub fn define_impl(
        &mut self,
        at: u32,
        imp: ImplId,
        is_trait_impl: bool,
    ) -> Result<(), AllocError>
        ensures ok { OnOk result (self.new ≡ with_impl self.old at imp is_trait_impl) }
        ensures err { OnErr result (self.new ≡ self.old) }
    {
        self.list(at, Declaration::Impl(imp, is_trait_impl))
    }

    /// Lists an extern block of a module; nothing happens where the module isn't there.
    pub fn define_extern_block(
        &mut self,
        at: u32,
        extern_block: ExternBlockId,
    ) -> Result<(), AllocError>
        ensures ok { OnOk result (self.new ≡ with_extern_block self.old at extern_block) }
        ensures err { OnErr result (self.new ≡ self.old) }
    {
        self.list(at, Declaration::ExternBlock(extern_block))
    }

    /// Lists a constant without a name of a module; nothing happens where the module isn't there.
    pub fn define_unnamed_const(&mut self, at: u32, konst: ConstId) -> Result<(), AllocError>
        ensures ok { OnOk result (self.new ≡ with_unnamed_const self.old at konst) }
        ensures err { OnErr result (self.new ≡ self.old) }
    {
        self.list(at, Declaration::UnnamedConst(konst))
    }

    fn list(&mut self, at: u32, declaration: Declaration) -> Result<(), AllocError>
        ensures ok { OnOk result (self.new ≡ with_scope self.old at (listed declaration)) }
        ensures err { OnErr result (self.new ≡ self.old) }
    {
        self.modules.list(at as usize, declaration)
    }
}
