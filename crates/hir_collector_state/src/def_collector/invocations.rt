//! What scopes note of macro calls, attributes and derives.
#![tactic(auto, unfolding(hir_collector_rules::specs::State::core_in))]

ghost use Rattle.std.specs.Prelude.{◌≡◌, ◌<◌, None, length, replicate, IfOk, OnOk};
ghost use Rattle.hir_collector_rules.specs.State.{core_in, with_map};
ghost use Rattle.hir_collector_rules.specs.Invocations.{derive_met, impl_noted, invocation_of, of_derive, of_path, with_invocation, with_noted};
ghost use Rattle.hir_collector_state.specs.Waiting.{IsNoted};

use crate::def_collector::DefCollector;
use either::Either;
use hir_base::ast_id::{AstId, AttrId, MacroCallId};
use hir_base::macro_kind::BuiltinDeriveImplId;
use hir_base::mod_path::ModPath;
use hir_collector_rules::hir_nameres::nameres::DefMap;
use hir_collector_rules::hir_scope::item_scope::ItemScope;
use hir_collector_rules::macro_directive::{MacroDirective, MacroDirectiveKind};
use std::alloc::{AllocError, Global};

/// What a path of a `derive` became, if it became something.
type Slot = Option<Either<MacroCallId, BuiltinDeriveImplId>>;

/// Notes what a path of a `derive` became, where it has a slot.
fn set_path(
    scope: &mut ItemScope,
    item: AstId,
    attr: AttrId,
    index: u32,
    became: Either<MacroCallId, BuiltinDeriveImplId>,
)
    ensures value { scope.new ≡ with_invocation (of_path item attr index became) scope.old }
{
    let index = index as usize;
    if scope.has_derive_slot(item, attr, index) {
        scope.set_derive_macro_invoc(item, became, attr, index);
    }
}

/// Notes what a call, a path of a derive or an attribute became.
fn note_in_scope(
    scope: &mut ItemScope,
    call: &MacroDirective,
    id: MacroCallId,
) -> Result<(), AllocError>
    ensures ok { OnOk result (scope.new ≡ with_invocation (invocation_of call.now id) scope.old) }
{
    match &call.kind {
        MacroDirectiveKind::FnLike { .. } => scope.add_macro_invoc(call.ast_id, id),
        MacroDirectiveKind::Attr { .. } => scope.add_attr_macro_invoc(call.ast_id, id),
        MacroDirectiveKind::Derive { attr, index, .. } => {
            set_path(scope, call.ast_id, *attr, *index, Either::Left(id));
            Ok(())
        }
    }
}

/// Notes it in the scope of a module of a map.
fn note_in_module(
    map: &mut DefMap,
    call: &MacroDirective,
    id: MacroCallId,
) -> Result<(), AllocError>
    requires in_range { call.now.site.home < length map.old.modules }
    ensures ok { OnOk result (map.new ≡ with_noted map.old call.now.site.home (invocation_of call.now id)) }
{
    note_in_scope(map.scope_mut(call.site.home), call, id)
}

/// Notes in the scope of a module of a map the impl that a path of a `derive` stands for.
fn note_impl_in_module(map: &mut DefMap, home: u32, item: AstId, imp: BuiltinDeriveImplId)
    requires in_range { home < length map.old.modules }
    ensures value { map.new ≡ with_noted map.old home (impl_noted item imp) }
{
    let became = Either::Right(imp);
    set_path(
        map.scope_mut(home),
        item,
        imp.derive_attr_id,
        imp.derive_index,
        became,
    );
}

/// So many slots of paths, none of which became anything.
fn empty_slots(alloc: Global, count: usize) -> Result<Vec<Slot>, AllocError>
    ensures value { IfOk result (λ slots. slots.items ≡ replicate count None) }
{
    let mut slots = Vec::new(alloc);
    slots.resize(count, None)?;
    Ok(slots)
}

/// Notes a `derive` attribute in the scope of a module of a map, with slots for its paths.
fn note_derive_in_module(
    map: &mut DefMap,
    home: u32,
    item: AstId,
    attr: AttrId,
    call: MacroCallId,
    slots: Vec<Slot>,
) -> Result<(), AllocError>
    requires in_range { home < length map.old.modules }
    ensures ok { OnOk result (map.new ≡ with_noted map.old home (of_derive item (record { attr_id = attr; attr_call_id = call; derive_call_ids = slots.items }))) }
{
    map.scope_mut(home)
        .init_derive_attribute(item, attr, call, slots)
}

impl DefCollector {
    /// Notes in the scope of its module what a call, a path of a derive or an attribute became.
    pub fn note_call(&mut self, call: &MacroDirective, id: MacroCallId) -> Result<(), AllocError>
        requires in_range { call.now.site.home < length (core_in self.old).map.modules }
        ensures ok { OnOk result (core_in self.new ≡ with_map (core_in self.old) (with_noted (core_in self.old).map call.now.site.home (invocation_of call.now id))) }
        ensures noted { OnOk result (IsNoted self.old self.new) }
    {
        note_in_module(&mut self.map, call, id)?;
        Ok(())
    }

    /// Notes in the scope of a module the impl that a path of a `derive` stands for.
    pub fn note_impl(&mut self, home: u32, item: AstId, imp: BuiltinDeriveImplId)
        requires in_range { home < length (core_in self.old).map.modules }
        ensures value { core_in self.new ≡ with_map (core_in self.old) (with_noted (core_in self.old).map home (impl_noted item imp)) }
        ensures noted { IsNoted self.old self.new }
    {
        note_impl_in_module(&mut self.map, home, item, imp);
    }

    /// Notes in the scope of a module a `derive` attribute of an item, its call, and a slot for each of its paths.
    pub fn note_derive(
        &mut self,
        home: u32,
        item: AstId,
        attr: AttrId,
        call: MacroCallId,
        paths: &[ModPath],
    ) -> Result<(), AllocError>
        requires in_range { home < length (core_in self.old).map.modules }
        ensures ok { OnOk result (core_in self.new ≡ with_map (core_in self.old) (with_noted (core_in self.old).map home (derive_met item attr call paths.now))) }
        ensures noted { OnOk result (IsNoted self.old self.new) }
    {
        let slots = empty_slots(self.allocator(), paths.len())?;
        note_derive_in_module(&mut self.map, home, item, attr, call, slots)?;
        Ok(())
    }
}
