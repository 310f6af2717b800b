//! The macros in textual scope at one place.
ghost use Rattle.std.specs.Prelude.{◌≡◌, ◌↔◌, [], drop, length, IsTrue, IfOk, OnOk, OnErr};
ghost use Rattle.hir_textual_scope.specs.Macros.{last_of, macros_of, with_macro};

use crate::node::{self, Link};
use hir_ids::macro_kind::MacroId;
use hir_ids::name::Name;
use std::alloc::{AllocError, Global};
use std::marker::Model;

/// A macro in textual scope, with the name that it was defined by.
#[derive(Debug, PartialEq, Eq, Drop)]
pub struct TextualMacro {
    pub name: Name,
    pub makro: MacroId,
}

impl TextualMacro {
    /// The same macro and name; both keep one text.
    pub fn clone(&self) -> Result<TextualMacro, AllocError>
        ensures value { IfOk result (λ m. m ≡ self.now) }
    {
        Ok(TextualMacro {
            name: self.name.clone()?,
            makro: self.makro,
        })
    }
}

/// The macros in textual scope, rust-analyzer's legacy macros: those that `macro_rules!` defined above a place of the source
/// in its module or in the modules around it.
///
/// A module begins with a clone of its parent's, and both share what they have in common: a clone takes the same time
/// however many macros there are, and a definition takes the logarithm of their number, whatever is shared.
///
/// The macros are kept in two balanced trees: in the order of their definition, and by name. So neither many names nor
/// many macros of one name make one deep. That they are balanced isn't proved.
#[derive(Drop)]
pub struct TextualScope {
    defined: Link,
    named: Link,
    alloc: Global,
}

impl Model for TextualScope {
    ghost use Rattle.std.specs.Prelude.{◌≡◌, List};
    ghost use Rattle.hir_textual_scope.specs.declared.textual_scope.TextualMacro.{TextualMacro};

    ghost Value = { List TextualMacro };

    ghost use Rattle.hir_textual_scope.specs.Node.{by_name, macros_under};

    ghost view = { λ scope. macros_under scope.defined };

    ghost invariant = { λ scope. macros_under scope.named ≡ by_name (macros_under scope.defined) };
}

impl TextualScope {
    /// No macros.
    pub fn new(alloc: Global) -> TextualScope
        ensures value { result ≡ [] }
    {
        TextualScope {
            defined: None,
            named: None,
            alloc,
        }
    }

    /// The same macros. It takes the same time however many there are: both share them.
    pub fn clone(&self) -> Result<TextualScope, AllocError>
        ensures value { IfOk result (λ scope. scope ≡ self.now) }
    {
        Ok(TextualScope {
            defined: node::share(&self.defined)?,
            named: node::share(&self.named)?,
            alloc: self.alloc,
        })
    }

    /// How many macros there are.
    pub fn len(&self) -> usize
        ensures value { result ≡ length self.now }
    {
        node::len(&self.defined)
    }

    /// Whether there are none.
    pub fn is_empty(&self) -> bool
        ensures value { IsTrue result ↔ (self.now ≡ []) }
    {
        self.len() == 0
    }

    /// Adds a macro, which is now the last.
    pub fn define(&mut self, name: Name, makro: MacroId) -> Result<(), AllocError>
        ensures ok { OnOk result (self.new ≡ with_macro self.old name makro) }
        ensures err { OnErr result (self.new ≡ self.old) }
    {
        let new = TextualMacro { name, makro };
        let named = node::with_named(self.alloc, &self.named, new.clone()?)?;
        let defined = node::with_last(self.alloc, &self.defined, new)?;
        self.named = Some(named);
        self.defined = Some(defined);
        Ok(())
    }

    /// The macro that a name means: the last one of it.
    pub fn last(&self, name: &Name) -> Option<MacroId>
        ensures value { result ≡ last_of self.now name.now }
    {
        node::last_of(&self.named, name)
    }

    /// The macros of a name, in the order in which they were defined. Nothing is copied.
    pub fn macros_of<'a>(&'a self, name: &'a Name) -> MacrosOf<'a>
        ensures value { result ≡ macros_of self.now name.now }
    {
        MacrosOf {
            root: &self.named,
            name,
            next: node::count_before(&self.named, name),
        }
    }

    /// All macros, in the order in which they were defined.
    pub fn iter(&self) -> TextualMacros<'_>
        ensures value { result ≡ self.now }
    {
        TextualMacros {
            root: &self.defined,
            next: 0,
        }
    }

    /// The macros behind the first so many. Of a scope that began as a clone of another these are, from the length of
    /// that one on, what was defined since; what both share isn't looked at.
    pub fn iter_from(&self, count: usize) -> TextualMacros<'_>
        ensures value { result ≡ drop count self.now }
    {
        TextualMacros {
            root: &self.defined,
            next: count,
        }
    }

    /// Whether no path down a tree has more nodes than this.
    #[cfg(test)]
    pub(crate) fn is_within(&self, depth: u32) -> bool {
        node::is_within(depth, &self.defined) && node::is_within(depth, &self.named)
    }
}

impl PartialEq for TextualScope {
    ghost use Rattle.std.specs.Cmp.{partial_equiv_from_equiv};
    ghost use Rattle.std.specs.Cmp.Lexicographic.{pointwise, lists_equiv};
    ghost use Rattle.hir_textual_scope.specs.contracts.textual_scope.TextualMacroEq.TheImpl.Laws.{laws-law as macro_laws};

    ghost eq = { pointwise ⟦<TextualMacro as PartialEq>⟧.eq };

    ghost laws = { partial_equiv_from_equiv (lists_equiv macro_laws) };

    fn eq(&self, other: &TextualScope) -> bool {
        node::same(&self.defined, &other.defined)
    }
}

impl Eq for TextualScope {
    ghost use Rattle.std.specs.Cmp.Lexicographic.{lists_equiv};
    ghost use Rattle.hir_textual_scope.specs.contracts.textual_scope.TextualMacroEq.TheImpl.Laws.{laws-law as macro_laws};

    ghost laws = { lists_equiv macro_laws };
}

/// The macros that are left of a walk; see `TextualScope::iter`.
#[derive(Drop)]
pub struct TextualMacros<'a> {
    root: &'a Link,
    next: usize,
}

impl<'a> Model for TextualMacros<'a> {
    ghost use Rattle.std.specs.Prelude.{List, drop};
    ghost use Rattle.hir_textual_scope.specs.declared.textual_scope.TextualMacro.{TextualMacro};

    ghost Value = { List TextualMacro };

    ghost use Rattle.hir_textual_scope.specs.Node.{macros_under};

    ghost view = { λ walk. drop walk.next (macros_under walk.root.now) };
}

impl<'a> Iterator for TextualMacros<'a> {
    type Item = &'a TextualMacro;

    ghost use Rattle.std.specs.Prelude.{List};
    ghost use Rattle.std.specs.Iterator.{YieldsFirstRef, item_count};
    ghost use Rattle.hir_textual_scope.specs.declared.textual_scope.TextualMacro.{TextualMacro};

    ghost next_gives = { YieldsFirstRef (λ (left : List TextualMacro). left) };

    ghost remaining = { item_count (λ (left : List TextualMacro). left) };

    fn next(&mut self) -> Option<&'a TextualMacro> {
        let len = node::len(self.root);
        if self.next >= len {
            return None;
        }
        let found = node::get(self.root, self.next);
        self.next += 1;
        found
    }
}

/// The macros of a name that are left of a walk; see `TextualScope::macros_of`.
#[derive(Drop)]
pub struct MacrosOf<'a> {
    root: &'a Link,
    name: &'a Name,
    next: usize,
}

impl<'a> Model for MacrosOf<'a> {
    ghost use Rattle.std.specs.Prelude.{List, drop};
    ghost use Rattle.hir_ids.specs.declared.macro_kind.MacroId.{MacroId};

    ghost Value = { List MacroId };

    ghost use Rattle.hir_textual_scope.specs.Node.{leading, macros_under};

    ghost view = { λ walk. leading walk.name.now (drop walk.next (macros_under walk.root.now)) };
}

impl<'a> Iterator for MacrosOf<'a> {
    type Item = MacroId;

    ghost use Rattle.std.specs.Prelude.{List};
    ghost use Rattle.std.specs.Iterator.{YieldsFirst, item_count};
    ghost use Rattle.hir_ids.specs.declared.macro_kind.MacroId.{MacroId};

    ghost next_gives = { YieldsFirst (λ (left : List MacroId). left) };

    ghost remaining = { item_count (λ (left : List MacroId). left) };

    fn next(&mut self) -> Option<MacroId> {
        let len = node::len(self.root);
        if self.next >= len {
            return None;
        }
        let entry = node::get(self.root, self.next)?;
        if *self.name == entry.name {
            self.next += 1;
            Some(entry.makro)
        } else {
            None
        }
    }
}
