//! A scope as text, for tests of whoever fills it.
ghost use Rattle.std.specs.Prelude.{◌≡◌, ◌++◌, [], ◌∷◌, Some, OnOk, IfOk};
ghost use Rattle.std.specs.List.{flat_map};
ghost use Rattle.std.specs.Option.{option_copied};
ghost use Rattle.std.specs.String.{string_bytes};
ghost use Rattle.hir_scope.specs.Scope.Entries.{entries_of};
ghost use Rattle.hir_scope.specs.Dump.{import_word, value_import_word, style_marks, macro_word, type_text, value_text, macro_text, binding_text, line, entry_line, unnamed_line, in_order, legacy_text, legacy_line, names_of_macros, dump_of};

use crate::imports::{ImportOrExternCrate, ImportOrGlob};
use crate::item_scope::ItemScope;
use crate::item_scope::iter::entries::import_as_item;
use crate::per_ns::{MacrosItem, PerNs, TypesItem, ValuesItem};
use hir_ids::edition::Edition;
use hir_ids::ids::ModuleDefId;
use hir_ids::macro_kind::{MacroId, macro_styles_from_id};
use hir_ids::name::Name;
use std::alloc::AllocError;
use std::collections::BTreeSet;
use std::fmt::{Display, Formatter, Write};

#[derive(Clone, Copy)]
struct ImportWord(Option<ImportOrExternCrate>);

impl Display for ImportWord {
    ghost output = { λ w. Some (import_word w.0) };

    fn fmt<W: Write>(&self, f: &mut Formatter<W>) -> std::fmt::Result {
        match self.0 {
            Some(ImportOrExternCrate::Import(_)) => f.write_str(" (import)"),
            Some(ImportOrExternCrate::Glob(_)) => f.write_str(" (glob)"),
            Some(ImportOrExternCrate::ExternCrate(_)) => f.write_str(" (extern)"),
            None => Ok(()),
        }
    }
}

#[derive(Clone, Copy)]
struct ValueImportWord(Option<ImportOrGlob>);

impl Display for ValueImportWord {
    ghost output = { λ w. Some (value_import_word w.0) };

    fn fmt<W: Write>(&self, f: &mut Formatter<W>) -> std::fmt::Result {
        match self.0 {
            Some(ImportOrGlob::Import(_)) => f.write_str(" (import)"),
            Some(ImportOrGlob::Glob(_)) => f.write_str(" (glob)"),
            None => Ok(()),
        }
    }
}

/// ` macro`, and how the macro may be called.
#[derive(Clone, Copy)]
struct MacroWord(MacroId);

impl Display for MacroWord {
    ghost output = { λ w. Some (macro_word w.0) };

    fn fmt<W: Write>(&self, f: &mut Formatter<W>) -> std::fmt::Result {
        let styles = macro_styles_from_id(self.0);
        f.write_str(" macro")?;
        if styles.fn_like {
            f.write_str("!")?;
        }
        if styles.attr || styles.derive {
            f.write_str("#")?;
        }
        Ok(())
    }
}

#[derive(Clone, Copy)]
struct TypeText(Option<TypesItem>);

impl Display for TypeText {
    ghost output = { λ t. Some (type_text t.0) };

    fn fmt<W: Write>(&self, f: &mut Formatter<W>) -> std::fmt::Result {
        match self.0 {
            Some(item) => write!(f, " type{}", ImportWord(item.import)),
            None => Ok(()),
        }
    }
}

#[derive(Clone, Copy)]
struct ValueText(Option<ValuesItem>);

impl Display for ValueText {
    ghost output = { λ t. Some (value_text t.0) };

    fn fmt<W: Write>(&self, f: &mut Formatter<W>) -> std::fmt::Result {
        match self.0 {
            Some(item) => write!(f, " value{}", ValueImportWord(item.import)),
            None => Ok(()),
        }
    }
}

#[derive(Clone, Copy)]
struct MacroText(Option<MacrosItem>);

impl Display for MacroText {
    ghost output = { λ t. Some (macro_text t.0) };

    fn fmt<W: Write>(&self, f: &mut Formatter<W>) -> std::fmt::Result {
        match self.0 {
            Some(item) => write!(f, "{}{}", MacroWord(item.def), ImportWord(item.import)),
            None => Ok(()),
        }
    }
}

/// What a name stands for.
#[derive(Clone, Copy)]
struct BindingText(PerNs);

impl Display for BindingText {
    ghost output = { λ b. Some (binding_text b.0) };

    fn fmt<W: Write>(&self, f: &mut Formatter<W>) -> std::fmt::Result {
        let items = self.0;
        let nothing = if items.is_none() { " _" } else { "" };
        write!(
            f,
            "{}{}{}{}",
            TypeText(items.types),
            ValueText(items.values),
            MacroText(items.macros),
            nothing
        )
    }
}

/// The line of a name and what it stands for; of a trait that is imported without a name where there is no name.
#[derive(Clone, Copy)]
struct Line<'a> {
    name: Option<&'a Name>,
    items: PerNs,
}

impl Display for Line<'_> {
    ghost output = { λ l. Some (line (option_copied l.name) l.items) };

    fn fmt<W: Write>(&self, f: &mut Formatter<W>) -> std::fmt::Result {
        let items = BindingText(self.items);
        match self.name {
            Some(name) => write!(f, "- {} :{}\n", name.display(Edition::LATEST), items),
            None => write!(f, "- _ :{}\n", items),
        }
    }
}

/// Macros of one name in textual scope.
#[derive(Clone, Copy)]
struct MacroWords<'a>(&'a [MacroId]);

impl Display for MacroWords<'_> {
    ghost output = { λ w. Some (flat_map macro_word w.0.now) };

    fn fmt<W: Write>(&self, f: &mut Formatter<W>) -> std::fmt::Result {
        let macros = self.0;
        for id in macros {
            write!(f, "{}", MacroWord(*id))?;
        }
        Ok(())
    }
}

/// The line of a name and its macros in textual scope.
#[derive(Clone, Copy)]
struct LegacyLine<'a> {
    name: &'a Name,
    macros: &'a [MacroId],
}

impl Display for LegacyLine<'_> {
    ghost output = { λ l. Some (legacy_text l.name.now l.macros.now) };

    #[tactic(auto, unfolding(crate::specs::Dump::legacy_text))]
    fn fmt<W: Write>(&self, f: &mut Formatter<W>) -> std::fmt::Result {
        let name = self.name;
        let macros = MacroWords(self.macros);
        write!(
            f,
            "- (legacy) {} :{}\n",
            name.display(Edition::LATEST),
            macros
        )
    }
}

impl ItemScope {
    /// Writes the scope at the end of a text: a line for each trait that is imported without a name, for each name with what
    /// it stands for, and for each name of macros in textual scope.
    pub fn dump(&self, buf: &mut String) -> Result<(), AllocError>
        ensures ok { OnOk result (string_bytes buf.new ≡ string_bytes buf.old ++ dump_of self.now) }
    {
        self.dump_unnamed(buf)?;
        self.dump_entries(buf)?;
        let names = self.legacy_names()?;
        self.dump_legacy(&names, buf)
    }

    fn dump_unnamed(&self, buf: &mut String) -> Result<(), AllocError>
        ensures ok { OnOk result (string_bytes buf.new
            ≡ string_bytes buf.old ++ flat_map unnamed_line self.now.unnamed_traits) }
    {
        let mut left = self.unnamed_traits.iter();
        'lines: while let Some((id, item)) = left.next() {
            let import = import_as_item(item.import);
            let items = PerNs::types(ModuleDefId::TraitId(*id), item.vis, import);
            write!(buf, "{}", Line { name: None, items })?;
        }
        Ok(())
    }

    fn dump_entries(&self, buf: &mut String) -> Result<(), AllocError>
        ensures ok { OnOk result (string_bytes buf.new
            ≡ string_bytes buf.old ++ flat_map entry_line (entries_of self.now)) }
    {
        let mut left = self.entries();
        'lines: while let Some((name, items)) = left.next() {
            let name = Some(name);
            write!(buf, "{}", Line { name, items })?;
        }
        Ok(())
    }

    /// The names of macros in textual scope, in order.
    fn legacy_names(&self) -> Result<BTreeSet<Name>, AllocError>
        ensures ok { IfOk result (λ names. names.keys ≡ in_order [] (names_of_macros self.now.legacy_macros)) }
    {
        let mut sorted = BTreeSet::new(self.alloc);
        let mut left = self.legacy_macros.iter();
        'names: while let Some(textual) = left.next() {
            sorted.insert(textual.name.clone()?)?;
        }
        Ok(sorted)
    }

    fn dump_legacy(&self, names: &BTreeSet<Name>, buf: &mut String) -> Result<(), AllocError>
        ensures ok { OnOk result (string_bytes buf.new
            ≡ string_bytes buf.old ++ flat_map (legacy_line self.now) names.now.keys) }
    {
        let mut left = names.iter();
        'lines: while let Some(name) = left.next() {
            self.dump_legacy_name(name, buf)?;
        }
        Ok(())
    }

    fn dump_legacy_name(&self, name: &Name, buf: &mut String) -> Result<(), AllocError>
        ensures ok { OnOk result (string_bytes buf.new ≡ string_bytes buf.old ++ legacy_line self.now name.now) }
    {
        let macros: Vec<MacroId> = self.get_legacy_macro(name).collect(self.alloc)?;
        let macros = macros.as_slice();
        write!(buf, "{}", LegacyLine { name, macros })
    }
}
