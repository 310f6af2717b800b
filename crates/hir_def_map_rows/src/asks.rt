//! What is asked, and how it is answered.
use crate::shows::{ItemsText, ModuleText, ResultText, StopText, VisibilityText, prefix_text};
use crate::stage::{Asker, Stage};
use crate::words;
use crate::words::{Fault, Setting};
use hir_base::ids::ModuleId;
use hir_base::mod_path::ModPath;
use hir_def_map::{BuiltinShadowMode, MacroSubNs, ResolveMode, ResolvePathResult};
use hir_scope::glob_imports::PerNsGlobImports;
use hir_scope::visibility::Visibility;
use std::alloc::Global;
use std::fmt::Write;

/// What is asked about a path.
#[derive(Clone, Copy)]
pub enum OfPath {
    Path,
    Resolve,
    Each,
    Reached,
    Prefix,
    Local,
}

/// The settings in which `each` resolves, with what stands before an answer that differs from the one before.
const SETTINGS: [(&str, BuiltinShadowMode, Option<MacroSubNs>); 6] = [
    (" ->", BuiltinShadowMode::Module, None),
    (
        "; module bang:",
        BuiltinShadowMode::Module,
        Some(MacroSubNs::Bang),
    ),
    (
        "; module attr:",
        BuiltinShadowMode::Module,
        Some(MacroSubNs::Attr),
    ),
    ("; other:", BuiltinShadowMode::Other, None),
    (
        "; other bang:",
        BuiltinShadowMode::Other,
        Some(MacroSubNs::Bang),
    ),
    (
        "; other attr:",
        BuiltinShadowMode::Other,
        Some(MacroSubNs::Attr),
    ),
];

impl Asker<'_> {
    fn resolve(&self, path: &ModPath, setting: Setting) -> ResolvePathResult {
        let Setting {
            mode,
            shadow,
            style,
        } = setting;
        self.map
            .resolve_path_fp_with_macro(self.local, self.world, mode, self.at, path, shadow, style)
    }

    fn path(&self, path: &ModPath, setting: Setting, out: &mut String) -> Result<(), Fault> {
        let (items, stop) = self.map.resolve_path(
            self.local,
            self.world,
            self.at,
            path,
            setting.shadow,
            setting.style,
        );
        write!(out, " ->{}{}", ItemsText(items), StopText(stop))?;
        Ok(())
    }

    fn each(&self, path: &ModPath, mode: ResolveMode, out: &mut String) -> Result<(), Fault> {
        let mut last = None;
        for (before, shadow, style) in SETTINGS {
            let answer = self.resolve(
                path,
                Setting {
                    mode,
                    shadow,
                    style,
                },
            );
            if last != Some(answer) {
                write!(out, "{before}{}", ResultText(answer))?;
            }
            last = Some(answer);
        }
        Ok(())
    }

    fn reached(&self, path: &ModPath, out: &mut String) -> Result<(), Fault> {
        let items = self
            .map
            .reached_items(self.local, self.world, self.at, path);
        write!(out, " ->{}", ItemsText(items))?;
        Ok(())
    }

    fn local(&self, path: &ModPath, setting: Setting, out: &mut String) -> Result<(), Fault> {
        let (items, stop, prefix) = self
            .map
            .resolve_path_locally(self.local, self.world, self.at, path, setting.shadow);
        let through = prefix_text(prefix);
        write!(out, " ->{}{}, {through}", ItemsText(items), StopText(stop))?;
        Ok(())
    }

    fn prefix(&self, path: &ModPath, setting: Setting, out: &mut String) -> Result<(), Fault> {
        let through = prefix_text(self.resolve(path, setting).prefix_info);
        write!(out, " -> {through}")?;
        Ok(())
    }

    fn answer(
        &self,
        asked: OfPath,
        path: &ModPath,
        setting: Setting,
        out: &mut String,
    ) -> Result<(), Fault> {
        match asked {
            OfPath::Path => self.path(path, setting, out),
            OfPath::Resolve => {
                write!(out, " ->{}", ResultText(self.resolve(path, setting)))?;
                Ok(())
            }
            OfPath::Each => self.each(path, setting.mode, out),
            OfPath::Reached => self.reached(path, out),
            OfPath::Prefix => self.prefix(path, setting, out),
            OfPath::Local => self.local(path, setting, out),
        }
    }
}

pub fn asker_at<'a>(stage: &'a Stage, word: &str) -> Result<Asker<'a>, Fault> {
    match stage.asker(words::module_id(word)?) {
        Some(asker) => Ok(asker),
        None => Err(Fault::Bad),
    }
}

pub fn of_path(
    alloc: Global,
    stage: &Stage,
    asked: OfPath,
    words: &[&str],
    out: &mut String,
) -> Result<(), Fault> {
    let [at, path, settings @ ..] = words else {
        return Err(Fault::Bad);
    };
    let asker = asker_at(stage, at)?;
    let setting = words::setting_of(settings)?;
    let path = words::path_of(alloc, path)?;
    asker.answer(asked, &path, setting, out)
}

fn write_visibility(vis: Option<Visibility>, out: &mut String) -> Result<(), Fault> {
    match vis {
        Some(vis) => write!(out, " -> {}", VisibilityText(vis))?,
        None => out.push_str(" -> none")?,
    }
    Ok(())
}

/// What a visibility means that is written in a module.
pub fn meaning(stage: &Stage, words: &[&str], out: &mut String) -> Result<(), Fault> {
    let [at, raw] = words else {
        return Err(Fault::Bad);
    };
    let asker = asker_at(stage, at)?;
    let raw = words::written_visibility(raw)?;
    let vis = asker
        .map
        .resolve_visibility(asker.local, asker.world, asker.at, &raw, false);
    write_visibility(vis, out)
}

pub fn lesser(stage: &Stage, words: &[&str], out: &mut String) -> Result<(), Fault> {
    let [at, one, other] = words else {
        return Err(Fault::Bad);
    };
    let asker = asker_at(stage, at)?;
    let (one, other) = (words::visibility_of(one)?, words::visibility_of(other)?);
    write_visibility(asker.map.lesser(asker.world, one, other), out)
}

pub fn sees(stage: &Stage, words: &[&str], out: &mut String) -> Result<(), Fault> {
    let [at, vis] = words else {
        return Err(Fault::Bad);
    };
    let asker = asker_at(stage, at)?;
    let sees = asker
        .map
        .is_visible(asker.world, words::visibility_of(vis)?, asker.at);
    out.push_str(if sees { " -> yes" } else { " -> no" })?;
    Ok(())
}

/// The module around another.
pub fn around(stage: &Stage, words: &[&str], out: &mut String) -> Result<(), Fault> {
    let [at] = words else {
        return Err(Fault::Bad);
    };
    let asker = asker_at(stage, at)?;
    match asker.map.containing_module(asker.at) {
        Some(module) => write!(out, " -> {}", ModuleText(module))?,
        None => out.push_str(" -> none")?,
    }
    Ok(())
}

/// The page of a map.
fn page(alloc: Global, stage: &Stage, words: &[&str]) -> Result<String, Fault> {
    let [at] = words else {
        return Err(Fault::Bad);
    };
    let asker = asker_at(stage, at)?;
    Ok(asker.map.dump(alloc, asker.world)?)
}

pub fn dump(alloc: Global, stage: &Stage, words: &[&str], out: &mut String) -> Result<(), Fault> {
    let page = page(alloc, stage, words)?;
    out.push_str(" ->\n")?;
    out.push_str(page.as_str())?;
    Ok(())
}

pub fn dump_length(
    alloc: Global,
    stage: &Stage,
    words: &[&str],
    out: &mut String,
) -> Result<(), Fault> {
    let page = page(alloc, stage, words)?;
    write!(out, " -> {}", page.len())?;
    Ok(())
}

/// What a name stands for in a module.
pub fn entry(alloc: Global, stage: &Stage, words: &[&str], out: &mut String) -> Result<(), Fault> {
    let [at, name] = words else {
        return Err(Fault::Bad);
    };
    let asker = asker_at(stage, at)?;
    let name = words::name_of(alloc, name)?;
    write!(
        out,
        " ->{}",
        ItemsText(asker.map.entry(asker.at.index, &name))
    )?;
    Ok(())
}

/// In which namespaces a glob brought what a name of the open map stands for.
pub fn globs(
    alloc: Global,
    globs: &PerNsGlobImports,
    words: &[&str],
    out: &mut String,
) -> Result<(), Fault> {
    let [at, name] = words else {
        return Err(Fault::Bad);
    };
    let place = (words::module_id(at)?, words::name_of(alloc, name)?);
    let types = if globs.contains_type(&place) {
        " type"
    } else {
        ""
    };
    let values = if globs.contains_value(&place) {
        " value"
    } else {
        ""
    };
    let macros = if globs.contains_macro(&place) {
        " macro"
    } else {
        ""
    };
    write!(out, " ->{types}{values}{macros}")?;
    Ok(())
}

/// The modules that are asked about in turn, from one outwards.
pub fn outwards(stage: &Stage, words: &[&str], out: &mut String) -> Result<(), Fault> {
    let [at] = words else {
        return Err(Fault::Bad);
    };
    let asker = asker_at(stage, at)?;
    out.push_str(" ->")?;
    let refused = asker
        .map
        .with_ancestor_maps(asker.world, asker.at, |_, module| {
            match write!(out, " {}", ModuleText(module)) {
                Ok(()) => None,
                Err(_) => Some(Fault::Memory),
            }
        });
    match refused {
        Some(fault) => Err(fault),
        None => Ok(()),
    }
}
