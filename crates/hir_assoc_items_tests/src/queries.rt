//! What the queries for the items of traits and impls answer over a database.
use crate::lists::Lists;
use crate::readers::{FILE, MODULE};
use hir_assoc_items::assoc::MacroCalls;
use hir_assoc_items::{ImplItems, TraitItems};
use hir_base::ast_id::{EditionedFileId, FileId, HirFileId, SyntaxId};
use hir_base::edition::Edition;
use hir_base::file_path::FilePath;
use hir_base::ids::{AssocItemId, Crate, ImplId, ItemContainerId, ItemLoc, ModuleId, TraitId};
use hir_base::macro_kind::{
    CallStyle, ExpansionKey, MacroCallStyles, MacroExpander, MacroId, MacroLoc, MacroRulesId,
    MacroText,
};
use hir_base::name::Name;
use hir_base::text::Text;
use hir_crate_graph::crate_set::CrateSet;
use hir_def_map::{
    DefMap, DefMapCrateData, DefMaps, LocalDefMap, ModuleData, ModuleOrigin, World, WorldPart,
};
use hir_map_parts::diagnostics::{DefDiagnosticKind, DefDiagnostics};
use hir_scope::visibility::Visibility;
use hir_tables::Tables;
use std::alloc::{AllocError, Global};
use std::fmt::Write;
use std::process::Abort;
use std::rc::Rc;
use std::test::Fail;

/// A trait or an impl, by its node.
#[derive(Clone, Copy)]
enum Of {
    Trait(u16),
    Impl(u16),
}

/// A file, expansions, what is asked, and what is answered: each item by its name and where it is written, the calls with
/// their numbers, and what went wrong.
struct Row {
    label: &'static str,
    file: &'static str,
    expansions: &'static [&'static str],
    of: Of,
    answer: &'static str,
}

/// `macro_rules! foo {} pub trait T { fn f(); foo!(k); type A; }`
const CALLS: &str = r#"{"do":"set file","file":"lib.rs","unit":{"nodes":[
{"kind":"MacroRules","id":[1,0],"name":"foo","text":"t"},
{"kind":"Trait","id":[2,0],"name":"T","vis":"pub","items":[
    {"kind":"Fn","id":[3,0],"name":"f"},
    {"kind":"MacroCall","id":[4,0],"path":"foo","input":"k"},
    {"kind":"TypeAlias","id":[5,0],"name":"A"}]}]}}"#;

/// `macro_rules! foo {} struct S; impl S { fn f() {} foo!(k); const _; const C; nope!(k); #[cfg(false)] fn g() {} } impl S { fn h() {} }`
const IMPLS: &str = r#"{"do":"set file","file":"lib.rs","unit":{"nodes":[
{"kind":"MacroRules","id":[1,0],"name":"foo","text":"t"},
{"kind":"Struct","id":[2,0],"name":"S"},
{"kind":"Impl","id":[3,0],"trait":false,"items":[
    {"kind":"Fn","id":[4,0],"name":"f"},
    {"kind":"MacroCall","id":[5,0],"path":"foo","input":"k"},
    {"kind":"Const","id":[6,0]},
    {"kind":"Const","id":[7,0],"name":"C"},
    {"kind":"MacroCall","id":[8,0],"path":"nope","input":"k"},
    {"kind":"Fn","id":[9,0],"name":"g","attrs":[{"path":"cfg","cfg":false}]}]},
{"kind":"Impl","id":[10,0],"trait":false,"items":[{"kind":"Fn","id":[11,0],"name":"h"}]}]}}"#;

/// What `foo!(k)` expands to: `fn g() {}`
const ONE_ITEM: &str =
    r#"{"do":"set expansion","key":{"caller":0,"crate":0,"text":"t","call":"bang","input":"k"},
"unit":{"nodes":[{"kind":"Fn","id":[1,0],"name":"g"}]}}"#;

/// `foo!(l); fn g() {} foo!(l);`
const CALLS_AROUND: &str =
    r#"{"do":"set expansion","key":{"caller":0,"crate":0,"text":"t","call":"bang","input":"k"},
"unit":{"nodes":[
{"kind":"MacroCall","id":[2,0],"path":"foo","input":"l"},
{"kind":"Fn","id":[1,0],"name":"g"},
{"kind":"MacroCall","id":[3,0],"path":"foo","input":"l"}]}}"#;

/// What `foo!(l)` expands to: `const C; struct S;`
const CONSTANT: &str =
    r#"{"do":"set expansion","key":{"caller":0,"crate":0,"text":"t","call":"bang","input":"l"},
"unit":{"nodes":[{"kind":"Const","id":[1,0],"name":"C"},{"kind":"Struct","id":[2,0],"name":"S"}]}}"#;

/// What `foo!(k)` expands to: `foo!(k); fn g() {}`
const ITSELF: &str =
    r#"{"do":"set expansion","key":{"caller":0,"crate":0,"text":"t","call":"bang","input":"k"},
"unit":{"nodes":[
{"kind":"MacroCall","id":[2,0],"path":"foo","input":"k"},
{"kind":"Fn","id":[1,0],"name":"g"}]}}"#;

/// `fn g() {}`, with an error.
const FAILED: &str =
    r#"{"do":"set expansion","key":{"caller":0,"crate":0,"text":"t","call":"bang","input":"k"},
"unit":{"nodes":[{"kind":"Fn","id":[1,0],"name":"g"}]},"error":"no rules"}"#;

const ROWS: [Row; 8] = [
    Row {
        label: "items of a call stand in its place",
        file: CALLS,
        expansions: &[ONE_ITEM],
        of: Of::Trait(2),
        answer: "fn f 3, fn g 1 in call 0, type A 5, calls: 4 is 0, told:",
    },
    Row {
        label: "a call without an expansion",
        file: CALLS,
        expansions: &[],
        of: Of::Trait(2),
        answer: "fn f 3, type A 5, calls: 4 is 0, told: foo of 4 absent,",
    },
    Row {
        label: "an expansion with an error counts",
        file: CALLS,
        expansions: &[FAILED],
        of: Of::Trait(2),
        answer: "fn f 3, fn g 1 in call 0, type A 5, calls: 4 is 0, told: foo of 4 no rules,",
    },
    Row {
        label: "calls in an expansion, each before those behind it",
        file: CALLS,
        expansions: &[CALLS_AROUND, CONSTANT],
        of: Of::Trait(2),
        answer: "fn f 3, const C 1 in call 1, fn g 1 in call 0, const C 1 in call 2, type A 5, calls: 4 is 0, 2 in call 0 is 1, 3 in call 0 is 2, told:",
    },
    Row {
        label: "a call in its own expansion, to the depth of 3",
        file: CALLS,
        expansions: &[ITSELF],
        of: Of::Trait(2),
        answer: "fn f 3, fn g 1 in call 2, fn g 1 in call 1, fn g 1 in call 0, type A 5, calls: 4 is 0, 2 in call 0 is 1, 2 in call 1 is 2, told:",
    },
    Row {
        label: "an impl with all that may go wrong",
        file: IMPLS,
        expansions: &[ONE_ITEM],
        of: Of::Impl(3),
        answer: "fn f 4, fn g 1 in call 0, const C 7, calls: 5 is 0, told: nope of 8 unresolved, 9 unconfigured,",
    },
    Row {
        label: "another impl",
        file: IMPLS,
        expansions: &[ONE_ITEM],
        of: Of::Impl(10),
        answer: "fn h 11, calls: told:",
    },
    Row {
        label: "no impl of that node",
        file: IMPLS,
        expansions: &[ONE_ITEM],
        of: Of::Impl(4),
        answer: "calls: told:",
    },
];

fn node(number: u16) -> SyntaxId {
    SyntaxId {
        hash: number,
        index: 0,
    }
}

/// Where a node of the root is.
fn loc(number: u16) -> ItemLoc<ModuleId> {
    ItemLoc {
        container: MODULE,
        file_id: FILE,
        block: None,
        id: node(number),
    }
}

/// The macro of the first node.
fn makro() -> MacroId {
    MacroId::MacroRulesId(MacroRulesId {
        loc: MacroLoc {
            container: MODULE,
            file_id: FILE,
            block: None,
            id: node(1),
            expander: MacroExpander::Declarative(MacroCallStyles::FN_LIKE),
        },
    })
}

/// The map of a crate in which the macro is in textual scope, and calls may be so deep.
fn map(alloc: Global, limit: u32) -> Result<DefMap, Fail> {
    let crates = Rc::new(alloc, CrateSet::new(alloc))?;
    let mut top = DefMapCrateData::new(alloc, Edition::Edition2021, crates);
    top.set_recursion_limit(limit);
    let definition = EditionedFileId {
        file_id: FileId(0),
        edition: Edition::Edition2021,
    };
    let origin = ModuleOrigin::CrateRoot { definition };
    let root = ModuleData::new(alloc, origin, Visibility::Public, None);
    let mut map = DefMap::empty(alloc, Crate(0), top, root, None)?;
    if !map.contains(MODULE) {
        return Err("a map without a root")?;
    }
    map[MODULE]
        .scope_mut()
        .define_legacy_macro(Name::new(alloc, "foo")?, makro())?;
    Ok(map)
}

fn put_place(text: &mut String, file: HirFileId, id: SyntaxId) -> Result<(), AllocError> {
    match file {
        HirFileId::File(_) => write!(text, " {}", id.hash),
        HirFileId::Macro(call) => write!(text, " {} in call {}", id.hash, call.0),
    }
}

/// Adds an item, with a remark where it isn't of the trait or impl that was asked for.
fn put_item(
    text: &mut String,
    of: ItemContainerId,
    name: &Name,
    id: AssocItemId,
) -> Result<(), AllocError> {
    let (kind, loc) = match id {
        AssocItemId::FunctionId(id) => ("fn", id.loc),
        AssocItemId::ConstId(id) => ("const", id.loc),
        AssocItemId::TypeAliasId(id) => ("type", id.loc),
    };
    write!(text, "{kind} {}", name.as_str())?;
    put_place(text, loc.file_id, loc.id)?;
    if loc.container != of {
        text.push_str(" of something else")?;
    }
    text.push_str(", ")
}

fn put_calls(text: &mut String, calls: MacroCalls<'_>) -> Result<(), AllocError> {
    text.push_str("calls:")?;
    for (ast, id) in calls {
        put_place(text, ast.file_id, ast.id)?;
        write!(text, " is {},", id.0)?;
    }
    Ok(())
}

fn put_told(text: &mut String, told: &DefDiagnosticKind) -> Result<(), AllocError> {
    match told {
        DefDiagnosticKind::UnconfiguredCode { .. } => {}
        DefDiagnosticKind::UnresolvedMacroCall { path, .. }
        | DefDiagnosticKind::MacroError { path, .. } => {
            write!(text, " {} of", path.display(Edition::Edition2021))?;
        }
        _ => text.push_str(" another kind of")?,
    }
    let ast = told.ast_id();
    put_place(text, ast.file_id, ast.id)?;
    match told {
        DefDiagnosticKind::UnconfiguredCode { .. } => text.push_str(" unconfigured,"),
        DefDiagnosticKind::UnresolvedMacroCall { .. } => text.push_str(" unresolved,"),
        DefDiagnosticKind::MacroError { err, .. } => write!(text, " {},", err.as_str()),
        _ => Ok(()),
    }
}

fn text_of(
    alloc: Global,
    of: ItemContainerId,
    items: &[(Name, AssocItemId)],
    calls: MacroCalls<'_>,
    told: &DefDiagnostics,
) -> Result<String, AllocError> {
    let mut text = String::new(alloc);
    for (name, id) in items {
        put_item(&mut text, of, name, *id)?;
    }
    put_calls(&mut text, calls)?;
    text.push_str(" told:")?;
    for diagnostic in told.iter() {
        put_told(&mut text, &diagnostic.kind)?;
    }
    Ok(text)
}

/// What a query answers.
fn answered(
    alloc: Global,
    db: &mut Lists,
    maps: DefMaps<'_>,
    tables: &mut Tables,
    of: Of,
) -> Result<String, Fail> {
    let local = LocalDefMap::empty(alloc);
    match of {
        Of::Trait(number) => {
            let id = TraitId { loc: loc(number) };
            let (found, told) = TraitItems::query_with_diagnostics(
                alloc, db, maps, &local, tables, id,
            )?;
            let of = ItemContainerId::TraitId(id);
            let items = found.items.as_slice();
            Ok(text_of(alloc, of, items, found.macro_calls(), &told)?)
        }
        Of::Impl(number) => {
            let id = ImplId { loc: loc(number) };
            let (found, told) = ImplItems::of(alloc, db, maps, &local, tables, id)?;
            let of = ItemContainerId::ImplId(id);
            let items = found.items.as_slice();
            Ok(text_of(alloc, of, items, found.macro_calls(), &told)?)
        }
    }
}

/// The number of the file.
fn tables(alloc: Global) -> Result<Tables, Fail> {
    let mut tables = Tables::new(alloc);
    tables.intern_file(FilePath::parse(alloc, "lib.rs")?)?;
    Ok(tables)
}

fn lists(alloc: Global, row: &Row) -> Result<Lists, Fail> {
    let mut lists = Lists::of_file(alloc, row.file)?;
    for line in row.expansions {
        lists.set_expansion(alloc, line)?;
    }
    Ok(lists)
}

/// Asks a row over tables in which calls may have numbers.
fn answer(alloc: Global, map: &DefMap, tables: &mut Tables, row: &Row) -> Result<String, Fail> {
    let world = World::new(alloc);
    let maps = DefMaps::new(WorldPart::all(&world), map);
    answered(alloc, &mut lists(alloc, row)?, maps, tables, row.of)
}

/// Asserts an answer; of all tests, so that the comparison is proved once.
fn is_answer(rt: &impl Abort, label: &str, found: &str, wanted: &str) {
    assert!(rt; found == wanted, "{label}: {found}");
}

/// Asks a row twice: the calls have numbers by the second time.
fn answers(rt: &impl Abort, alloc: Global, map: &DefMap, row: &Row) -> Result<(), Fail> {
    let mut tables = tables(alloc)?;
    for _ in 0..2 {
        let found = answer(alloc, map, &mut tables, row)?;
        is_answer(rt, row.label, found.as_str(), row.answer);
    }
    Ok(())
}

/// A list is that of the source that writes it, with what its calls expand to, and a call keeps its number.
#[test]
fn lists_as_they_are_written(rt: HostRuntime) -> Result<(), Fail> {
    let map = map(rt.alloc(), 3)?;
    for row in &ROWS {
        answers(&rt, rt.alloc(), &map, row)?;
    }
    Ok(())
}

/// The rows one after another over the same tables and the same map: each reads the sources that it is asked over, though
/// calls at one node have one number as long as their inputs are the same.
const IN_TURN: [(usize, &str); 3] = [
    (
        0,
        "fn f 3, fn g 1 in call 0, type A 5, calls: 4 is 0, told:",
    ),
    (1, "fn f 3, type A 5, calls: 4 is 0, told: foo of 4 absent,"),
    (6, "fn h 11, calls: told:"),
];

/// What was answered once does not matter.
#[test]
fn lists_as_they_are_now(rt: HostRuntime) -> Result<(), Fail> {
    let alloc = rt.alloc();
    let map = map(alloc, 3)?;
    let mut tables = tables(alloc)?;
    for (number, wanted) in &IN_TURN {
        let row = ROWS.get(*number).ok_or("a row")?;
        let found = answer(alloc, &map, &mut tables, row)?;
        is_answer(&rt, row.label, found.as_str(), wanted);
    }
    Ok(())
}

/// What the first row's call depends on: its crate, the macro's crate and text, how it calls, and its input.
fn key(alloc: Global) -> Result<ExpansionKey, Fail> {
    Ok(ExpansionKey {
        caller: Crate(0),
        called: MacroText {
            krate: Crate(0),
            text: Text::from_str(alloc, "t")?,
        },
        call: CallStyle::Bang,
        input: Text::from_str(alloc, "k")?,
        reached: Vec::new(alloc),
    })
}

/// A call's expansion has a number too.
#[test]
fn key_of_a_call(rt: HostRuntime) -> Result<(), Fail> {
    let alloc = rt.alloc();
    let map = map(alloc, 3)?;
    let mut tables = tables(alloc)?;
    let row = ROWS.first().ok_or("a row")?;
    assert!(rt; tables.entry_number(&key(alloc)?).is_none());
    answer(alloc, &map, &mut tables, row)?;
    assert!(rt; tables.entry_number(&key(alloc)?).is_some());
    Ok(())
}

/// How deep calls are in the next test.
const DEEP: u32 = 3_000;

/// Asks for a list whose call expands to itself.
fn asked_deep(alloc: Global) -> Result<(TraitItems, DefDiagnostics), Fail> {
    let map = map(alloc, DEEP)?;
    let world = World::new(alloc);
    let maps = DefMaps::new(WorldPart::all(&world), &map);
    let local = LocalDefMap::empty(alloc);
    let mut lists = Lists::of_file(alloc, CALLS)?;
    lists.set_expansion(alloc, ITSELF)?;
    let mut tables = tables(alloc)?;
    let id = TraitId { loc: loc(2) };
    Ok(TraitItems::query_with_diagnostics(alloc, &mut lists, maps, &local, &mut tables, id)?)
}

/// Of calls in one another, thousands deep, the list is whole.
#[test]
fn calls_of_a_great_depth(rt: HostRuntime) -> Result<(), Fail> {
    let (found, told) = asked_deep(rt.alloc())?;
    assert!(rt; found.macro_calls.len() == DEEP as usize);
    assert!(rt; found.items.len() == DEEP as usize + 2);
    assert!(rt; told.iter().next().is_none());
    Ok(())
}
