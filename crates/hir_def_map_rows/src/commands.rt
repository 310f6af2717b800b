//! Lines, and what they do.
use crate::asks::OfPath;
use crate::shows::MapText;
use crate::stage::{Draft, Stage};
use crate::words::{Fault, find};
use crate::{asks, build, facts, keeps, reports, words};
use hir_base::edition::Edition;
use hir_base::ids::{Crate, MapId, ModuleId};
use hir_crate_graph::CrateSet;
use hir_def_map::{InsertError, LocalDefMap, Refused, World};
use std::alloc::Global;
use std::fmt::Write;
use std::mem;

#[derive(Clone, Copy)]
enum Command {
    Crate,
    Block,
    Module,
    Nest,
    Push,
    Update,
    Textual,
    Trait,
    Variants,
    MacroUse,
    Prelude,
    Extern,
    Insert,
    Remove,
    Crates,
    Chain,
    Maps,
    Count,
    OfPath(OfPath),
    Visibility,
    Lesser,
    Sees,
    Around,
    Outwards,
    Entry,
    Globs,
    Dump,
    DumpLength,
    Keep,
    Kept,
    Equal,
    Held,
    Fields,
    Say,
    Top,
    Roots,
    Written,
    Preludes,
    VariantsOf,
    Means,
    InTrait,
    Aside,
    Agrees,
    Report,
    Reports,
    Child,
    Children,
}

const COMMANDS: [(&str, Command); 52] = [
    ("crate", Command::Crate),
    ("block", Command::Block),
    ("mod", Command::Module),
    ("nest", Command::Nest),
    ("push", Command::Push),
    ("update", Command::Update),
    ("textual", Command::Textual),
    ("trait", Command::Trait),
    ("variants", Command::Variants),
    ("macro_use", Command::MacroUse),
    ("prelude", Command::Prelude),
    ("extern", Command::Extern),
    ("insert", Command::Insert),
    ("remove", Command::Remove),
    ("crates", Command::Crates),
    ("chain", Command::Chain),
    ("maps", Command::Maps),
    ("count", Command::Count),
    ("path", Command::OfPath(OfPath::Path)),
    ("resolve", Command::OfPath(OfPath::Resolve)),
    ("each", Command::OfPath(OfPath::Each)),
    ("reached", Command::OfPath(OfPath::Reached)),
    ("prefix", Command::OfPath(OfPath::Prefix)),
    ("local", Command::OfPath(OfPath::Local)),
    ("visibility", Command::Visibility),
    ("lesser", Command::Lesser),
    ("sees", Command::Sees),
    ("around", Command::Around),
    ("outwards", Command::Outwards),
    ("entry", Command::Entry),
    ("globs", Command::Globs),
    ("dump", Command::Dump),
    ("dump_length", Command::DumpLength),
    ("keep", Command::Keep),
    ("kept", Command::Kept),
    ("equal", Command::Equal),
    ("held", Command::Held),
    ("fields", Command::Fields),
    ("say", Command::Say),
    ("top", Command::Top),
    ("roots", Command::Roots),
    ("written", Command::Written),
    ("preludes", Command::Preludes),
    ("variants_of", Command::VariantsOf),
    ("means", Command::Means),
    ("in_trait", Command::InTrait),
    ("aside", Command::Aside),
    ("agrees", Command::Agrees),
    ("report", Command::Report),
    ("reports", Command::Reports),
    ("child", Command::Child),
    ("children", Command::Children),
];

/// What begins or fills the open map; other commands are no concern of this.
fn fill(alloc: Global, draft: &mut Draft, command: Command, words: &[&str]) -> Result<(), Fault> {
    match command {
        Command::Module => build::module(alloc, draft, words),
        Command::Nest => build::nest(alloc, draft, words),
        Command::Push => build::push(alloc, draft, words),
        Command::Textual => build::textual(alloc, draft, words),
        Command::Trait => build::unnamed_trait(draft, words),
        Command::Variants => build::variants(alloc, draft, words),
        Command::MacroUse => build::macro_use(alloc, draft, words),
        Command::Prelude => build::prelude(draft, words),
        Command::Extern => build::extern_crate(alloc, draft, words),
        Command::Keep => keeps::keep(alloc, draft, words),
        Command::Say => facts::say(alloc, draft, words),
        Command::Child => facts::child(alloc, draft, words),
        Command::Report => reports::report(alloc, draft, words),
        _ => Err(Fault::Bad),
    }
}

fn update(alloc: Global, draft: &mut Draft, words: &[&str], out: &mut String) -> Result<(), Fault> {
    let changed = build::update(alloc, draft, words)?;
    out.push_str(if changed {
        " -> changed"
    } else {
        " -> unchanged"
    })?;
    Ok(())
}

/// Puts the world aside, and begins one without maps.
fn put_aside(alloc: Global, stage: &mut Stage) {
    mem::swap(&mut stage.world, &mut stage.aside);
    stage.world = World::new(alloc);
}

/// Adds the open map to the world; one that is refused stays open.
fn insert(stage: &mut Stage) -> Result<Option<InsertError>, Fault> {
    let Some(Draft { map, local, globs }) = stage.draft.take() else {
        return Err(Fault::Bad);
    };
    match stage.world.insert(map, local) {
        Ok(()) => Ok(None),
        Err(Refused { map, local, why }) => {
            stage.draft = Some(Draft { map, local, globs });
            Ok(Some(why))
        }
    }
}

fn insert_draft(stage: &mut Stage, out: &mut String) -> Result<(), Fault> {
    let text = match insert(stage)? {
        None => " -> joins",
        Some(InsertError::Unchecked) => " -> stays out",
        Some(InsertError::Memory) => return Err(Fault::Memory),
    };
    out.push_str(text)?;
    Ok(())
}

fn remove(world: &mut World, words: &[&str]) -> Result<(), Fault> {
    let [id] = words else {
        return Err(Fault::Bad);
    };
    world.remove_with_dependents(words::map_id(id)?)?;
    Ok(())
}

fn add(world: &mut World, draft: Draft) -> Result<(), Fault> {
    let Draft { map, local, .. } = draft;
    match world.insert(map, local) {
        Ok(()) => Ok(()),
        Err(_) => Err(Fault::Bad),
    }
}

/// The crates of smaller numbers.
fn crates_below(alloc: Global, end: u32) -> Result<CrateSet, Fault> {
    let mut crates = CrateSet::new(alloc);
    for krate in 0..end {
        if crates.insert(Crate(krate)).is_err() {
            return Err(Fault::Memory);
        }
    }
    Ok(crates)
}

/// A crate over these.
fn krate_over(alloc: Global, krate: u32, crates: CrateSet) -> Result<Draft, Fault> {
    let top = build::data_over(alloc, Edition::Edition2021, crates)?;
    build::begin(alloc, Crate(krate), top, None)
}

/// Adds so many crates that stand on none.
fn add_crates(alloc: Global, world: &mut World, count: u32) -> Result<(), Fault> {
    for krate in 0..count {
        add(world, krate_over(alloc, krate, CrateSet::new(alloc))?)?;
    }
    Ok(())
}

fn name_below(alloc: Global, local: &mut LocalDefMap, krate: u32) -> Result<(), Fault> {
    if krate > 0 {
        let below = ModuleId::root(MapId::of_crate(Crate(krate - 1)));
        local.add_extern(words::name_of(alloc, "below")?, below, None)?;
    }
    Ok(())
}

/// A crate over all of smaller numbers, with the one before as `below`.
fn link(alloc: Global, krate: u32) -> Result<Draft, Fault> {
    let mut draft = krate_over(alloc, krate, crates_below(alloc, krate)?)?;
    name_below(alloc, &mut draft.local, krate)?;
    Ok(draft)
}

fn add_chain(alloc: Global, world: &mut World, count: u32) -> Result<(), Fault> {
    for krate in 0..count {
        add(world, link(alloc, krate)?)?;
    }
    Ok(())
}

/// Says which of these maps are in the world.
fn maps(world: &World, words: &[&str], out: &mut String) -> Result<(), Fault> {
    out.push_str(" ->")?;
    for word in words {
        let id = words::map_id(word)?;
        if world.map(id).is_some() {
            write!(out, " {}", MapText(id))?;
        }
    }
    Ok(())
}

fn count(words: &[&str]) -> Result<u32, Fault> {
    let [count] = words else {
        return Err(Fault::Bad);
    };
    words::number_of(count)
}

/// What changes the stage.
fn change(
    alloc: Global,
    stage: &mut Stage,
    command: Command,
    words: &[&str],
    out: &mut String,
) -> Result<(), Fault> {
    match command {
        Command::Crate => {
            stage.draft = Some(build::begin_crate(alloc, words)?);
            Ok(())
        }
        Command::Block => {
            stage.draft = Some(build::begin_block(alloc, words)?);
            Ok(())
        }
        Command::Insert => insert_draft(stage, out),
        Command::Aside => {
            put_aside(alloc, stage);
            Ok(())
        }
        Command::Remove => remove(&mut stage.world, words),
        Command::Crates => add_crates(alloc, &mut stage.world, count(words)?),
        Command::Chain => add_chain(alloc, &mut stage.world, count(words)?),
        Command::Update => match &mut stage.draft {
            Some(draft) => update(alloc, draft, words, out),
            None => Err(Fault::Bad),
        },
        _ => match &mut stage.draft {
            Some(draft) => fill(alloc, draft, command, words),
            None => Err(Fault::Bad),
        },
    }
}

/// What asks a map for what it says of itself.
fn ask_of_map(
    stage: &Stage,
    command: Command,
    words: &[&str],
    out: &mut String,
) -> Result<(), Fault> {
    match command {
        Command::Top => facts::top(stage, words, out),
        Command::Roots => facts::roots(stage, words, out),
        Command::Written => facts::written(stage, words, out),
        Command::Children => facts::children(stage, words, out),
        _ => facts::preludes(stage, words, out),
    }
}

/// What asks the stage, and is answered.
fn ask(
    alloc: Global,
    stage: &Stage,
    command: Command,
    words: &[&str],
    out: &mut String,
) -> Result<(), Fault> {
    match command {
        Command::OfPath(asked) => asks::of_path(alloc, stage, asked, words, out),
        Command::Visibility => asks::meaning(stage, words, out),
        Command::Lesser => asks::lesser(stage, words, out),
        Command::Sees => asks::sees(stage, words, out),
        Command::Around => asks::around(stage, words, out),
        Command::Outwards => asks::outwards(stage, words, out),
        Command::Entry => asks::entry(alloc, stage, words, out),
        Command::Globs => match &stage.draft {
            Some(draft) => asks::globs(alloc, &draft.globs, words, out),
            None => Err(Fault::Bad),
        },
        Command::Dump => asks::dump(alloc, stage, words, out),
        Command::DumpLength => asks::dump_length(alloc, stage, words, out),
        Command::Kept => keeps::kept(alloc, stage, words, out),
        Command::Equal => keeps::equal(alloc, stage, out),
        Command::Held => keeps::held(stage, words, out),
        Command::Fields => keeps::fields(alloc, stage, words, out),
        Command::Top | Command::Roots | Command::Written | Command::Children | Command::Preludes =>
            ask_of_map(stage, command, words, out),
        Command::VariantsOf => facts::variants_of(stage, words, out),
        Command::Means => facts::means(alloc, stage, words, out),
        Command::InTrait => facts::in_trait(alloc, stage, words, out),
        Command::Agrees => facts::agrees(alloc, stage, words, out),
        Command::Reports => reports::reports(stage, words, out),
        Command::Maps => maps(&stage.world, words, out),
        Command::Count => {
            write!(out, " -> {}", stage.world.maps.len())?;
            Ok(())
        }
        _ => Err(Fault::Bad),
    }
}

/// Whether a command asks.
fn is_question(command: Command) -> bool {
    matches!(
        command,
        Command::OfPath(_)
            | Command::Visibility
            | Command::Lesser
            | Command::Sees
            | Command::Around
            | Command::Outwards
            | Command::Entry
            | Command::Globs
            | Command::Dump
            | Command::DumpLength
            | Command::Kept
            | Command::Equal
            | Command::Held
            | Command::Fields
            | Command::Top
            | Command::Roots
            | Command::Written
            | Command::Preludes
            | Command::VariantsOf
            | Command::Means
            | Command::InTrait
            | Command::Agrees
            | Command::Reports
            | Command::Children
            | Command::Maps
            | Command::Count
    )
}

fn perform(
    alloc: Global,
    stage: &mut Stage,
    words: &[&str],
    out: &mut String,
) -> Result<(), Fault> {
    let [word, others @ ..] = words else {
        return Ok(());
    };
    let command = find(&COMMANDS, word)?;
    if is_question(command) {
        ask(alloc, stage, command, others, out)
    } else {
        change(alloc, stage, command, others, out)
    }
}

/// Writes a line again, and what it answers behind it.
fn line(alloc: Global, stage: &mut Stage, text: &str, out: &mut String) -> Result<(), Fault> {
    let text = match text.split_once("//") {
        Some((text, _)) => text,
        None => text,
    };
    let words: Vec<&str> = text.split_whitespace().collect(alloc)?;
    match perform(alloc, stage, words.as_slice(), out) {
        Err(Fault::Bad) => {
            out.push_str(" -> not understood")?;
            Ok(())
        }
        outcome => outcome,
    }
}

/// Answers each line, a label with a new stage.
pub fn run(alloc: Global, text: &str, stage: &mut Stage, out: &mut String) -> Result<(), Fault> {
    for text in text.lines() {
        out.push_str(text)?;
        if text.starts_with("# ") {
            *stage = Stage::new(alloc);
        } else {
            line(alloc, stage, text, out)?;
        }
        out.push_str("\n")?;
    }
    Ok(())
}
