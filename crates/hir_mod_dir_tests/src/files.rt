//! In which files modules are looked for.
ghost use Rattle.std.specs.Prelude.{◌||◌, nat_eq};
ghost use Rattle.std.specs.Cmp.Lexicographic.{pointwise};

use crate::rows::{FILES, TEXTS};
use hir_base::file_path::FilePath;
use hir_base::name::Name;
use hir_mod_dir::candidate::{Candidate, resolve_candidate};
use hir_mod_dir::declaration::{PresentFiles, resolve_declaration};
use hir_mod_dir::mod_dir::ModDir;
use std::alloc::Global;
use std::process::Abort;
use std::test::Fail;

/// Where a module is declared.
#[derive(Drop)]
struct Site {
    file: FilePath,
    dir: ModDir,
}

fn root(alloc: Global, file: &str) -> Result<Site, Fail> {
    Ok(Site {
        file: FilePath::parse(alloc, file)?,
        dir: ModDir::root(),
    })
}

/// A module's name and its `path` attribute.
fn parts(word: &'static str) -> (&'static str, Option<&'static str>) {
    match word.split_once('=') {
        Some((name, text)) => (name, Some(text)),
        None => (word, None),
    }
}

/// The candidates of a module that a site declares.
fn candidates(alloc: Global, site: &Site, word: &'static str) -> Result<Vec<Candidate>, Fail> {
    let (name, path_attr) = parts(word);
    let name = Name::new(alloc, name)?;
    Ok(site.dir.candidates(alloc, &name, path_attr)?)
}

/// The site of an inline module's items.
fn inline(alloc: Global, site: &Site, word: &'static str) -> Result<Site, Fail> {
    let (name, path_attr) = parts(word);
    let name = Name::new(alloc, name)?;
    let dir = site.dir.descend_into_definition(alloc, &name, path_attr)?;
    Ok(Site {
        file: site.file.clone()?,
        dir: dir.ok_or("too deep")?,
    })
}

/// The site of a candidate's items.
fn within(alloc: Global, site: &Site, candidate: &Candidate) -> Result<Site, Fail> {
    let file = resolve_candidate(alloc, &site.file, candidate.text.as_str())?;
    let dir = candidate.dir.as_ref().ok_or("too deep")?;
    Ok(Site {
        file: file.ok_or("no file")?,
        dir: dir.clone()?,
    })
}

/// The site of the items of the candidate with this number.
fn outline(alloc: Global, site: &Site, word: &'static str, number: usize) -> Result<Site, Fail> {
    let candidates = candidates(alloc, site, word)?;
    let candidate = candidates.get(number).ok_or("no candidate")?;
    within(alloc, site, candidate)
}

/// The module of a word in braces.
fn braced(word: &'static str) -> Option<&'static str> {
    word.strip_prefix('{')?.strip_suffix('}')
}

/// The site of a module's items.
fn below(alloc: Global, site: &Site, word: &'static str) -> Result<Site, Fail> {
    if let Some(word) = braced(word) {
        return inline(alloc, site, word);
    }
    if word.contains('=') {
        return outline(alloc, site, word, 0);
    }
    match word.strip_suffix("/mod.rs") {
        Some(name) => outline(alloc, site, name, 1),
        None => outline(alloc, site, word.strip_suffix(".rs").ok_or(word)?, 0),
    }
}

/// The site that these modules lead to.
fn walked(alloc: Global, file: &'static str, modules: &'static str) -> Result<Site, Fail> {
    let mut site = root(alloc, file)?;
    for word in modules.split(' ') {
        site = below(alloc, &site, word)?;
    }
    Ok(site)
}

/// Where the last module of a row is declared, and its word.
fn last(alloc: Global, row: &'static str) -> Result<(Site, &'static str), Fail> {
    let (file, modules) = row.split_once(' ').ok_or(row)?;
    match modules.rsplit_once(' ') {
        Some((modules, word)) => Ok((walked(alloc, file, modules)?, word)),
        None => Ok((root(alloc, file)?, modules)),
    }
}

/// Adds a word behind the others.
fn put(text: &mut String, word: &str) -> Result<(), Fail> {
    if !text.is_empty() {
        text.push(' ')?;
    }
    text.push_str(word)?;
    Ok(())
}

fn put_file(
    text: &mut String,
    alloc: Global,
    site: &Site,
    candidate: &Candidate,
) -> Result<(), Fail> {
    match resolve_candidate(alloc, &site.file, candidate.text.as_str())? {
        Some(file) => put(text, file.as_str()),
        None => put(text, "-"),
    }
}

/// The files of a row's candidates.
fn files(alloc: Global, row: &'static str) -> Result<String, Fail> {
    let (site, word) = last(alloc, row)?;
    let mut text = String::new(alloc);
    for candidate in &candidates(alloc, &site, word)? {
        put_file(&mut text, alloc, &site, candidate)?;
    }
    Ok(text)
}

fn put_text(text: &mut String, candidate: &Candidate) -> Result<(), Fail> {
    put(text, candidate.text.as_str())?;
    if candidate.is_mod_rs {
        text.push('!')?;
    }
    Ok(())
}

/// The texts of a row's candidates.
fn texts(alloc: Global, row: &'static str) -> Result<String, Fail> {
    let (site, word) = last(alloc, row)?;
    let mut text = String::new(alloc);
    for candidate in &candidates(alloc, &site, word)? {
        put_text(&mut text, candidate)?;
    }
    Ok(text)
}

/// Asserts a text; of all rows, so that the comparison is proved once.
fn is_text(rt: &impl Abort, row: &str, found: &str, expected: &str) {
    assert_eq!(rt; found, expected, "{row}");
}

fn have_files(rt: &impl Abort, alloc: Global, rows: &[(&'static str, &str)]) -> Result<(), Fail> {
    for &(row, expected) in rows {
        let found = files(alloc, row)?;
        is_text(rt, row, found.as_str(), expected);
    }
    Ok(())
}

#[test]
fn files_of_candidates(rt: HostRuntime) -> Result<(), Fail> {
    have_files(&rt, rt.alloc(), FILES)
}

fn have_texts(rt: &impl Abort, alloc: Global, rows: &[(&'static str, &str)]) -> Result<(), Fail> {
    for &(row, expected) in rows {
        let found = texts(alloc, row)?;
        is_text(rt, row, found.as_str(), expected);
    }
    Ok(())
}

#[test]
fn texts_of_candidates(rt: HostRuntime) -> Result<(), Fail> {
    have_texts(&rt, rt.alloc(), TEXTS)
}

/// Whether a candidate of `a` leads to a directory.
fn is_taken(alloc: Global, site: &Site) -> Result<bool, Fail> {
    for candidate in &candidates(alloc, site, "a")? {
        if candidate.dir.is_some() {
            return Ok(true);
        }
    }
    Ok(false)
}

/// Whether the inline module `a` leads to a directory.
fn descends(alloc: Global, site: &Site) -> Result<bool, Fail> {
    let name = Name::new(alloc, "a")?;
    let dir = site.dir.descend_into_definition(alloc, &name, None)?;
    Ok(dir.is_some())
}

/// The site that is this many inline modules deep.
fn deep(alloc: Global, depth: u32) -> Result<Site, Fail> {
    let mut site = root(alloc, "lib.rs")?;
    for _ in 0..depth {
        site = inline(alloc, &site, "a")?;
    }
    Ok(site)
}

/// Whether modules go on at this depth.
fn goes_on(rt: &impl Abort, alloc: Global, depth: u32, wanted: bool) -> Result<(), Fail> {
    let site = deep(alloc, depth)?;
    assert!(rt; site.dir.depth() == depth);
    assert!(rt; is_taken(alloc, &site)? == wanted);
    assert!(rt; descends(alloc, &site)? == wanted);
    Ok(())
}

#[test]
fn deepest_modules(rt: HostRuntime) -> Result<(), Fail> {
    goes_on(&rt, rt.alloc(), 0, true)?;
    goes_on(&rt, rt.alloc(), 31, true)?;
    goes_on(&rt, rt.alloc(), 32, false)
}

/// A workspace of two files.
#[derive(Drop)]
struct TwoFiles<'a> {
    first: &'a str,
    second: &'a str,
}

impl<'a> PresentFiles for TwoFiles<'a> {
    ghost present = { λ files path. pointwise nat_eq path files.first.now || pointwise nat_eq path files.second.now };

    fn is_present(&self, file: &FilePath) -> bool {
        file.as_str() == self.first || file.as_str() == self.second
    }
}

/// Two files that are there, the place of the candidate of `a` that is found, and how many files are asked for.
const PRESENT: &[(&str, &str, Option<usize>, usize)] = &[
    ("a.rs", "a/mod.rs", Some(0), 1),
    ("a.rs", "b.rs", Some(0), 1),
    ("b.rs", "a/mod.rs", Some(1), 2),
    ("b.rs", "a/b.rs", None, 2),
];

/// The place of the candidate of `a` that is found, and how many files are asked for: looked for by the module's name.
fn found_by_name(alloc: Global, files: &TwoFiles<'_>) -> Result<(Option<usize>, usize), Fail> {
    let site = root(alloc, "lib.rs")?;
    let name = Name::new(alloc, "a")?;
    let (_, found) = site
        .dir
        .resolve_declaration(alloc, files, &site.file, &name, None)?;
    Ok((found.found, found.asked.len()))
}

/// The same, among its candidates.
fn found_among(alloc: Global, files: &TwoFiles<'_>) -> Result<(Option<usize>, usize), Fail> {
    let site = root(alloc, "lib.rs")?;
    let candidates = candidates(alloc, &site, "a")?;
    let found = resolve_declaration(alloc, files, &site.file, candidates.as_slice())?;
    Ok((found.found, found.asked.len()))
}

fn resolves(
    rt: &impl Abort,
    alloc: Global,
    row: &(&'static str, &'static str, Option<usize>, usize),
) -> Result<(), Fail> {
    let (first, second, place, asked) = *row;
    let files = TwoFiles { first, second };
    let by_name = found_by_name(alloc, &files)?;
    let among = found_among(alloc, &files)?;
    let both = by_name == (place, asked) && among == (place, asked);
    assert!(rt; both, "{first} {second}");
    Ok(())
}

#[test]
fn first_present_file(rt: HostRuntime) -> Result<(), Fail> {
    for row in PRESENT {
        resolves(&rt, rt.alloc(), row)?;
    }
    Ok(())
}
