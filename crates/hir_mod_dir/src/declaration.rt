//! The file of an outline module.
ghost use Rattle.std.specs.Prelude.{◌≡◌, ◌++◌, IfOk, OnOk, option_copied};
ghost use Rattle.std.specs.Option.{option_to_list};
ghost use Rattle.hir_mod_dir.specs.Declaration.{asked_files, found_place, is_there};
ghost use Rattle.hir_mod_dir.specs.ModuleFiles.{candidates_of, file_beside};

use crate::candidate::{Candidate, resolve_candidate};
use crate::mod_dir::ModDir;
use hir_base::file_path::FilePath;
use hir_base::name::Name;
use std::alloc::{AllocError, Global};

/// The files that are there.
pub trait PresentFiles {
    ghost use Rattle.std.specs.Prelude.{ℕ, Bool, List};

    /// Whether the file of a path is there.
    ghost present: { Self → List ℕ → Bool };

    /// Whether a file is there.
    fn is_present(&self, file: &FilePath) -> bool
        ensures value { result ≡ present self.now file.now };
}

/// What is found of `mod name;`.
#[derive(Drop)]
pub struct Declaration {
    /// The files that were asked for, in order. Where the module's was found, it is the last.
    pub asked: Vec<FilePath>,
    /// The place of the first candidate whose file is there.
    pub found: Option<usize>,
}

impl ModDir {
    /// The candidates for `mod name;` with this `path` attribute, and which files were asked for, up to the first that is
    /// there. They are seen from the file that declares the module.
    pub fn resolve_declaration<F: PresentFiles>(
        &self,
        alloc: Global,
        files: &F,
        file: &FilePath,
        name: &Name,
        path_attr: Option<&str>,
    ) -> Result<(Vec<Candidate>, Declaration), AllocError>
        ensures candidates { IfOk result (λ found. found.0.items ≡ candidates_of self.now name.now (option_copied path_attr.entry)) }
        ensures asked { IfOk result (λ found. found.1.asked.items ≡ asked_files (F.present files.now) file.now found.0.items) }
        ensures found { IfOk result (λ found. found.1.found ≡ found_place (F.present files.now) file.now found.0.items) }
    {
        let candidates = self.candidates(alloc, name, path_attr)?;
        let declaration = resolve_declaration(alloc, files, file, candidates.as_slice())?;
        Ok((candidates, declaration))
    }
}

/// Asks for the files of candidates, in order, up to the first that is there. They are seen from the file that declares
/// the module.
pub fn resolve_declaration<F: PresentFiles>(
    alloc: Global,
    files: &F,
    file: &FilePath,
    candidates: &[Candidate],
) -> Result<Declaration, AllocError>
    ensures asked { IfOk result (λ d. d.asked.items ≡ asked_files (F.present files.now) file.now candidates.now) }
    ensures found { IfOk result (λ d. d.found ≡ found_place (F.present files.now) file.now candidates.now) }
{
    let mut asked = Vec::new(alloc);
    let mut place = 0;
    'candidates: while place < candidates.len() {
        if asks_for(alloc, files, file, &candidates[place], &mut asked)? {
            return Ok(Declaration {
                asked,
                found: Some(place),
            });
        }
        place += 1;
    }
    Ok(Declaration { asked, found: None })
}

/// Whether a candidate's file is there, which is asked for where the candidate names one.
fn asks_for<F: PresentFiles>(
    alloc: Global,
    files: &F,
    file: &FilePath,
    candidate: &Candidate,
    asked: &mut Vec<FilePath>,
) -> Result<bool, AllocError>
    ensures value { IfOk result (λ there. there ≡ is_there (F.present files.now) file.now candidate.now) }
    ensures asked { OnOk result (asked.new.items ≡ asked.old.items ++ option_to_list (file_beside file.now candidate.now.text)) }
{
    let Some(path) = resolve_candidate(alloc, file, candidate.text.as_str())? else {
        return Ok(false);
    };
    let is_present = files.is_present(&path);
    asked.push(path)?;
    Ok(is_present)
}
