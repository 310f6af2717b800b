//! Files in which an outline module may be.
ghost use Rattle.std.specs.Prelude.{◌≡◌, IfOk, string_bytes, option_copied};
ghost use Rattle.std.specs.Result.{result_ok};
ghost use Rattle.hir_base.specs.ParseFile.{folded_path};
ghost use Rattle.hir_mod_dir.specs.ModuleFiles.{candidate, candidates_of, file_beside, is_mod_rs};

use crate::mod_dir::ModDir;
use crate::path_text::push_directory_of;
use hir_base::file_path::FilePath;
use hir_base::mod_path::ParseError;
use hir_base::name::Name;
use hir_base::text::Text;
use std::alloc::{AllocError, Global};

/// A file in which an outline module may be.
#[derive(Drop)]
pub struct Candidate {
    /// Its path from the directory of the file that declares the module: not folded.
    pub text: Text,
    /// Whether it is the `mod.rs` of a directory: the text ends with `/mod.rs`, as rust-analyzer has it.
    pub is_mod_rs: bool,
    /// The directory of the module's own submodules. There is none where it is too deep, and the file isn't taken then.
    pub dir: Option<ModDir>,
}

/// Whether a text ends with `/mod.rs`.
fn is_mod_rs(text: &str) -> bool
    ensures value { result ≡ is_mod_rs text.now }
{
    text.ends_with("/mod.rs")
}

impl ModDir {
    /// The files that are tried for `mod name;` with this `path` attribute, in order.
    pub fn candidates(
        &self,
        alloc: Global,
        name: &Name,
        path_attr: Option<&str>,
    ) -> Result<Vec<Candidate>, AllocError>
        ensures value { IfOk result (λ found. found.items ≡ candidates_of self.now name.now (option_copied path_attr.entry)) }
    {
        let mut found = Vec::new(alloc);
        match path_attr {
            Some(attr) => {
                let text = self.join_attr(alloc, attr)?;
                found.push(self.candidate(alloc, name, true, text)?)?;
            }
            None => {
                let beside = self.join_name(alloc, name, ".rs")?;
                found.push(self.candidate(alloc, name, false, beside)?)?;
                let within = self.join_name(alloc, name, "/mod.rs")?;
                found.push(self.candidate(alloc, name, false, within)?)?;
            }
        }
        Ok(found)
    }

    /// The candidate of this text.
    fn candidate(
        &self,
        alloc: Global,
        name: &Name,
        has_path_attr: bool,
        text: String,
    ) -> Result<Candidate, AllocError>
        ensures value { IfOk result (λ c. c ≡ candidate self.now name.now has_path_attr (string_bytes text)) }
    {
        let is_mod_rs = is_mod_rs(text.as_str());
        let dir = self.file_directory(alloc, name, is_mod_rs || has_path_attr)?;
        Ok(Candidate {
            text: Text::from_string(text)?,
            is_mod_rs,
            dir,
        })
    }
}

/// The file that a candidate's text names, as seen from the file that declares the module, with `.` and `..` folded.
/// There is none where the text climbs past the root, names no file or has more segments than a file's path may have.
pub fn resolve_candidate(
    alloc: Global,
    file: &FilePath,
    text: &str,
) -> Result<Option<FilePath>, AllocError>
    ensures value { IfOk result (λ found. found ≡ file_beside file.now text.now) }
{
    let mut path = String::new(alloc);
    push_directory_of(&mut path, file.as_str())?;
    path.push_str(text)?;
    parse(alloc, path.as_str())
}

/// The file that a text names, where it names one.
fn parse(alloc: Global, text: &str) -> Result<Option<FilePath>, AllocError>
    ensures value { IfOk result (λ found. found ≡ result_ok (folded_path text.now)) }
{
    match FilePath::parse(alloc, text) {
        Ok(file) => Ok(Some(file)),
        Err(ParseError::Memory) => Err(AllocError),
        Err(ParseError::Bad | ParseError::TooLarge(_)) => Ok(None),
    }
}
