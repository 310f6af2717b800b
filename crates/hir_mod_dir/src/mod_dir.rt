//! Directories of modules.
ghost use Rattle.std.specs.Prelude.{◌≡◌, ◌<◌, ◌++◌, true, [], length, IfOk, string_bytes, unwrap_or, option_copied, if◌then◌else◌};
ghost use Rattle.hir_mod_dir.specs.Directory.{IsDirectory, is_directory_path};
ghost use Rattle.hir_mod_dir.specs.PathText.{joined, parent_of};
ghost use Rattle.hir_mod_dir.specs.ModuleFiles.{root, child, file_directory, inline_directory, inline_path};

use crate::path_text::{push_parent_of, with_slash, with_slashes, without_dot};
use hir_base::name::Name;
use hir_base::text::Text;
use std::alloc::{AllocError, Global};
use std::marker::Model;

/// How deep modules whose files are looked for may be nested.
pub const MAX_DEPTH: u32 = 32;

/// The directory in which the files of a module's submodules are looked for. Its path is relative to the directory of
/// the file in which the submodules are declared.
#[derive(Drop)]
pub struct ModDir {
    /// Without a text it is empty.
    path: Option<Text>,
    root_non_dir_owner: bool,
    depth: u32,
}

impl Model for ModDir {
    ghost use Rattle.std.specs.Prelude.{[], unwrap_or};
    ghost use Rattle.hir_mod_dir.specs.Directory.{Directory, IsDirectory};

    ghost Value = { Directory };

    ghost view = { λ d. record { path = unwrap_or d.path []; root_non_dir_owner = d.root_non_dir_owner; depth = d.depth } };

    ghost invariant = { λ d. IsDirectory (record { path = unwrap_or d.path []; root_non_dir_owner = d.root_non_dir_owner; depth = d.depth }) };
}

impl ModDir {
    /// The directory of a crate's root file.
    pub fn root() -> ModDir
        ensures value { result ≡ root }
    {
        ModDir {
            path: None,
            root_non_dir_owner: false,
            depth: 0,
        }
    }

    /// The directory's path, which is empty or ends with `/`.
    pub fn path(&self) -> &str
        ensures value { result.now ≡ self.now.path }
        ensures held { IsDirectory self.now }
    {
        match &self.path {
            Some(path) => path.as_str(),
            None => "",
        }
    }

    /// Whether the file that declares the submodules stands beside this directory, as `n.rs` beside `n/`.
    pub fn root_non_dir_owner(&self) -> bool
        ensures value { result ≡ self.now.root_non_dir_owner }
    {
        self.root_non_dir_owner
    }

    /// How many modules deep it is.
    pub fn depth(&self) -> u32
        ensures value { result ≡ self.now.depth }
    {
        self.depth
    }

    /// The same directory; both keep one text.
    pub fn clone(&self) -> Result<ModDir, AllocError>
        ensures value { IfOk result (λ dir. dir ≡ self.now) }
    {
        let path = match &self.path {
            Some(path) => Some(path.clone()?),
            None => None,
        };
        Ok(ModDir {
            path,
            root_non_dir_owner: self.root_non_dir_owner,
            depth: self.depth,
        })
    }

    /// The directory of `mod name { .. }` with this `path` attribute, or `None` where it is too deep.
    pub fn descend_into_definition(
        &self,
        alloc: Global,
        name: &Name,
        path_attr: Option<&str>,
    ) -> Result<Option<ModDir>, AllocError>
        ensures value { IfOk result (λ dir. dir ≡ inline_directory self.now name.now (option_copied path_attr.entry)) }
    {
        let path = self.inline_path(alloc, name, path_attr)?;
        Ok(self.child(Some(path), false))
    }

    /// The path of `mod name { .. }` with this `path` attribute.
    fn inline_path(
        &self,
        alloc: Global,
        name: &Name,
        path_attr: Option<&str>,
    ) -> Result<Text, AllocError>
        ensures value { IfOk result (λ path. path ≡ inline_path self.now name.now (option_copied path_attr.entry)) }
        ensures slash { IfOk result (λ path. is_directory_path path ≡ true) }
    {
        let path = match path_attr {
            Some(text) => with_slash(self.join_attr(alloc, text)?)?,
            None => self.join_name(alloc, name, "/")?,
        };
        Text::from_string(path)
    }

    /// The path of the directory, a name and what follows it.
    pub(crate) fn join_name(
        &self,
        alloc: Global,
        name: &Name,
        end: &str,
    ) -> Result<String, AllocError>
        ensures value { IfOk result (λ path. string_bytes path ≡ self.now.path ++ name.now ++ end.now) }
    {
        let mut path = String::from_str(alloc, self.path())?;
        path.push_str(name.as_str())?;
        path.push_str(end)?;
        Ok(path)
    }

    /// The text that a `path` attribute means here.
    pub(crate) fn join_attr(&self, alloc: Global, attr: &str) -> Result<String, AllocError>
        ensures value { IfOk result (λ text. string_bytes text ≡ joined self.now attr.now) }
    {
        let mut text = self.base(alloc)?;
        let attr = with_slashes(alloc, without_dot(attr))?;
        text.push_str(attr.as_str())?;
        Ok(text)
    }

    /// The path that the text of a `path` attribute follows.
    fn base(&self, alloc: Global) -> Result<String, AllocError>
        ensures value { IfOk result (λ text. string_bytes text ≡ (if self.now.root_non_dir_owner then parent_of self.now.path else self.now.path)) }
    {
        if !self.root_non_dir_owner {
            return String::from_str(alloc, self.path());
        }
        let mut parent = String::new(alloc);
        push_parent_of(&mut parent, self.path())?;
        Ok(parent)
    }

    /// The directory of `mod name;` in a file, or `None` where it is too deep. The file stands in its directory, or
    /// beside it.
    pub(crate) fn file_directory(
        &self,
        alloc: Global,
        name: &Name,
        is_dir_owner: bool,
    ) -> Result<Option<ModDir>, AllocError>
        ensures value { IfOk result (λ dir. dir ≡ file_directory self.now name.now is_dir_owner) }
    {
        if is_dir_owner {
            return Ok(self.child(None, false));
        }
        let path = ModDir::root().join_name(alloc, name, "/")?;
        Ok(self.child(Some(Text::from_string(path)?), true))
    }

    /// The directory of a module in this one, or `None` where it is too deep.
    fn child(&self, path: Option<Text>, root_non_dir_owner: bool) -> Option<ModDir>
        requires slash { is_directory_path (unwrap_or path []) ≡ true }
        requires owned { root_non_dir_owner ≡ true → 0 < length (unwrap_or path []) }
        ensures value { result ≡ child self.now (unwrap_or path []) root_non_dir_owner }
    {
        if self.depth >= MAX_DEPTH {
            return None;
        }
        Some(ModDir {
            path,
            root_non_dir_owner,
            depth: self.depth + 1,
        })
    }
}
