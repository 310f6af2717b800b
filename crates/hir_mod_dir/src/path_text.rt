//! Texts of paths.
ghost use Rattle.std.specs.Prelude.{◌≡◌, ◌++◌, true, IfOk, OnOk, map, string_bytes};
ghost use Rattle.hir_mod_dir.specs.Directory.{is_directory_path};
ghost use Rattle.hir_mod_dir.specs.PathText.{directory_of, parent_of, slash_for_backslash, with_slash, without_dot};

use std::alloc::{AllocError, Global};

/// Whether a text is empty or ends with `/`.
fn is_directory_path(text: &str) -> bool
    ensures value { result ≡ is_directory_path text.now }
{
    text.is_empty() || text.ends_with('/')
}

/// A text that ends with `/`, unless it is empty.
pub(crate) fn with_slash(mut text: String) -> Result<String, AllocError>
    ensures ok { IfOk result (λ path. string_bytes path ≡ with_slash (string_bytes text)) }
{
    if !is_directory_path(text.as_str()) {
        text.push('/')?;
    }
    Ok(text)
}

/// A text without its leading `./`.
pub(crate) fn without_dot(text: &str) -> &str
    ensures value { result.now ≡ without_dot text.now }
{
    match text.strip_prefix("./") {
        Some(rest) => rest,
        None => text,
    }
}

/// A text with `/` in place of each `\`.
pub(crate) fn with_slashes(alloc: Global, text: &str) -> Result<String, AllocError>
    ensures ok { IfOk result (λ path. string_bytes path ≡ map slash_for_backslash text.now) }
{
    text.replace(alloc, '\\', "/")
}

/// Writes a text up to its last `/`.
pub(crate) fn push_directory_of(to: &mut String, text: &str) -> Result<(), AllocError>
    ensures ok { OnOk result (string_bytes to.new ≡ string_bytes to.old ++ directory_of text.now) }
{
    if let Some((front, _)) = text.rsplit_once('/') {
        to.push_str(front)?;
        to.push('/')?;
    }
    Ok(())
}

/// Writes the path of the directory above.
pub(crate) fn push_parent_of(to: &mut String, path: &str) -> Result<(), AllocError>
    requires { is_directory_path path.now ≡ true }
    ensures ok { OnOk result (string_bytes to.new ≡ string_bytes to.old ++ parent_of path.now) }
{
    match path.strip_suffix('/') {
        Some(front) => push_directory_of(to, front),
        None => Ok(()),
    }
}
