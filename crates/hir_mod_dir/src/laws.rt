//! What holds of each directory.
ghost use Rattle.hir_mod_dir.specs.Directory.{IsDirectory};

use crate::mod_dir::ModDir;

/// A directory's path is empty or ends with `/`, and isn't empty where the file stands beside the directory.
pub fn dir_path_is_empty_or_ends_with_slash(dir: &ModDir)
    ensures law { IsDirectory dir.now }
{
    let _path = dir.path();
}
