// The limits of this process, and how far it has written its files, as Linux tells them in `/proc`. Nothing here allocates.
ghost use Rattle.std.specs.Prelude.{IfSome};
ghost use Rattle.hir_session_main.specs.Labels.{StandsBehind};

use std::fs::{self, File, Files};
use std::io::Read;

/// The limits of this process, each by its name, with its value in bytes or `unlimited`.
const LIMITS: &str = "/proc/self/limits";

/// The number that stands behind a label, if one does.
fn number_behind(text: &str, label: &str) -> Option<u64>
    ensures found { IfSome result (StandsBehind label.now text.now) }
{
    let (_, rest) = text.split_once(label)?;
    rest.split_whitespace().next()?.parse().ok()
}

/// The number behind a label in a file of `/proc`, which gives all that there is at one read.
fn number_in(files: &impl Files, path: &str, label: &str) -> Option<u64> {
    let mut page = [0u8; 4096];
    let count = File::open(files, path).ok()?.read(&mut page).ok()?;
    number_behind(str::from_utf8(&page[..count]).ok()?, label)
}

/// How large the stack may become, if that is limited.
pub fn stack_limit(files: &impl Files) -> Option<u64> {
    number_in(files, LIMITS, "Max stack size")
}

/// Where standard output or standard error leads, and how large that may become, if it is a file and that is limited.
#[derive(Clone, Copy)]
pub struct OutputFile {
    info: &'static str,
    limit: Option<u64>,
}

impl OutputFile {
    fn new(files: &impl Files, path: &str, info: &'static str) -> OutputFile {
        let limit = match fs::metadata(files, path) {
            Ok(it) if it.is_file() => number_in(files, LIMITS, "Max file size"),
            _ => None,
        };
        OutputFile { info, limit }
    }

    pub fn standard_output(files: &impl Files) -> OutputFile {
        OutputFile::new(files, "/proc/self/fd/1", "/proc/self/fdinfo/1")
    }

    pub fn standard_error(files: &impl Files) -> OutputFile {
        OutputFile::new(files, "/proc/self/fd/2", "/proc/self/fdinfo/2")
    }

    /// Whether it was written up to its limit, where a write would end the process by a signal.
    pub fn is_full(&self, files: &impl Files) -> bool {
        match self.limit {
            Some(limit) => number_in(files, self.info, "pos:").is_some_and(|at| limit <= at),
            None => false,
        }
    }
}
