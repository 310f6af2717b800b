//! Says what the lines of standard input mean to `hir_wire`, and makes replies of theirs that no session gives yet.
//!
//! A line that begins with `# ` is a label and is written again. Each other line is a command, with a word in front that
//! says what is done with it:
//!
//! - `read` writes the page of the file that the command sets, under no options, and below it a line for each node at its
//!   top: its input, and its body, its fields' visibilities, or its macro's text, expander and helpers. Texts stand between backquotes.
//!   Of an expansion that the command sets it first writes a line with what is in its key and a line with its error, if it
//!   has one; of one that it removes the key alone. Of a block it first writes a line with its place, of a place that is
//!   dumped nothing else, of a trait or an impl whose items are asked its place with its path or its number. Of a crate that
//!   gets other data it writes its number and edition, each option, each dependency, and the page of a root file that can't be read.
//! - `diagnose` makes a diagnostic of each node of that file, by its kind. The path of an attribute or a derive that names
//!   no macro is that of the node's attribute; a macro call with an attribute has failed, and its input says why.
//! - `name` names the last node of that file, and `expand` makes a diagnostic of it, as if it stood below the expansions of
//!   the nodes before it, of which the first is the outermost call.
//! - `repeat` refuses that file since the id of its first node repeats.
//! - `answer` names the root of the block whose status is asked, and a macro in it; `list` lists that block behind a crate's root.
//! - `refuse` has no command behind it, but the word of a refusal; `blocks` is that of too many of them.
//!
//! A command that isn't read is answered by why it isn't.
#![tactic(auto)]

mod answers;
mod crates;
mod diagnostics;
mod items;
mod keys;
mod lines;
mod parts;
mod places;

use std::io;
use std::process::ExitCode;

fn main(rt: HostRuntime) -> ExitCode {
    let Ok(text) = io::read_to_string(rt.alloc(), rt.reader()) else {
        return ExitCode::FAILURE;
    };
    let mut out = String::new(rt.alloc());
    let answered = lines::run(rt.alloc(), text.as_str(), &mut out);
    let written = rt.print(out.as_str());
    if answered.is_ok() && written.is_ok() {
        ExitCode::SUCCESS
    } else {
        ExitCode::FAILURE
    }
}
