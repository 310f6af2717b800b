//! Builds def maps as the lines of standard input say, and writes what they answer.
//!
//! A line that begins with `# ` is a label: the lines below it, up to the next label, are a case of their own. Each line
//! is written again, and one that asks has its answer behind it; what follows `//` is a remark. The first word of a line is
//! what it does:
//!
//! - `crate 1 2021 0` begins the map of crate 1, which stands on crate 0. Until it is inserted, the map is the open one.
//! - `block 1.7 1:2` begins the map of block 7 of crate 1, in the module 2 of the crate's map; crates on which it stands
//!   may follow.
//! - `mod 1:0 a` adds a module to the module 0 of the open map, with the next number, and binds its name. With `file=1` it is
//!   written in file 1 alone, with `call=1` in what macro call 1 expands to, with `block=1` it is a block there.
//! - `nest 255 d` adds so many modules of a name, the first below the root, and each in the one before.
//! - `push 1:2 S struct 5 pub` binds a name there: a `struct`, `fn`, `enum` or a macro for `bang`, `attr` or `derive` of
//!   node 5, or a `mod` of an id.
//! - `update 1:2 S struct 5 pub glob=6 import=7` binds it as glob 6 does, items that import 7 brought, and says whether that
//!   changed anything; `update 1:2 S nothing` binds nothing. `textual 1:2 m bang 5` gives the module a macro in
//!   textual scope, and `trait 1:2 5 import=6` a trait without a name.
//! - `variants 1:2 5 A tuple 6` says that the enum of node 5 there has the variant `A` of node 6.
//! - `macro_use used bang 0:0 6`, `prelude 0:1` and `extern zero 0:0` fill the preludes of the open map.
//! - `insert` adds the open map to the world, or leaves it open; `remove 1` removes a map and its dependents.
//! - `crates 100` adds so many crates that stand on none, and `chain 100` so many that each stand on all before, with
//!   the one before as `below`.
//! - `maps 0 1.7` says which of these are in the world, and `count` how many are.
//! - `path 1:2 a::b` asks for a path from a module. `other` (the shadow mode Other: a builtin type comes before a module)
//!   is meant unless `module` follows; `bang` and `attr` ask for macros of that style.
//! - `resolve` asks the same, or for an import if `import` follows, and says whether the answer is final.
//! - `each` resolves in each shadow mode without a style, for `bang` and for `attr`, in this order; behind a `;` stands from
//!   which on the answer is another.
//! - `reached` is what an import leads to, `prefix` what a path leads through, and `local` asks without holders.
//! - `visibility 1:2 pub(self)` is what a visibility means that is written there, `lesser 1:0 in=1:2 pub` the lesser
//!   of two in a map, and `sees 1:2 in=1:0` whether the module may see.
//! - `entry 1:2 S` is what a name stands for there, and `globs 1:2 S` in which namespaces a glob brought that.
//! - `around 1:2` is the module around another, `outwards 1.7:0` it and those that hold it; `dump 1:0` prints a map, and `dump_length` how long that is.
//! - `keep 1:2 5 h` gives the open map a derive macro, a procedural macro, a derive helper `h` and a diagnostic of node 5,
//!   and `kept 1:2 5` says which of these it has, and how many diagnostics in all.
//! - `equal` says whether the open map and the finished one of its id are equal, and the crates that their paths may begin with.
//! - `held 1:0 file=1` lists the modules that have file 1 to themselves, `held 1:0 call=1` those written in what call 1 expands to.
//! - `fields 1:2 pub pub(self)` is what the visibilities of fields mean that are written there, `means 1:2 in:a::b` what one of an
//!   item means there and in an impl, and `in_trait 1:2 pub pub(self)` who may see an item with the second in a trait with the first.
//! - `say no_std` has the top of the open map's crate say that, `no_core`, `coherence`, `limit=4`, `feature=x` or `tool=x`, and
//!   `top 1:0` lists what it says; `roots 1.7:0` are the roots of the crate and of the map.
//! - `child 1:2 n 1:3` gives a module a child by a further name, and `children 1:2` lists them. `written 1:2` is where a module is written, and how many its map has, `preludes 1:0` what paths may begin with, and `variants_of 1:2 5` the variants of an enum.
//! - `aside` puts the world aside, and `agrees 0 1.7` says which maps are found, and whether the world that was put aside has the same.
//! - `report 1:2 import 5` gives the open map a diagnostic of node 5, by its kind, and `reports 1:0` lists those of a map.
//!
//! In a path `super*3` is `super::super::super`, and `""` is the empty path. A visibility is `pub`, `crate=1`, `in=1:2`
//! (of that module, without a word) or `pub-in=1:2`.
#![tactic(auto)]

mod asks;
mod build;
mod commands;
mod facts;
mod keeps;
mod reports;
mod shows;
mod stage;
mod words;

use commands::run;
use stage::Stage;
use std::io;
use std::process::ExitCode;

fn main(rt: HostRuntime) -> ExitCode {
    let Ok(text) = io::read_to_string(rt.alloc(), rt.reader()) else {
        return ExitCode::FAILURE;
    };
    let mut out = String::new(rt.alloc());
    let mut stage = Stage::new(rt.alloc());
    let answered = run(rt.alloc(), text.as_str(), &mut stage, &mut out);
    let written = rt.print(out.as_str());
    if answered.is_ok() && written.is_ok() {
        ExitCode::SUCCESS
    } else {
        ExitCode::FAILURE
    }
}
