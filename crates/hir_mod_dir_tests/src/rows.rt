//! Files of modules, as the Rust reference's "Module source filenames" and "The path attribute" have them.
//!
//! A row is the file in which a crate begins, the modules on the way down, and the declaration of the last. `a.rs` and
//! `a/mod.rs` are `mod a;` in such a file, `a=x/y.rs` is `#[path = "x/y.rs"] mod a;`, and in braces they are inline
//! modules. Beside it are the files that are tried for the last module, `-` for one outside the workspace.

pub(crate) const FILES: &[(&str, &str)] = &[
    // the reference's own
    ("src/lib.rs util", "src/util.rs src/util/mod.rs"),
    (
        "src/lib.rs util.rs config",
        "src/util/config.rs src/util/config/mod.rs",
    ),
    (
        "src/lib.rs util/mod.rs config",
        "src/util/config.rs src/util/config/mod.rs",
    ),
    ("src/lib.rs c=foo.rs", "src/foo.rs"),
    ("src/lib.rs a.rs b.rs c=foo.rs", "src/a/foo.rs"),
    ("src/lib.rs a/mod.rs c=foo.rs", "src/a/foo.rs"),
    (
        "src/lib.rs a.rs b.rs {inline} inner=other.rs",
        "src/a/b/inline/other.rs",
    ),
    (
        "src/lib.rs a/mod.rs {inline} inner=other.rs",
        "src/a/inline/other.rs",
    ),
    (
        "src/lib.rs {thread=thread_files} local_data=tls.rs",
        "src/thread_files/tls.rs",
    ),
    (
        "src/lib.rs {thread=thread_files} local_data",
        "src/thread_files/local_data.rs src/thread_files/local_data/mod.rs",
    ),
    // inline modules in a file beside its directory, in one in its directory and in one that an attribute names
    ("src/lib.rs a.rs {b} c", "src/a/b/c.rs src/a/b/c/mod.rs"),
    ("src/lib.rs a/mod.rs {b} c", "src/a/b/c.rs src/a/b/c/mod.rs"),
    ("src/lib.rs a=x/y.rs {b} c", "src/x/b/c.rs src/x/b/c/mod.rs"),
    ("src/lib.rs a.rs {b=t} c", "src/t/c.rs src/t/c/mod.rs"),
    (
        "src/lib.rs a/mod.rs {b=t} c",
        "src/a/t/c.rs src/a/t/c/mod.rs",
    ),
    (
        "src/lib.rs a=x/y.rs {b=t} c",
        "src/x/t/c.rs src/x/t/c/mod.rs",
    ),
    ("src/lib.rs a.rs {b} {c=t} d=e.rs", "src/a/b/t/e.rs"),
    ("src/lib.rs a.rs {b=t} {c} d=e.rs", "src/t/c/e.rs"),
    ("src/lib.rs a.rs {b=t/} c=d.rs", "src/t/d.rs"),
    ("src/lib.rs a.rs {b=t/..} c", "src/c.rs src/c/mod.rs"),
    (
        "src/lib.rs {a} {b} {c} d",
        "src/a/b/c/d.rs src/a/b/c/d/mod.rs",
    ),
    (
        "src/lib.rs {a} b.rs {c} d",
        "src/a/b/c/d.rs src/a/b/c/d/mod.rs",
    ),
    ("src/lib.rs {a} b/mod.rs {c} d=e.rs", "src/a/b/c/e.rs"),
    ("src/lib.rs {a} b.rs c=e.rs", "src/a/e.rs"),
    // a root file at the top
    ("lib.rs a", "a.rs a/mod.rs"),
    ("lib.rs {a} b.rs c", "a/b/c.rs a/b/c/mod.rs"),
    ("lib.rs a=x/y.rs b", "x/b.rs x/b/mod.rs"),
    ("lib.rs a.rs b=c.rs", "c.rs"),
    // texts that are folded
    ("src/lib.rs a=./y.rs", "src/y.rs"),
    ("src/lib.rs a=././y.rs", "src/y.rs"),
    ("src/lib.rs a=x//y.rs", "src/x/y.rs"),
    ("src/lib.rs a=x\\y.rs", "src/x/y.rs"),
    ("src/lib.rs a=.\\x\\y.rs b", "src/x/b.rs src/x/b/mod.rs"),
    ("src/lib.rs {a=x\\y} b", "src/x/y/b.rs src/x/y/b/mod.rs"),
    ("src/lib.rs a=x/../y.rs", "src/y.rs"),
    ("src/lib.rs a=../y.rs", "y.rs"),
    ("src/lib.rs a=../y.rs b", "b.rs b/mod.rs"),
    ("src/lib.rs a=../../y.rs", "-"),
    ("src/lib.rs a=../../src/y.rs", "-"),
    ("src/lib.rs {a=../..} b", "- -"),
    ("src/lib.rs a=", "src"),
    ("lib.rs a=", "-"),
    ("src/lib.rs {a=} b", "src/b.rs src/b/mod.rs"),
    ("src/lib.rs a.rs {b=} c", "src/c.rs src/c/mod.rs"),
    ("src/lib.rs a/mod.rs {b=} c=y.rs", "src/a/y.rs"),
    // 64 segments, and one more
    (
        "lib.rs a=x/x/x/x/x/x/x/x/x/x/x/x/x/x/x/x/x/x/x/x/x/x/x/x/x/x/x/x/x/x/x/x/x/x/x/x/x/x/x/x/x/x/x/x/x/x/x/x/x/x/x/x/x/x/x/x/x/x/x/x/x/x/x/y.rs",
        "x/x/x/x/x/x/x/x/x/x/x/x/x/x/x/x/x/x/x/x/x/x/x/x/x/x/x/x/x/x/x/x/x/x/x/x/x/x/x/x/x/x/x/x/x/x/x/x/x/x/x/x/x/x/x/x/x/x/x/x/x/x/x/y.rs",
    ),
    (
        "src/lib.rs a=x/x/x/x/x/x/x/x/x/x/x/x/x/x/x/x/x/x/x/x/x/x/x/x/x/x/x/x/x/x/x/x/x/x/x/x/x/x/x/x/x/x/x/x/x/x/x/x/x/x/x/x/x/x/x/x/x/x/x/x/x/x/x/y.rs",
        "-",
    ),
    // three modules, each in a `mod.rs`, in a file beside its directory or where an attribute says
    (
        "src/lib.rs a/mod.rs b/mod.rs c/mod.rs d",
        "src/a/b/c/d.rs src/a/b/c/d/mod.rs",
    ),
    (
        "src/lib.rs a/mod.rs b/mod.rs c/mod.rs d=y.rs",
        "src/a/b/c/y.rs",
    ),
    (
        "src/lib.rs a/mod.rs b/mod.rs c.rs d",
        "src/a/b/c/d.rs src/a/b/c/d/mod.rs",
    ),
    ("src/lib.rs a/mod.rs b/mod.rs c.rs d=y.rs", "src/a/b/y.rs"),
    (
        "src/lib.rs a/mod.rs b/mod.rs c=x/c.rs d",
        "src/a/b/x/d.rs src/a/b/x/d/mod.rs",
    ),
    (
        "src/lib.rs a/mod.rs b/mod.rs c=x/c.rs d=y.rs",
        "src/a/b/x/y.rs",
    ),
    (
        "src/lib.rs a/mod.rs b.rs c/mod.rs d",
        "src/a/b/c/d.rs src/a/b/c/d/mod.rs",
    ),
    ("src/lib.rs a/mod.rs b.rs c/mod.rs d=y.rs", "src/a/b/c/y.rs"),
    (
        "src/lib.rs a/mod.rs b.rs c.rs d",
        "src/a/b/c/d.rs src/a/b/c/d/mod.rs",
    ),
    ("src/lib.rs a/mod.rs b.rs c.rs d=y.rs", "src/a/b/y.rs"),
    (
        "src/lib.rs a/mod.rs b.rs c=x/c.rs d",
        "src/a/x/d.rs src/a/x/d/mod.rs",
    ),
    ("src/lib.rs a/mod.rs b.rs c=x/c.rs d=y.rs", "src/a/x/y.rs"),
    (
        "src/lib.rs a/mod.rs b=x/b.rs c/mod.rs d",
        "src/a/x/c/d.rs src/a/x/c/d/mod.rs",
    ),
    (
        "src/lib.rs a/mod.rs b=x/b.rs c/mod.rs d=y.rs",
        "src/a/x/c/y.rs",
    ),
    (
        "src/lib.rs a/mod.rs b=x/b.rs c.rs d",
        "src/a/x/c/d.rs src/a/x/c/d/mod.rs",
    ),
    ("src/lib.rs a/mod.rs b=x/b.rs c.rs d=y.rs", "src/a/x/y.rs"),
    (
        "src/lib.rs a/mod.rs b=x/b.rs c=x/c.rs d",
        "src/a/x/x/d.rs src/a/x/x/d/mod.rs",
    ),
    (
        "src/lib.rs a/mod.rs b=x/b.rs c=x/c.rs d=y.rs",
        "src/a/x/x/y.rs",
    ),
    (
        "src/lib.rs a.rs b/mod.rs c/mod.rs d",
        "src/a/b/c/d.rs src/a/b/c/d/mod.rs",
    ),
    ("src/lib.rs a.rs b/mod.rs c/mod.rs d=y.rs", "src/a/b/c/y.rs"),
    (
        "src/lib.rs a.rs b/mod.rs c.rs d",
        "src/a/b/c/d.rs src/a/b/c/d/mod.rs",
    ),
    ("src/lib.rs a.rs b/mod.rs c.rs d=y.rs", "src/a/b/y.rs"),
    (
        "src/lib.rs a.rs b/mod.rs c=x/c.rs d",
        "src/a/b/x/d.rs src/a/b/x/d/mod.rs",
    ),
    ("src/lib.rs a.rs b/mod.rs c=x/c.rs d=y.rs", "src/a/b/x/y.rs"),
    (
        "src/lib.rs a.rs b.rs c/mod.rs d",
        "src/a/b/c/d.rs src/a/b/c/d/mod.rs",
    ),
    ("src/lib.rs a.rs b.rs c/mod.rs d=y.rs", "src/a/b/c/y.rs"),
    (
        "src/lib.rs a.rs b.rs c.rs d",
        "src/a/b/c/d.rs src/a/b/c/d/mod.rs",
    ),
    ("src/lib.rs a.rs b.rs c.rs d=y.rs", "src/a/b/y.rs"),
    (
        "src/lib.rs a.rs b.rs c=x/c.rs d",
        "src/a/x/d.rs src/a/x/d/mod.rs",
    ),
    ("src/lib.rs a.rs b.rs c=x/c.rs d=y.rs", "src/a/x/y.rs"),
    (
        "src/lib.rs a.rs b=x/b.rs c/mod.rs d",
        "src/x/c/d.rs src/x/c/d/mod.rs",
    ),
    ("src/lib.rs a.rs b=x/b.rs c/mod.rs d=y.rs", "src/x/c/y.rs"),
    (
        "src/lib.rs a.rs b=x/b.rs c.rs d",
        "src/x/c/d.rs src/x/c/d/mod.rs",
    ),
    ("src/lib.rs a.rs b=x/b.rs c.rs d=y.rs", "src/x/y.rs"),
    (
        "src/lib.rs a.rs b=x/b.rs c=x/c.rs d",
        "src/x/x/d.rs src/x/x/d/mod.rs",
    ),
    ("src/lib.rs a.rs b=x/b.rs c=x/c.rs d=y.rs", "src/x/x/y.rs"),
    (
        "src/lib.rs a=x/a.rs b/mod.rs c/mod.rs d",
        "src/x/b/c/d.rs src/x/b/c/d/mod.rs",
    ),
    (
        "src/lib.rs a=x/a.rs b/mod.rs c/mod.rs d=y.rs",
        "src/x/b/c/y.rs",
    ),
    (
        "src/lib.rs a=x/a.rs b/mod.rs c.rs d",
        "src/x/b/c/d.rs src/x/b/c/d/mod.rs",
    ),
    ("src/lib.rs a=x/a.rs b/mod.rs c.rs d=y.rs", "src/x/b/y.rs"),
    (
        "src/lib.rs a=x/a.rs b/mod.rs c=x/c.rs d",
        "src/x/b/x/d.rs src/x/b/x/d/mod.rs",
    ),
    (
        "src/lib.rs a=x/a.rs b/mod.rs c=x/c.rs d=y.rs",
        "src/x/b/x/y.rs",
    ),
    (
        "src/lib.rs a=x/a.rs b.rs c/mod.rs d",
        "src/x/b/c/d.rs src/x/b/c/d/mod.rs",
    ),
    ("src/lib.rs a=x/a.rs b.rs c/mod.rs d=y.rs", "src/x/b/c/y.rs"),
    (
        "src/lib.rs a=x/a.rs b.rs c.rs d",
        "src/x/b/c/d.rs src/x/b/c/d/mod.rs",
    ),
    ("src/lib.rs a=x/a.rs b.rs c.rs d=y.rs", "src/x/b/y.rs"),
    (
        "src/lib.rs a=x/a.rs b.rs c=x/c.rs d",
        "src/x/x/d.rs src/x/x/d/mod.rs",
    ),
    ("src/lib.rs a=x/a.rs b.rs c=x/c.rs d=y.rs", "src/x/x/y.rs"),
    (
        "src/lib.rs a=x/a.rs b=x/b.rs c/mod.rs d",
        "src/x/x/c/d.rs src/x/x/c/d/mod.rs",
    ),
    (
        "src/lib.rs a=x/a.rs b=x/b.rs c/mod.rs d=y.rs",
        "src/x/x/c/y.rs",
    ),
    (
        "src/lib.rs a=x/a.rs b=x/b.rs c.rs d",
        "src/x/x/c/d.rs src/x/x/c/d/mod.rs",
    ),
    ("src/lib.rs a=x/a.rs b=x/b.rs c.rs d=y.rs", "src/x/x/y.rs"),
    (
        "src/lib.rs a=x/a.rs b=x/b.rs c=x/c.rs d",
        "src/x/x/x/d.rs src/x/x/x/d/mod.rs",
    ),
    (
        "src/lib.rs a=x/a.rs b=x/b.rs c=x/c.rs d=y.rs",
        "src/x/x/x/y.rs",
    ),
];

/// Texts of candidates, as a diagnostic gives them: not folded, and from the file that declares the module. A `!` stands
/// behind the `mod.rs` of a directory.
pub(crate) const TEXTS: &[(&str, &str)] = &[
    ("src/lib.rs a", "a.rs a/mod.rs!"),
    ("src/lib.rs a.rs b", "a/b.rs a/b/mod.rs!"),
    ("src/lib.rs a/mod.rs b", "b.rs b/mod.rs!"),
    ("src/lib.rs a.rs {b} c=./d.rs", "a/b/d.rs"),
    ("src/lib.rs a.rs c=x\\../d.rs", "x/../d.rs"),
    ("src/lib.rs a.rs {b=x/} c", "x/c.rs x/c/mod.rs!"),
    ("src/lib.rs a.rs {b=./} c", "c.rs c/mod.rs!"),
    ("src/lib.rs a=x/mod.rs", "x/mod.rs!"),
    ("src/lib.rs a=mod.rs", "mod.rs"),
    ("lib.rs a=../../y.rs", "../../y.rs"),
];
