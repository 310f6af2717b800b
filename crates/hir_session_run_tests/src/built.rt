//! Inputs that are built: the most nodes that a unit may have, the most crates of a session, the longest line.

use crate::sessions::converse;
use std::alloc::{AllocError, Global};
use std::process::Abort;
use std::test::Fail;

/// A head, a part and how many times it comes, a tail, and what they are answered.
#[derive(Clone, Copy)]
struct Row {
    label: &'static str,
    head: &'static str,
    part: &'static str,
    count: u32,
    tail: &'static str,
    replies: &'static str,
}

/// A struct is a node, and so is each of its fields.
const WIDE: &str = r#"{"do":"crates","crates":[{"edition":"2021","root":"lib.rs"}]}
{"do":"set file","file":"lib.rs","unit":{"nodes":[{"kind":"Struct","id":[1,0],"name":"S","fields":[null"#;

const CRATES: &str = r#"{"do":"crates","crates":[{"edition":"2021","root":"lib.rs"}"#;

const STATUS: &str = "]}\n{\"do\":\"status\",\"at\":[9999]}\n";

const NO_COMMAND: &str = "{\"error\":\"command\"}\n{\"error\":\"command\"}\n";

const LONG_LINE: &str = "{\"error\":\"too large\",\"what\":\"line\"}\n{\"error\":\"command\"}\n";

const MOST: &[Row] = &[
    Row {
        label: "a million nodes",
        head: WIDE,
        part: ",null",
        count: 999_998,
        tail: "]}]}}\n",
        replies: "{\"ok\":null}\n{\"ok\":null}\n",
    },
    Row {
        label: "one node more",
        head: WIDE,
        part: ",null",
        count: 999_999,
        tail: "]}]}}\n",
        replies: "{\"ok\":null}\n{\"error\":\"too large\",\"what\":\"nodes\"}\n",
    },
    Row {
        label: "ten thousand crates",
        head: CRATES,
        part: r#",{"edition":"2021","root":"lib.rs"}"#,
        count: 9_999,
        tail: STATUS,
        replies: "{\"ok\":null}\n{\"ok\":\"stale\"}\n",
    },
    Row {
        label: "one crate more",
        head: CRATES,
        part: r#",{"edition":"2021","root":"lib.rs"}"#,
        count: 10_000,
        tail: STATUS,
        replies: "{\"error\":\"too large\",\"what\":\"crates\"}\n{\"error\":\"command\"}\n",
    },
];

const CRATES_AND_A_LINE: &str =
    "{\"do\":\"crates\",\"crates\":[{\"edition\":\"2021\",\"root\":\"lib.rs\"}]}\n{}";

/// A line of `{}` and spaces, and a line behind it; or such a line alone, without its end; or one between others.
const LINES: &[Row] = &[
    Row {
        label: "a short line",
        head: "{}",
        part: " ",
        count: 10,
        tail: "\n{}",
        replies: NO_COMMAND,
    },
    Row {
        label: "a line at the limit",
        head: "{}",
        part: " ",
        count: 16_777_214,
        tail: "\n{}",
        replies: NO_COMMAND,
    },
    Row {
        label: "a line above the limit is skipped",
        head: "{}",
        part: " ",
        count: 16_777_215,
        tail: "\n{}",
        replies: LONG_LINE,
    },
    Row {
        label: "a line of twice the limit",
        head: "{}",
        part: " ",
        count: 33_554_432,
        tail: "\n{}",
        replies: LONG_LINE,
    },
    Row {
        label: "the last line, at the limit",
        head: "{}",
        part: " ",
        count: 16_777_214,
        tail: "",
        replies: "{\"error\":\"command\"}\n",
    },
    Row {
        label: "the last line, above the limit",
        head: "{}",
        part: " ",
        count: 16_777_215,
        tail: "",
        replies: "{\"error\":\"too large\",\"what\":\"line\"}\n",
    },
    Row {
        label: "a session goes on behind a line at the limit",
        head: CRATES_AND_A_LINE,
        part: " ",
        count: 16_777_214,
        tail: "\n{\"do\":\"refresh\"}\n",
        replies: "{\"ok\":null}\n{\"error\":\"command\"}\n{\"ok\":[[0]]}\n",
    },
    Row {
        label: "a session goes on behind a line above the limit",
        head: CRATES_AND_A_LINE,
        part: " ",
        count: 16_777_215,
        tail: "\n{\"do\":\"refresh\"}\n",
        replies: "{\"ok\":null}\n{\"error\":\"too large\",\"what\":\"line\"}\n{\"ok\":[[0]]}\n",
    },
];

fn input_of(alloc: Global, row: &Row) -> Result<String, AllocError> {
    let mut text = String::from_str(alloc, row.head)?;
    for _ in 0..row.count {
        text.push_str(row.part)?;
    }
    text.push_str(row.tail)?;
    Ok(text)
}

fn are_answered(rt: &impl Abort, alloc: Global, rows: &[Row]) -> Result<(), Fail> {
    for row in rows {
        let lines = input_of(alloc, row)?;
        converse(rt, alloc, row.label, lines.as_str(), row.replies)?;
    }
    Ok(())
}

/// A unit has at most a million nodes, variants, fields and use trees, and a session at most ten thousand crates.
#[test]
fn most_nodes_and_crates(rt: HostRuntime) -> Result<(), Fail> {
    are_answered(&rt, rt.alloc(), MOST)
}

#[test]
fn line_above_the_limit_is_skipped(rt: HostRuntime) -> Result<(), Fail> {
    are_answered(&rt, rt.alloc(), LINES)
}
