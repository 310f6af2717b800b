//! Readers and writers that fail, and input that ends anywhere.

use crate::streams::{Narrow, Pieces};
use hir_session::{Fault, run};
use std::alloc::{AllocError, Global};
use std::process::Abort;
use std::test::Fail;

#[test]
fn faults_have_texts(rt: HostRuntime) -> Result<(), Fail> {
    for (fault, text) in [
        (Fault::ReadFault, "read fault"),
        (Fault::WriteFault, "write fault"),
    ] {
        let said = format!(in rt.alloc(); "{fault}")?;
        assert!(rt; said.as_str() == text);
    }
    Ok(())
}

/// Each line, and its reply.
const LINES: [(&str, &str); 8] = [
    ("{\"do\":\"refresh\"}", "{\"error\":\"command\"}"),
    ("", "{\"error\":\"json\"}"),
    (
        "{\"do\":\"crates\",\"crates\":[{\"edition\":\"2021\",\"root\":\"lib.rs\"}]}",
        "{\"ok\":null}",
    ),
    ("{\"do\":\"status\",\"at\":[0]}", "{\"ok\":\"stale\"}"),
    ("{\"do\":\"refresh\"}", "{\"ok\":[[0]]}"),
    ("{\"do\":\"status\",\"at\":[0]}", "{\"ok\":\"current\"}"),
    ("{\"do\":\"refresh\"}", "{\"ok\":[]}"),
    ("{\"do\":", "{\"error\":\"json\"}"),
];

/// The first lines, each with its end.
fn input_of(alloc: Global, count: usize) -> Result<Vec<u8>, AllocError> {
    let mut input = Vec::new(alloc);
    for (line, _) in LINES.iter().take(count) {
        input.extend_from_slice(line.as_bytes())?;
        input.push(b'\n')?;
    }
    Ok(input)
}

/// The replies to the first lines, each with its end.
fn output_of(alloc: Global, count: usize) -> Result<Vec<u8>, AllocError> {
    let mut output = Vec::new(alloc);
    for (_, reply) in LINES.iter().take(count) {
        output.extend_from_slice(reply.as_bytes())?;
        output.push(b'\n')?;
    }
    Ok(output)
}

/// How many lines end in the bytes.
fn ends_in(bytes: &[u8]) -> usize {
    bytes.iter().filter(|byte| **byte == b'\n').count()
}

/// How long the first lines are, each with its end.
fn length_of(count: usize) -> usize {
    let mut length = 0usize;
    for (line, _) in LINES.iter().take(count) {
        length = length.saturating_add(line.len()).saturating_add(1);
    }
    length
}

/// The replies to the first lines, and to a line that is no JSON.
fn output_and_no_json(alloc: Global, count: usize) -> Result<Vec<u8>, AllocError> {
    let mut output = output_of(alloc, count)?;
    output.extend_from_slice(b"{\"error\":\"json\"}\n")?;
    Ok(output)
}

/// The replies to a front of the input: the ended lines are answered, and what follows them is no JSON, if it is not the
/// whole next line.
fn replies_to(alloc: Global, front: &[u8]) -> Result<Vec<u8>, AllocError> {
    let ended = ends_in(front);
    let more = ended.saturating_add(1);
    if length_of(ended) == front.len() {
        output_of(alloc, ended)
    } else if length_of(more) == front.len().saturating_add(1) {
        output_of(alloc, more)
    } else {
        output_and_no_json(alloc, ended)
    }
}

/// All lines, the last without its end.
fn whole_input(alloc: Global) -> Result<Vec<u8>, AllocError> {
    let mut input = input_of(alloc, LINES.len())?;
    let _ = input.pop();
    Ok(input)
}

/// Asserts what was written, in a row of two numbers.
fn are_bytes(rt: &impl Abort, found: &[u8], wanted: &[u8], row: (usize, usize)) {
    let (first, second) = row;
    assert!(rt; found == wanted, "{first} {second}");
}

/// Asserts how a session ended, in a row of two numbers.
fn has_ended(
    rt: &impl Abort,
    found: Result<(), Fault>,
    wanted: Result<(), Fault>,
    row: (usize, usize),
) {
    let (first, second) = row;
    assert!(rt; found == wanted, "{first} {second}");
}

/// What is written of the input, read in pieces of one size and written in pieces of another.
fn written_in_pieces(
    alloc: Global,
    input: &[u8],
    read_size: usize,
    write_size: usize,
) -> Result<Vec<u8>, Fail> {
    let mut reader = Pieces {
        left: input,
        size: read_size,
        calls: 0,
        fails_at: 0,
    };
    let mut writer = Narrow {
        taken: Vec::new(alloc),
        size: write_size,
        room: 10_000,
        fails: true,
    };
    run(alloc, &mut reader, &mut writer)?;
    Ok(writer.taken)
}

fn is_answered_in_pieces(
    rt: &impl Abort,
    alloc: Global,
    input: &[u8],
    output: &[u8],
    sizes: (usize, usize),
) -> Result<(), Fail> {
    let written = written_in_pieces(alloc, input, sizes.0, sizes.1)?;
    are_bytes(rt, written.as_slice(), output, sizes);
    Ok(())
}

const SIZES: [(usize, usize); 6] = [(1, 1), (2, 3), (7, 5), (100, 1), (1, 100), (1000, 1000)];

fn are_answered_in_pieces(
    rt: &impl Abort,
    alloc: Global,
    input: &[u8],
    output: &[u8],
) -> Result<(), Fail> {
    for sizes in SIZES {
        is_answered_in_pieces(rt, alloc, input, output, sizes)?;
    }
    Ok(())
}

/// The input in pieces of one size, the output in pieces of another.
#[test]
fn last_line_without_a_newline(rt: HostRuntime) -> Result<(), Fail> {
    let input = whole_input(rt.alloc())?;
    let output = output_of(rt.alloc(), LINES.len())?;
    are_answered_in_pieces(&rt, rt.alloc(), input.as_slice(), output.as_slice())
}

fn written(alloc: Global, front: &[u8]) -> Result<Vec<u8>, Fail> {
    let mut taken = Vec::new(alloc);
    let mut reader = front;
    run(alloc, &mut reader, &mut taken)?;
    Ok(taken)
}

fn is_answered(rt: &impl Abort, alloc: Global, front: &[u8]) -> Result<(), Fail> {
    let output = replies_to(alloc, front)?;
    let taken = written(alloc, front)?;
    are_bytes(rt, taken.as_slice(), output.as_slice(), (front.len(), 0));
    Ok(())
}

fn are_answered(rt: &impl Abort, alloc: Global, input: &[u8]) -> Result<(), Fail> {
    for cut in 0..input.len() {
        is_answered(rt, alloc, &input[..cut])?;
    }
    Ok(())
}

/// After each prefix of the input: the ended lines are answered, and what follows them is no JSON.
#[test]
fn line_cut_at_each_byte(rt: HostRuntime) -> Result<(), Fail> {
    let input = whole_input(rt.alloc())?;
    are_answered(&rt, rt.alloc(), input.as_slice())
}

/// What was written of an input is what its front is answered by.
fn answers_front(
    rt: &impl Abort,
    alloc: Global,
    taken: &[u8],
    front: &[u8],
    row: (usize, usize),
) -> Result<(), Fail> {
    let output = output_of(alloc, ends_in(front))?;
    are_bytes(rt, taken, output.as_slice(), row);
    Ok(())
}

/// One read fails, after so many bytes were given, or the input ends before.
fn read_fails(
    rt: &impl Abort,
    alloc: Global,
    input: &[u8],
    row: (usize, usize),
    given: usize,
) -> Result<(), Fail> {
    let (size, call) = row;
    let mut reader = Pieces {
        left: input,
        size,
        calls: 0,
        fails_at: call,
    };
    let mut taken = Vec::new(alloc);
    let ended = run(alloc, &mut reader, &mut taken);
    if reader.calls == call {
        has_ended(rt, ended, Err(Fault::ReadFault), row);
        let front = input.len().min(given);
        answers_front(rt, alloc, taken.as_slice(), &input[..front], row)
    } else {
        has_ended(rt, ended, Ok(()), row);
        assert!(rt; input.len() <= given, "{size} {call}");
        Ok(())
    }
}

fn each_fails(rt: &impl Abort, alloc: Global, input: &[u8], size: usize) -> Result<(), Fail> {
    let mut given = 0;
    for call in 1..400 {
        read_fails(rt, alloc, input, (size, call), given)?;
        given = size.saturating_add(given);
    }
    Ok(())
}

/// The lines that had ended are answered, and the one that had not is not.
#[test]
fn each_read_fails_in_turn(rt: HostRuntime) -> Result<(), Fail> {
    let input = whole_input(rt.alloc())?;
    each_fails(&rt, rt.alloc(), input.as_slice(), 1)?;
    each_fails(&rt, rt.alloc(), input.as_slice(), 3)?;
    each_fails(&rt, rt.alloc(), input.as_slice(), 50)
}

/// The writer takes so many bytes, in pieces of a size, and then nothing, or fails.
fn writer_stops(
    rt: &impl Abort,
    alloc: Global,
    input: &[u8],
    front: &[u8],
    size: usize,
    fails: bool,
) {
    let row = (size, front.len());
    let mut writer = Narrow {
        taken: Vec::new(alloc),
        size,
        room: front.len(),
        fails,
    };
    let mut reader = input;
    let ended = run(alloc, &mut reader, &mut writer);
    has_ended(rt, ended, Err(Fault::WriteFault), row);
    are_bytes(rt, writer.taken.as_slice(), front, row);
}

fn writers_stop(
    rt: &impl Abort,
    alloc: Global,
    input: &[u8],
    output: &[u8],
    size: usize,
    fails: bool,
) {
    for room in 0..output.len() {
        writer_stops(rt, alloc, input, &output[..room], size, fails);
    }
}

const WRITERS: [(usize, bool); 4] = [(1, false), (1, true), (3, false), (1000, true)];

/// A front of the replies was written, by a writer that takes nothing more or fails.
#[test]
fn writer_stops_after_k_bytes(rt: HostRuntime) -> Result<(), Fail> {
    let input = whole_input(rt.alloc())?;
    let output = output_of(rt.alloc(), LINES.len())?;
    for (size, fails) in WRITERS {
        writers_stop(
            &rt,
            rt.alloc(),
            input.as_slice(),
            output.as_slice(),
            size,
            fails,
        );
    }
    Ok(())
}
