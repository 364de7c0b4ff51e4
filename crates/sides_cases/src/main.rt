// Runs the side-by-side call over records from standard input, and writes its answer for each: a line for a refusal; else the translation
// and a line for each machine, and whether the lent memory is as it should be.
// A record is a head of 17 bytes, the arguments (4 bytes each) and a procedure file. The head is start function (2 bytes), argument count
// (1), depth (2), budget (4), words to lend for frames (1), bytes of room (3), words to lend for records (1) and length of the file (3), the
// low byte first. A number of words to lend is less than or beyond 48 a frame of the depth, 128 for none.

#![tactic(auto)]

use agreement::{Sides, side_by_side};
use case_fields::record::{argument_bytes, arguments, room};
use case_fields::words::{UNTOUCHED, all_are, lent};
use case_io::input::{read_part, read_whole};
use case_io::print::{bytes, numbered, refusal, say};
use case_io::records::run_records;
use case_io::words::{print_rest, print_stop};
use casts::{pair, triple, word};
use parsing::{Refusal, version_of};
use std::io;
use std::io::{Read, Write};

// What the bytes of the room hold before a call.
const UNTOUCHED_BYTE: u8 = 7;

// Whether each of these bytes is as it was.
fn untouched(part: &[u8]) -> bool {
    for byte in part {
        if *byte != UNTOUCHED_BYTE {
            return false;
        }
    }
    true
}

// The translation, and `kept` where the room past it is as it was.
fn print_translation<W: Write>(writer: &mut W, out: &[u8], size: usize) -> io::Result<()> {
    let n = room(out, size);
    // A `usize` as 64 bits: `From` does not have it.
    numbered(writer, b"target", size as u64)?;
    say(writer, b" ")?;
    bytes(writer, &out[..n], true)?;
    if untouched(&out[n..]) {
        say(writer, b" kept")?;
    }
    say(writer, b"\n")
}

fn print_bench<W: Write>(
    writer: &mut W,
    b: bench::machine::Answer,
    version: u8,
    frames: &[i32],
    depth: usize,
) -> io::Result<()> {
    say(writer, b"bench ")?;
    let regs = b.regs;
    let stopped = b.stopped;
    let waiting = print_stop(writer, stopped, version, regs.waiting)?;
    numbered(writer, b" steps", b.steps)?;
    numbered(writer, b" extras", b.extras)?;
    print_rest(writer, frames, waiting, depth)?;
    say(writer, b"\n")
}

fn print_controller<W: Write>(
    writer: &mut W,
    c: controller::machine::Answer,
    version: u8,
    records: &[i32],
    depth: usize,
) -> io::Result<()> {
    say(writer, b"controller ")?;
    let regs = c.regs;
    let stopped = c.stopped;
    let used = print_stop(writer, stopped, version, regs.records)?;
    numbered(writer, b" steps", c.steps)?;
    print_rest(writer, records, used, depth)?;
    say(writer, b"\n")
}

// The lines of a record: of a refused call the refusal, and `kept` where all lent memory is as it was.
fn print_answer<W: Write>(
    writer: &mut W,
    a: Sides,
    version: u8,
    depth: usize,
    frames: &[i32],
    out: &[u8],
    records: &[i32],
) -> io::Result<()> {
    let verdict = a.verdict;
    match verdict {
        Err(r) => {
            refusal(writer, r)?;
            if all_are(frames, UNTOUCHED) && untouched(out) && all_are(records, UNTOUCHED) {
                say(writer, b" kept")?;
            }
            say(writer, b"\n")
        }
        Ok(()) => {
            print_translation(writer, out, a.target)?;
            print_bench(writer, a.bench, version, frames, depth)?;
            print_controller(writer, a.controller, version, records, depth)
        }
    }
}

fn run_on<W: Write>(writer: &mut W, head: &[u8; 17], given: &[u8], file: &[u8]) -> io::Result<()> {
    let start = pair(head[0], head[1]);
    let depth = pair(head[3], head[4]);
    let budget = word(head[5], head[6], head[7], head[8]);
    // No heap: arrays, of which the front is lent.
    let mut args = [0i32; 256];
    let n = arguments(given, &mut args);
    let mut frame_words = [UNTOUCHED; 13000];
    let frames: &mut [i32] = &mut frame_words;
    let framed = lent(frames, depth, head[9]);
    let mut out_bytes = [UNTOUCHED_BYTE; 65536];
    let out: &mut [u8] = &mut out_bytes;
    let space = room(out, triple(head[10], head[11], head[12]));
    let mut record_words = [UNTOUCHED; 13000];
    let records: &mut [i32] = &mut record_words;
    let recorded = lent(records, depth, head[13]);
    let a = side_by_side(
        file,
        start,
        &args[..n],
        depth,
        budget,
        &mut frames[..framed],
        &mut out[..space],
        &mut records[..recorded],
    );
    print_answer(writer, a, version_of(file), depth, frames, out, records)
}

// One record; false at the end of the input.
fn run_record<R: Read, W: Write>(reader: &mut R, writer: &mut W) -> io::Result<bool> {
    let mut head = [0u8; 17];
    if !read_whole(reader, &mut head)? {
        return Ok(false);
    }
    let size = argument_bytes(head[2]);
    let mut given = [0u8; 1020];
    let got = read_part(reader, &mut given, size)?;
    if got < size {
        return Ok(false);
    }
    let length = triple(head[14], head[15], head[16]);
    let mut buffer = [0u8; 65536];
    let read = read_part(reader, &mut buffer, length)?;
    if read < length {
        return Ok(false);
    }
    run_on(writer, &head, &given[..got], &buffer[..read])?;
    Ok(true)
}

fn main(rt: HostRuntime) -> io::Result<()> {
    run_records(&mut rt.stdin(), &mut rt.stdout(), 100000, run_record)
}
