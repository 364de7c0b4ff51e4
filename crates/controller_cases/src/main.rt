// Runs the controller over records from standard input, and writes a line for each: what it tells, the first words of the records in use
// where it stopped, and whether the other words are as they should be.
// A record of the input is a head of 17 bytes, the arguments (4 bytes each) and a translated file. The head is a number of words to lend
// less than or beyond 48 a record (one byte, 128 for none), argument count (1 byte), depth (2), budget (8), length of the file (3) and start
// function (2), the low byte first.

#![tactic(auto)]

use case_fields::record::{argument_bytes, arguments};
use case_fields::words::{UNTOUCHED, lent};
use case_io::input::{read_part, read_whole};
use case_io::print::{numbered, say};
use case_io::records::run_records;
use case_io::words::{print_frames, print_refused, print_rest, print_stop};
use casts::{double_word, pair, triple, word};
use controller::machine::{Answer, run};
use parsing::{Refusal, version_of};
use std::io;
use std::io::{Read, Write};

// The line of a record of the input, by the version of its file: of each record in use its first word, the place of its tag.
fn print_answer<W: Write>(
    writer: &mut W,
    a: Answer,
    version: u8,
    words: &[i32],
    depth: usize,
) -> io::Result<()> {
    let verdict = a.verdict;
    match verdict {
        Err(r) => {
            print_refused(writer, r, words)?;
        }
        Ok(()) => {
            let regs = a.regs;
            let stopped = a.stopped;
            let records = print_stop(writer, stopped, version, regs.records)?;
            numbered(writer, b" steps", a.steps)?;
            say(writer, b" records")?;
            print_frames(writer, words, records, 1)?;
            print_rest(writer, words, records, depth)?;
        }
    }
    say(writer, b"\n")
}

fn run_on<W: Write>(
    writer: &mut W,
    given: &[u8],
    file: &[u8],
    start: usize,
    depth: usize,
    budget: u64,
    delta: u8,
) -> io::Result<()> {
    // No heap: arrays, of which the front is lent.
    let mut args = [0i32; 256];
    let n = arguments(given, &mut args);
    let mut space = [UNTOUCHED; 13000];
    let words: &mut [i32] = &mut space;
    let many = lent(words, depth, delta);
    let a = run(file, start, &args[..n], depth, budget, &mut words[..many]);
    print_answer(writer, a, version_of(file), words, depth)
}

// One record; false at the end of the input.
fn run_record<R: Read, W: Write>(reader: &mut R, writer: &mut W) -> io::Result<bool> {
    let mut head = [0u8; 17];
    if !read_whole(reader, &mut head)? {
        return Ok(false);
    }
    let size = argument_bytes(head[1]);
    let mut given = [0u8; 1020];
    let got = read_part(reader, &mut given, size)?;
    if got < size {
        return Ok(false);
    }
    let length = triple(head[12], head[13], head[14]);
    let mut buffer = [0u8; 65536];
    let read = read_part(reader, &mut buffer, length)?;
    if read < length {
        return Ok(false);
    }
    let low = word(head[4], head[5], head[6], head[7]);
    let high = word(head[8], head[9], head[10], head[11]);
    run_on(
        writer,
        &given[..got],
        &buffer[..read],
        pair(head[15], head[16]),
        pair(head[2], head[3]),
        double_word(low, high),
        head[0],
    )?;
    Ok(true)
}

fn main(rt: HostRuntime) -> io::Result<()> {
    run_records(&mut rt.stdin(), &mut rt.stdout(), 100000, run_record)
}
