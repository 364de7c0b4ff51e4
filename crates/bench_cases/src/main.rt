// Runs the bench over records from standard input, and writes a line for each: what it tells, the first words of the waiting frames,
// and whether the other words are as they should be.
// A record is a head of 4 bytes and the input of `both`: argument count, arguments, depth, budget, file. The head is a number of words to
// lend less than or beyond 48 a frame (one byte, 128 for none), the length of the input (2 bytes, the low byte first) and the start function
// (1 byte).

#![tactic(auto)]

use bench::machine::{Answer, run};
use case_fields::record::{argument_bytes, arguments, byte_at};
use case_fields::words::{UNTOUCHED, lent};
use case_io::input::{read_part, read_whole};
use case_io::print::{numbered, say};
use case_io::records::run_records;
use case_io::words::{print_frames, print_refused, print_rest, print_stop};
use casts::{pair, word};
use parsing::{Refusal, version_of};
use std::io;
use std::io::{Read, Write};

// The line of a record, by the version of its file: of each waiting frame its four numbers.
fn print_answer<W: Write>(
    writer: &mut W,
    a: Answer,
    version: u8,
    words: &[i32],
    depth: usize,
) -> io::Result<()> {
    let verdict = a.verdict;
    match verdict {
        Err(r) => {
            print_refused(writer, r, words)?;
        }
        Ok(()) => {
            let regs = a.regs;
            let stopped = a.stopped;
            let waiting = print_stop(writer, stopped, version, regs.waiting)?;
            numbered(writer, b" steps", a.steps)?;
            numbered(writer, b" extras", a.extras)?;
            say(writer, b" frames")?;
            print_frames(writer, words, waiting, 4)?;
            print_rest(writer, words, waiting, depth)?;
        }
    }
    say(writer, b"\n")
}

fn run_on<W: Write>(
    writer: &mut W,
    given: &[u8],
    file: &[u8],
    start: usize,
    depth: usize,
    budget: u32,
    delta: u8,
) -> io::Result<()> {
    // No heap: arrays, of which the front is lent.
    let mut args = [0i32; 256];
    let n = arguments(given, &mut args);
    let mut space = [UNTOUCHED; 13000];
    let words: &mut [i32] = &mut space;
    let many = lent(words, depth, delta);
    let a = run(file, start, &args[..n], depth, budget, &mut words[..many]);
    print_answer(writer, a, version_of(file), words, depth)
}

// The input of a record.
fn run_case<W: Write>(writer: &mut W, input: &[u8], start: usize, delta: u8) -> io::Result<()> {
    if input.len() < 1 {
        return Ok(());
    }
    let at = argument_bytes(byte_at(input, 0)) + 1;
    let past = at + 6;
    if input.len() < past {
        return say(writer, b"no header\n");
    }
    let depth = pair(byte_at(input, at), byte_at(input, at + 1));
    let budget = word(
        byte_at(input, at + 2),
        byte_at(input, at + 3),
        byte_at(input, at + 4),
        byte_at(input, at + 5),
    );
    run_on(
        writer,
        &input[1..at],
        &input[past..],
        start,
        depth,
        budget,
        delta,
    )
}

// One record; false at the end of the input.
fn run_record<R: Read, W: Write>(reader: &mut R, writer: &mut W) -> io::Result<bool> {
    let mut head = [0u8; 4];
    if !read_whole(reader, &mut head)? {
        return Ok(false);
    }
    let size = pair(head[1], head[2]);
    let mut buffer = [0u8; 65536];
    let got = read_part(reader, &mut buffer, size)?;
    if got < size {
        return Ok(false);
    }
    run_case(writer, &buffer[..got], usize::from(head[3]), head[0])?;
    Ok(true)
}

fn main(rt: HostRuntime) -> io::Result<()> {
    run_records(&mut rt.stdin(), &mut rt.stdout(), 100000, run_record)
}
