// Writes what program `both` prints (document 01) for inputs that stand as records on standard input.
// A record is the length of an input (2 bytes, the low byte first) and that input; one of more than 4,096 bytes ends the run.

#![tactic(auto)]

use case_io::input::{read_part, read_whole};
use case_io::print::say;
use case_io::records::run_records;
use casts::pair;
use report::report;
use std::io;
use std::io::{Read, Write};

// The text of one input.
fn run_case<W: Write>(writer: &mut W, input: &[u8]) -> io::Result<()> {
    // No heap: arrays, of which the front is lent.
    let mut out = [0u8; 256];
    let n = report(input, &mut out);
    say(writer, &out[..n])
}

// One record; false at the end of standard input.
fn run_record<R: Read, W: Write>(reader: &mut R, writer: &mut W) -> io::Result<bool> {
    let mut head = [0u8; 2];
    if !read_whole(reader, &mut head)? {
        return Ok(false);
    }
    let size = pair(head[0], head[1]);
    let mut buffer = [0u8; 4096];
    let got = read_part(reader, &mut buffer, size)?;
    if got < size {
        return Ok(false);
    }
    run_case(writer, &buffer[..got])?;
    Ok(true)
}

fn main(rt: HostRuntime) -> io::Result<()> {
    run_records(&mut rt.stdin(), &mut rt.stdout(), 100000, run_record)
}
