// Runs the translator over procedure files from standard input, and writes its answer and the whole output for each, in hexadecimal.
// A record is the file's length and the output's length (3 bytes each, the low byte first), and the file. The output of a record is the
// front of one buffer, which keeps what earlier records left there.

#![tactic(auto)]

use case_fields::record::room;
use case_io::input::{read_part, read_whole};
use case_io::print::{bytes, numbered, refusal, say};
use case_io::records::run_records;
use casts::triple;
use std::io;
use std::io::{Read, Write};

fn run_case<W: Write>(writer: &mut W, file: &[u8], out: &mut [u8]) -> io::Result<()> {
    match translator::translate(file, out) {
        // A `usize` as 64 bits: `From` does not have it.
        Ok(n) => numbered(writer, b"written", n as u64)?,
        Err(r) => refusal(writer, r)?,
    }
    say(writer, b"\n")?;
    bytes(writer, out, true)?;
    say(writer, b"\n")
}

// One record; false at the end of the input, or where the output is too short.
fn run_record<R: Read, W: Write>(
    reader: &mut R,
    writer: &mut W,
    outs: &mut [u8],
) -> io::Result<bool> {
    let mut head = [0u8; 6];
    if !read_whole(reader, &mut head)? {
        return Ok(false);
    }
    let size = triple(head[0], head[1], head[2]);
    let wanted = triple(head[3], head[4], head[5]);
    // No heap: arrays, of which the front is lent.
    let mut buffer = [0u8; 65536];
    let got = read_part(reader, &mut buffer, size)?;
    if got < size {
        return Ok(false);
    }
    let lent = room(outs, wanted);
    if lent < wanted {
        return Ok(false);
    }
    run_case(writer, &buffer[..got], &mut outs[..lent])?;
    Ok(true)
}

fn main(rt: HostRuntime) -> io::Result<()> {
    let mut outs = [0u8; 65536];
    run_records(
        &mut rt.stdin(),
        &mut rt.stdout(),
        100000,
        |reader, writer| { run_record(reader, writer, &mut outs) },
    )
}
