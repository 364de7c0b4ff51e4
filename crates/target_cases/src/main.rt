// Runs the checker of translated files over files from standard input, and writes a line for each.
// A record is the file's length (3 bytes, the low byte first) and the file.

#![tactic(auto)]

use case_io::input::{read_part, read_whole};
use case_io::print::{say, verdict};
use case_io::records::run_records;
use casts::triple;
use std::io;
use std::io::{Read, Write};

// One record; false at the end of the input.
fn run_record<R: Read, W: Write>(reader: &mut R, writer: &mut W) -> io::Result<bool> {
    let mut head = [0u8; 3];
    if !read_whole(reader, &mut head)? {
        return Ok(false);
    }
    let size = triple(head[0], head[1], head[2]);
    // No heap: arrays, of which the front is lent.
    let mut buffer = [0u8; 131072];
    let got = read_part(reader, &mut buffer, size)?;
    if got < size {
        return Ok(false);
    }
    verdict(writer, target_file::check::check(&buffer[..got]))?;
    say(writer, b"\n")?;
    Ok(true)
}

fn main(rt: HostRuntime) -> io::Result<()> {
    run_records(&mut rt.stdin(), &mut rt.stdout(), 10000, run_record)
}
