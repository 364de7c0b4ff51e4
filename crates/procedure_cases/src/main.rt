// Runs the checker and the lookup of blocks over files from standard input, and writes a line for each.
// A record is a kind (0 check, 1 lookup), a function number, a label, the file's length (3 bytes, the low byte first), and the file.

#![tactic(auto)]

use case_io::input::{read_part, read_whole};
use case_io::print::{bytes, say, verdict};
use case_io::records::run_records;
use casts::triple;
use std::io;
use std::io::{Read, Write};

fn print_case<W: Write>(writer: &mut W, file: &[u8], kind: u8, f: u8, label: u8) -> io::Result<()> {
    if kind == 0 {
        verdict(writer, procedure_file::check::check(file))?;
    } else {
        verdict(writer, procedure_lookup::block_refusal(file, f, label))?;
        bytes(writer, procedure_lookup::block(file, f, label), false)?;
    }
    say(writer, b"\n")
}

// One record; false at the end of the input.
fn run_record<R: Read, W: Write>(reader: &mut R, writer: &mut W) -> io::Result<bool> {
    let mut head = [0u8; 6];
    if !read_whole(reader, &mut head)? {
        return Ok(false);
    }
    let size = triple(head[3], head[4], head[5]);
    // No heap: arrays, of which the front is lent.
    let mut buffer = [0u8; 65536];
    let got = read_part(reader, &mut buffer, size)?;
    if got < size {
        return Ok(false);
    }
    print_case(writer, &buffer[..got], head[0], head[1], head[2])?;
    Ok(true)
}

fn main(rt: HostRuntime) -> io::Result<()> {
    run_records(&mut rt.stdin(), &mut rt.stdout(), 100000, run_record)
}
