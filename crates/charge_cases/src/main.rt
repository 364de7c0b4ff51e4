// Asks for the charge of answers that stand as records on standard input, and writes a line for each.
// A record is whose answer it is (0 the bench's, 1 the controller's), the verdict (0 accepted, 1 refused), how the run stopped (0 value,
// 1 uncaught, 2 spent, 3 deep), steps (8 bytes) and extras (8 bytes, of which a controller's answer says nothing), the low byte first.

#![tactic(auto)]

use case_fields::record::byte_at;
use case_io::input::read_whole;
use case_io::print::{numbered, refusal, say};
use case_io::records::run_records;
use casts::{double_word, word};
use charge::{bench_charge, controller_charge};
use parsing::{Reason, Refusal};
use runs::{End, Stopped};
use std::io;
use std::io::{Read, Write};

// Any refusal of a call.
fn some_refusal() -> Refusal {
    Refusal {
        reason: Reason::StartArity,
        place: 0,
    }
}

// Bytes of the record, as its format has them.
fn verdict_of(b: u8) -> Result<(), Refusal> {
    match b {
        0 => Ok(()),
        _ => Err(some_refusal()),
    }
}

fn stopped_of(b: u8) -> Stopped {
    match b {
        0 => Stopped::Ended(End::Value(5)),
        1 => Stopped::Ended(End::Uncaught(7)),
        2 => Stopped::Spent,
        _ => Stopped::Deep,
    }
}

// A field of eight bytes.
fn count(field: &[u8]) -> u64 {
    let low = word(
        byte_at(field, 0),
        byte_at(field, 1),
        byte_at(field, 2),
        byte_at(field, 3),
    );
    let high = word(
        byte_at(field, 4),
        byte_at(field, 5),
        byte_at(field, 6),
        byte_at(field, 7),
    );
    double_word(low, high)
}

// The charge of a bench's answer, registers and variables being those of a refused call.
fn of_bench(
    verdict: Result<(), Refusal>,
    stopped: Stopped,
    steps: u64,
    extras: u64,
) -> Result<u64, Refusal> {
    let none = bench::machine::refused(some_refusal());
    let regs = none.regs;
    let vars = none.vars;
    bench_charge(bench::machine::Answer {
        verdict,
        stopped,
        steps,
        extras,
        regs,
        vars,
    })
}

// The charge of a controller's answer, registers and slots being those of a refused call.
fn of_controller(
    verdict: Result<(), Refusal>,
    stopped: Stopped,
    steps: u64,
) -> Result<u64, Refusal> {
    let none = controller::machine::refused(some_refusal());
    let regs = none.regs;
    let slots = none.slots;
    controller_charge(controller::machine::Answer {
        verdict,
        stopped,
        steps,
        regs,
        slots,
    })
}

fn print_charge<W: Write>(writer: &mut W, c: Result<u64, Refusal>) -> io::Result<()> {
    match c {
        Ok(n) => numbered(writer, b"cents", n)?,
        Err(r) => refusal(writer, r)?,
    }
    say(writer, b"\n")
}

// One record; false at the end of the input.
fn run_record<R: Read, W: Write>(reader: &mut R, writer: &mut W) -> io::Result<bool> {
    let mut head = [0u8; 19];
    if !read_whole(reader, &mut head)? {
        return Ok(false);
    }
    let verdict = verdict_of(head[1]);
    let stopped = stopped_of(head[2]);
    let steps = count(&head[3..11]);
    let extras = count(&head[11..19]);
    if head[0] == 0 {
        print_charge(writer, of_bench(verdict, stopped, steps, extras))?;
    } else {
        print_charge(writer, of_controller(verdict, stopped, steps))?;
    }
    Ok(true)
}

fn main(rt: HostRuntime) -> io::Result<()> {
    run_records(&mut rt.stdin(), &mut rt.stdout(), 100000, run_record)
}
