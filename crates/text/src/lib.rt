// The lines that program `both` prints, written into lent bytes.

#![tactic(auto)]

ghost use Rattle.std.specs.Prelude.{◌+◌, ◌≤◌, length};
ghost use Rattle.decimal.specs.WroteText.{WroteText};
ghost use Rattle.runs.specs.Stopped.{end_as, stopped_as};
ghost use Rattle.text.specs.Text.{raised_text, end_text, stop_text, machine_line, target_line, both_text, refused_text, no_header_text};

use decimal::{put_bytes, put_numbered, put_signed};
use runs::{End, Stopped};

// The number raised, which is told of a version 2 file.
fn put_raised(out: &mut [u8], at: usize, version: u8, number: i32) -> usize
    requires { at + 22 ≤ length out.old }
    ensures { WroteText at (raised_text version number) out.old result out.new }
{
    if version == 2 {
        let next = put_bytes(out, at, b" ");
        return put_signed(out, next, number);
    }
    at
}

// How a run ended.
fn put_end(out: &mut [u8], at: usize, version: u8, e: End) -> usize
    requires { at + 30 ≤ length out.old }
    ensures { WroteText at (end_text version (end_as e)) out.old result out.new }
{
    match e {
        End::Value(v) => {
            let next = put_bytes(out, at, b"value ");
            put_signed(out, next, v)
        }
        End::Uncaught(n) => {
            let next = put_bytes(out, at, b"uncaught");
            put_raised(out, next, version, n)
        }
    }
}

// How a run stopped.
fn put_stopped(out: &mut [u8], at: usize, version: u8, s: Stopped) -> usize
    requires { at + 30 ≤ length out.old }
    ensures { WroteText at (stop_text version (stopped_as s)) out.old result out.new }
{
    match s {
        Stopped::Ended(e) => put_end(out, at, version, e),
        Stopped::Spent => put_bytes(out, at, b"spent"),
        Stopped::Deep => put_bytes(out, at, b"deep"),
    }
}

// A machine's end and steps.
fn put_machine(out: &mut [u8], at: usize, name: &[u8], version: u8, e: Stopped, steps: u64) -> usize
    requires { at + length name.now + 59 ≤ length out.old }
    ensures { WroteText at (machine_line version name.now (stopped_as e) steps) out.old result out.new }
{
    let named = put_bytes(out, at, name);
    let spaced = put_bytes(out, named, b" ");
    let told = put_stopped(out, spaced, version, e);
    let counted = put_numbered(out, told, b" steps ", steps);
    put_bytes(out, counted, b"\n")
}

// The count of the translation's bytes.
fn put_target(out: &mut [u8], at: usize, n: u64) -> usize
    requires { at + 28 ≤ length out.old }
    ensures { WroteText at (target_line n) out.old result out.new }
{
    let next = put_numbered(out, at, b"target ", n);
    put_bytes(out, next, b"\n")
}

// The three lines of a run of both machines, on a file of a version.
pub fn write_both(
    out: &mut [u8],
    version: u8,
    target: u64,
    b: Stopped,
    bsteps: u64,
    c: Stopped,
    csteps: u64,
) -> usize
    requires { 256 ≤ length out.old }
    ensures { WroteText 0 (both_text version target (stopped_as b) bsteps (stopped_as c) csteps) out.old result out.new }
{
    let first = put_target(out, 0, target);
    let second = put_machine(out, first, b"bench", version, b, bsteps);
    put_machine(out, second, b"controller", version, c, csteps)
}

// The line of a refusal.
pub fn write_refused(out: &mut [u8], number: u64, place: u64) -> usize
    requires { 256 ≤ length out.old }
    ensures { WroteText 0 (refused_text number place) out.old result out.new }
{
    let first = put_numbered(out, 0, b"refused ", number);
    let second = put_numbered(out, first, b" at ", place);
    put_bytes(out, second, b"\n")
}

// The line of an input that ends inside its first four fields.
pub fn write_no_header(out: &mut [u8]) -> usize
    requires { 256 ≤ length out.old }
    ensures { WroteText 0 no_header_text out.old result out.new }
{
    put_bytes(out, 0, b"no header\n")
}
