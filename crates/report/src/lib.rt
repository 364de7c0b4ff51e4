// What program `both` prints for an input.

#![tactic(auto)]

ghost use Rattle.std.specs.Prelude.{◌≡◌, ◌+◌, ◌*◌, ◌≤◌, ◌<◌, length, take};
ghost use Rattle.parsing.specs.Refusals.{number_of};
ghost use Rattle.text.specs.Text.{refused_text};
ghost use Rattle.decimal.specs.WroteText.{WroteText};
ghost use Rattle.agreement.specs.Sides.{meaning};
ghost use Rattle.report.specs.Report.{argument_at, arguments_of, sides_text, loaded_text, file_text, text_of};

use agreement::{Sides, sides_loaded};
use casts::{pair, word};
use file_head::head_end;
use memory::{FRAME_SIZE, MAX_DEPTH};
use parsing::{Refusal, version_of};
use procedure_file::check::load;
use procedure_file::loaded::LoadedFile;
use text::{write_both, write_no_header, write_refused};
use translator::{room_checked, translation_size};

// Argument i of the input.
fn argument(input: &[u8], i: usize) -> i32
    requires { 4 * i + 4 < length input.now }
    ensures { result ≡ argument_at input.now i }
{
    let at = 4 * i;
    parsing::value(input[at + 1], input[at + 2], input[at + 3], input[at + 4])
}

// The first n arguments of the input.
fn fill(input: &[u8], n: usize, arguments: &mut [i32])
    requires { (n ≤ length arguments.old) × (4 * n < length input.now) }
    ensures { take n arguments.new ≡ arguments_of input.now n }
{
    for i in 0..n {
        arguments[i] = argument(input, i);
    }
}

// "A refusal prints only `refused`, number, `at`, place."
fn write_refusal(out: &mut [u8], r: Refusal) -> usize
    requires { 256 ≤ length out.old }
    ensures { WroteText 0 (refused_text (number_of r.reason) r.place) out.old result out.new }
{
    // A `usize` as 64 bits: `From` does not have it.
    write_refused(out, u64::from(r.reason.number()), r.place as u64)
}

// The three lines of both runs on a file of a version, or the refusal.
fn write_sides(out: &mut [u8], version: u8, a: Sides) -> usize
    requires { 256 ≤ length out.old }
    ensures { WroteText 0 (sides_text version (meaning a)) out.old result out.new }
{
    let verdict = a.verdict;
    match verdict {
        Err(r) => write_refusal(out, r),
        Ok(()) => {
            let b = a.bench;
            let c = a.controller;
            let bench_stop = b.stopped;
            let controller_stop = c.stopped;
            write_both(
                out,
                version,
                // As above.
                a.target as u64,
                bench_stop,
                b.steps,
                controller_stop,
                c.steps,
            )
        }
    }
}

// A loaded file: translated into 8,192 bytes, and run from main with 48 words lent for each of 256 frames.
fn write_loaded(
    out: &mut [u8],
    file: &LoadedFile,
    arguments: &[i32],
    depth: usize,
    budget: u32,
) -> usize
    requires in_bounds { 256 ≤ length out.old }
    ensures { WroteText 0 (loaded_text file.now arguments.now depth budget) out.old result out.new }
{
    if let Err(r) = room_checked(translation_size(file), 8192) {
        return write_refusal(out, r);
    }
    let mut room = [0u8; 8192];
    let mut frames = [0i32; FRAME_SIZE * MAX_DEPTH];
    let mut records = [0i32; FRAME_SIZE * MAX_DEPTH];
    let a = sides_loaded(
        file,
        0,
        arguments,
        depth,
        budget,
        &mut frames,
        &mut room,
        &mut records,
    );
    write_sides(out, version_of(file.bytes()), a)
}

// A file: its head by the limit of 2,048 bytes, and checked once.
fn write_file(out: &mut [u8], file: &[u8], arguments: &[i32], depth: usize, budget: u32) -> usize
    requires { 256 ≤ length out.old }
    ensures { WroteText 0 (file_text file.now arguments.now depth budget) out.old result out.new }
{
    if let Err(r) = head_end(file, b"SPF", 2048) {
        return write_refusal(out, r);
    }
    let mut starts = [0u16; 2048];
    if let Err(r) = load(file, &mut starts) {
        return write_refusal(out, r);
    }
    let loaded = LoadedFile::new(file, &starts);
    write_loaded(out, &loaded, arguments, depth, budget)
}

// The text of `both` for an input, written to the front of `out`; the answer is its length.
pub fn report(input: &[u8], out: &mut [u8; 256]) -> usize
    ensures text { WroteText 0 (text_of input.now) out.old result out.new }
    ensures within { result ≤ length out.new }
{
    if input.len() < 1 {
        return write_no_header(out);
    }
    let n = usize::from(input[0]);
    let header = 4 * n + 7;
    if input.len() < header {
        return write_no_header(out);
    }
    let at = 4 * n + 1;
    let depth = pair(input[at], input[at + 1]);
    let from = 4 * n + 3;
    let budget = word(
        input[from],
        input[from + 1],
        input[from + 2],
        input[from + 3],
    );
    // No heap: an array, of which the front is lent.
    let mut arguments = [0i32; 256];
    fill(input, n, &mut arguments);
    write_file(out, &input[header..], &arguments[..n], depth, budget)
}
