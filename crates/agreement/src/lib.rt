// The side-by-side call: a procedure is translated, and run on both machines.

#![tactic(auto)]

ghost use Rattle.std.specs.Prelude.{◌≡◌, length};
ghost use Rattle.parsing.specs.Parser.{verdict_of};
ghost use Rattle.runs.specs.Tells.{RefusedBy};
ghost use Rattle.translator.specs.Translated.{translation_of};
ghost use Rattle.agreement.specs.Statement.{entry_of};
ghost use Rattle.agreement.specs.Sides.{call_verdict, sides_verdict, meaning, sides_tell, SidesMemory, refused_sides, CallFits, MachinesRan};

use memory::{FRAME_SIZE, arguments_checked, start_checked, words_checked};
use parsing::{Refusal, or_else};
use procedure_file::check::load;
use procedure_file::loaded::LoadedFile;
use runs::one_more_if_deep;
use target_file::loaded::LoadedCode;
use target_file::table::table_of;
use translator::parts::{entry_number, put_file};
use translator::{room_checked, translation_size};
use translator_sizes::slots_used;

// The answer of the call: the verdict on it; where it is accepted the bytes of the translation and the answers of both machines.
// The verdict stands beside the values, and not a Result: a refused call promises them too (`refused_sides`).
#[derive(Drop)]
pub struct Sides {
    pub verdict: Result<(), Refusal>,
    pub target: usize,
    pub bench: bench::machine::Answer,
    pub controller: controller::machine::Answer,
}

// What a call on an accepted file is refused for: 9 of the start function, 14, 17, then 16.
fn call_judged(
    start: usize,
    functions: usize,
    given: usize,
    wanted: usize,
    size: usize,
    room: usize,
    depth: usize,
    frames: usize,
    records: usize,
) -> Result<(), Refusal>
    ensures { verdict_of result ≡ call_verdict start functions given wanted size room depth frames records }
{
    let words = or_else(
        words_checked(FRAME_SIZE, depth, frames),
        words_checked(FRAME_SIZE, depth, records),
    );
    let memory = or_else(room_checked(size, room), words);
    let rest = or_else(arguments_checked(given, wanted), memory);
    or_else(start_checked(start, functions), rest)
}

// Both runs from function f, the translation made, in which f's entry has number g: the controller gets bench steps plus extras, one more
// where the bench stopped deep.
fn run_both(
    file: &LoadedFile,
    f: usize,
    target: &[u8],
    g: usize,
    arguments: &[i32],
    depth: usize,
    budget: u32,
    frames: &mut [i32],
    records: &mut [i32],
) -> Sides
    requires call_fits { CallFits file.now f arguments.now depth frames.old records.old }
    requires target_value { (target.now ≡ translation_of file.now) × (g ≡ entry_of file.now f) }
    ensures { MachinesRan file.now f arguments.now depth budget result frames.old frames.new records.old records.new }
{
    let b = bench::machine::run_loaded(file, f, arguments, depth, u64::from(budget), frames);
    let more = one_more_if_deep(b.stopped);
    let taken = b.steps;
    let counted = taken + b.extras;
    let steps = counted + more;
    let bodies = table_of(target);
    let kept = slots_used(file);
    let code = LoadedCode::new(target, &bodies);
    let c = controller::machine::run_loaded(&code, kept, g, arguments, depth, steps, records);
    Sides {
        verdict: Ok(()),
        target: target.len(),
        bench: b,
        controller: c,
    }
}

// The answer of a call that is refused: nothing was translated or run.
fn refused(r: Refusal) -> Sides
    ensures { result ≡ refused_sides r }
{
    Sides {
        verdict: Err(r),
        target: 0,
        bench: bench::machine::refused(r),
        controller: controller::machine::refused(r),
    }
}

// The call on a loaded file, from function f.
pub fn sides_loaded(
    file: &LoadedFile,
    f: usize,
    arguments: &[i32],
    depth: usize,
    budget: u32,
    frames: &mut [i32],
    room: &mut [u8],
    records: &mut [i32],
) -> Sides
    ensures tells { meaning result ≡ sides_tell file.now f arguments.now depth budget (length frames.old) (length room.old) (length records.old) }
    ensures memory { SidesMemory file.now f arguments.now depth budget result (record { frames = frames.old; room = room.old; records = records.old }) (record { frames = frames.new; room = room.new; records = records.new }) }
    ensures answer { RefusedBy refused_sides (sides_verdict file.now f (length arguments.now) depth (length frames.old) (length room.old) (length records.old)) result }
{
    let table = file.table();
    let functions = table.functions();
    let wanted = table.wanted_of(f);
    let size = translation_size(file);
    let judged = call_judged(
        f,
        functions,
        arguments.len(),
        wanted,
        size,
        room.len(),
        depth,
        frames.len(),
        records.len(),
    );
    if let Err(r) = judged {
        return refused(r);
    }
    let g = entry_number(table, f);
    put_file(file, room);
    // The room is the caller's, and no heap: its front is the translation.
    run_both(
        file,
        f,
        &room[..size],
        g,
        arguments,
        depth,
        budget,
        frames,
        records,
    )
}

// Translates a procedure file into the room lent, runs it on the bench from function f, and runs the translation on the controller from
// f's entry with bench steps plus extras, one more where the bench stopped deep. Each machine is lent 48 words for each frame of the
// depth limit.
pub fn side_by_side(
    file: &[u8],
    f: usize,
    arguments: &[i32],
    depth: usize,
    budget: u32,
    frames: &mut [i32],
    room: &mut [u8],
    records: &mut [i32],
) -> Sides
    ensures tells { meaning result ≡ sides_tell file.now f arguments.now depth budget (length frames.old) (length room.old) (length records.old) }
    ensures memory { SidesMemory file.now f arguments.now depth budget result (record { frames = frames.old; room = room.old; records = records.old }) (record { frames = frames.new; room = room.new; records = records.new }) }
    ensures answer { RefusedBy refused_sides (sides_verdict file.now f (length arguments.now) depth (length frames.old) (length room.old) (length records.old)) result }
{
    let mut starts = [0u16; 2048];
    if let Err(r) = load(file, &mut starts) {
        return refused(r);
    }
    let loaded = LoadedFile::new(file, &starts);
    sides_loaded(&loaded, f, arguments, depth, budget, frames, room, records)
}
