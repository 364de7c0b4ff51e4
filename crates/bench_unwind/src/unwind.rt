// Return and raise: what leaves frames.
ghost use Rattle.std.specs.Prelude.{◌≡◌, ◌<◌, ◌≤◌, length};
ghost use Rattle.semantics.specs.WellFormed.{IsLabel};
ghost use Rattle.semantics.specs.Matching.{newest_guarded};
ghost use Rattle.procedure_operations.specs.Operation.{operation_at};
ghost use Rattle.procedure_file.specs.FileInvariant.{FileInvariant};
ghost use Rattle.procedure_file.specs.Check.{program_of};
ghost use Rattle.bench_frames.specs.Machine.{function_at, start_regs, frames_of, Standing};
ghost use Rattle.bench_frames.specs.Steps.{StepResult};
ghost use Rattle.parsing.specs.Fields.{version_of};
ghost use Rattle.procedure_file.specs.Places.{receiver_of};
ghost use Rattle.bench_unwind.specs.Guarded.{newest_guarded_in, FramesFit};
ghost use Rattle.bench_unwind.specs.Raises.{leaving, Receives, Leaves, Raises};

use bench_frames::registers::{Regs, Step};
use memory::{FRAME_SIZE, copy, head_at};
use parsing::version_of;
use procedure_file::loaded::LoadedFile;
use procedure_file::table::TabledFile;
use procedure_layout::layout::MAX_VARIABLES;
use procedure_operations::numbers::VariableNumber;
use procedure_operations::operation::Operation;
use runs::End;

// The start of the block with label l, which is not 0, of function f.
pub fn entered(file: &TabledFile, f: usize, l: usize, waiting: usize, extras: u64) -> Regs
    requires f_in_bounds { (f < length (program_of file.now)) × IsLabel (length (function_at file.now f).blocks) l }
    ensures { result ≡ start_regs file.now f l waiting extras }
{
    let handler = usize::from(file.handler_of(f, l));
    let at = file.start_of(f, l);
    Regs {
        function: f,
        handler,
        at,
        waiting,
        extras,
    }
}

// 6 return. A frame has room for 32 variables, and all are copied: behind those of its function nothing is promised.
pub fn return_step(
    file: &[u8],
    limit: usize,
    r: Regs,
    vars: &mut [i32; 32],
    words: &[i32],
    variable: VariableNumber,
    next: usize,
) -> Step
    requires file_invariant { FileInvariant file.now }
    requires standing { Standing file.now limit r vars.old words.now }
    requires at_value { operation_at file.now r.at ≡ Operation.Return variable.0 next }
    ensures { StepResult file.now limit r vars.old words.now result vars.new words.now }
{
    let v = vars[variable.index()];
    if r.waiting == 0 {
        return Step::Ended {
            end: End::Value(v),
            extras: r.extras,
        };
    }
    let d = r.waiting - 1;
    let h = head_at(words, FRAME_SIZE, d);
    copy(words, FRAME_SIZE * d + 4, vars, 0, MAX_VARIABLES);
    vars[h.word3] = v;
    Step::Next(Regs {
        function: h.word0,
        handler: h.word1,
        at: h.word2,
        waiting: d,
        extras: r.extras,
    })
}

// Of the waiting frames of so many words the newest with a handler, by its count from the oldest; 0 where there is none.
pub fn guarded(words: &[i32], size: usize, waiting: usize) -> usize
    requires { FramesFit size words.now waiting }
    ensures { result ≡ newest_guarded_in size words.now waiting }
{
    for d in (0..waiting).rev() {
        let h = head_at(words, size, d);
        if h.word1 != 0 {
            return d + 1;
        }
    }
    0
}

// The receiver, if any, of the block with label l of function f is set to the number raised; the answer is how many are set, 1 or 0.
fn receive(file: &LoadedFile, f: usize, l: usize, vars: &mut [i32; 32], number: i32) -> u64
    requires f_in_bounds { (f < length (program_of file.now)) × IsLabel (length (function_at file.now f).blocks) l }
    ensures { Receives (receiver_of (function_at file.now f) l) number vars.old vars.new result }
{
    let x = usize::from(file.table().receiver_of(f, l));
    if x == 255 {
        return 0;
    }
    vars[x] = number;
    1
}

// What a raise that leaves its function binds on the controller: 1 for a 0 in version 2.
fn leaving(file: &[u8], zero: bool) -> u64
    ensures { result ≡ leaving (version_of file.now) zero }
{
    if zero && version_of(file) == 2 { 1 } else { 0 }
}

// A step that raises, to the handler of the newest frame that has one, the k-th oldest.
fn caught_step(
    file: &LoadedFile,
    limit: usize,
    r: Regs,
    vars: &mut [i32; 32],
    words: &[i32],
    extras: u64,
    number: i32,
    k: usize,
) -> Step
    requires standing { Standing file.now limit r vars.old words.now }
    requires leaves { Leaves file.now limit r vars.old words.now extras number }
    requires extras_bound { extras ≤ 9223372036854775809 }
    requires k_value { (k ≡ newest_guarded (frames_of file.now words.now r.waiting)) × (0 < k) }
    ensures { StepResult file.now limit r vars.old words.now result vars.new words.now }
{
    let table = file.table();
    let d = k - 1;
    let h = head_at(words, FRAME_SIZE, d);
    copy(words, FRAME_SIZE * d + 4, vars, 0, MAX_VARIABLES);
    receive(file, h.word0, h.word1, vars, number);
    Step::Next(entered(table, h.word0, h.word1, d, extras + 1))
}

// A step that raises a number, with the extras counted before the raise's own; `zero` says whether it is operation 8 or a difference out of range.
pub fn raise_step(
    file: &LoadedFile,
    limit: usize,
    r: Regs,
    vars: &mut [i32; 32],
    words: &[i32],
    extras: u64,
    number: i32,
    zero: bool,
) -> Step
    requires standing { Standing file.now limit r vars.old words.now }
    requires raises { Raises file.now limit r vars.old words.now extras number zero }
    requires extras_bound { extras ≤ 9223372036854775808 }
    ensures { StepResult file.now limit r vars.old words.now result vars.new words.now }
{
    let table = file.table();
    let h = r.handler;
    if h != 0 {
        let more = extras + receive(file, r.function, h, vars, number);
        return Step::Next(entered(table, r.function, h, r.waiting, more));
    }
    let more = extras + leaving(table.bytes(), zero);
    let k = guarded(words, FRAME_SIZE, r.waiting);
    if k == 0 {
        return Step::Ended {
            end: End::Uncaught(number),
            extras: more,
        };
    }
    caught_step(file, limit, r, vars, words, more, number, k)
}
