// A call: it makes a frame.
ghost use Rattle.std.specs.Prelude.{◌≡◌, map, ◌+◌, ◌<◌, pos, length, get_or};
ghost use Rattle.memory.specs.Lay.{lay};
ghost use Rattle.procedure_layout.specs.Layout.{max_variables, arguments_at};
ghost use Rattle.procedure_operations.specs.Operation.{operation_at};
ghost use Rattle.procedure_file.specs.Check.{program_of};
ghost use Rattle.bench_frames.specs.Machine.{vars_of, Standing};
ghost use Rattle.bench_frames.specs.Steps.{StepResult, ArgumentsInBounds};

use crate::registers::{Regs, Step};
use memory::{FRAME_SIZE, Head, clear, push};
use procedure_fields::fields::argument_at;
use procedure_file::loaded::LoadedFile;
use procedure_file::table::TabledFile;
use procedure_operations::numbers::{FunctionNumber, VariableNumber};
use procedure_operations::operation::Operation;

// How many variables function f has.
fn variables(file: &TabledFile, f: usize) -> usize
    requires f_in_bounds { f < length (program_of file.now) }
    ensures { result ≡ vars_of file.now f }
{
    usize::from(file.params_of(f)) + usize::from(file.locals_of(f))
}

// The values of the k arguments of the call at an offset, read from the words at base.
fn arguments(file: &[u8], at: usize, k: usize, words: &[i32], base: usize, vars: &mut [i32])
    requires arguments_in_bounds { ArgumentsInBounds file.now at k words.now base }
    requires vars_len { length vars.old ≡ max_variables }
    ensures { vars.new ≡ lay 0 (map (λ y. get_or words.now (base + y) (pos 0)) (arguments_at file.now at k)) vars.old }
{
    for i in 0..k {
        let y = argument_at(file, at, i).index();
        vars[i] = words[base + y];
    }
}

// 4 call
pub fn call_step(
    file: &LoadedFile,
    limit: usize,
    r: Regs,
    vars: &mut [i32; 32],
    words: &mut [i32],
    target: VariableNumber,
    function: FunctionNumber,
    count: u8,
    next: usize,
) -> Step
    requires standing { Standing file.now limit r vars.old words.old }
    requires at_value { operation_at file.now r.at ≡ Operation.Call target.0 function.0 count next }
    requires extras_bound { r.extras < 9223372036854775808 }
    ensures { StepResult file.now limit r vars.old words.old result vars.new words.new }
{
    let table = file.table();
    let d = r.waiting;
    if limit <= d {
        return Step::Deep;
    }
    let f = r.function;
    let g = function.index();
    let x = target.index();
    let n = variables(table, f);
    let k = usize::from(count);
    let locals = table.locals_of(g);
    let at = table.start_of(g, 0);
    push(
        words,
        FRAME_SIZE,
        d,
        Head {
            word0: f,
            word1: r.handler,
            word2: next,
            word3: x,
        },
        vars,
        n,
    );
    arguments(table.bytes(), r.at, k, words, FRAME_SIZE * d + 4, vars);
    clear(vars, k, k + usize::from(locals));
    Step::Next(Regs {
        function: g,
        handler: 0,
        at,
        waiting: d + 1,
        extras: r.extras + 1 + u64::from(locals),
    })
}
