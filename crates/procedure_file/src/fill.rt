// Filling the table of a file whose layout is whole.
ghost use Rattle.std.specs.Prelude.{◌≡◌, ℕ, ◌+◌, ◌<◌, length, replicate};
ghost use Rattle.procedure_layout.specs.Layout.{max_functions};
ghost use Rattle.procedure_file.specs.Check.{program_of};
ghost use Rattle.procedure_file.specs.Loaded.{Laid};
ghost use Rattle.procedure_file.specs.Asked.{Filled, Given};

use crate::table::{block_past, functions_of};
use procedure_layout::layout;

// The row of function f, which stands at `at`; gives the offset past the function.
fn fill_row(file: &[u8], f: usize, at: usize, starts: &mut [u16]) -> usize
    requires { Filled file.now f at starts.old × (f < length (program_of file.now)) }
    ensures { Filled file.now (f + 1) result starts.new }
{
    let row = 64 * f;
    let entry = at + 3;
    let labels = usize::from(file[at + 2]);
    let before = layout::bytes_before(file);
    starts[row] = entry as u16;
    let mut place = block_past(file, entry);
    for l in 0..labels {
        let start = place + before;
        starts[row + l + 1] = start as u16;
        place = block_past(file, start);
    }
    place
}

// Fills the table, and each function's number of parameters, in one walk over the file; gives the number of functions.
pub fn fill(file: &[u8], starts: &mut [u16], params: &mut [u8]) -> usize
    requires { Laid file.now × (starts.old ≡ replicate {A = ℕ} 2048 0) × (length params.old ≡ max_functions) }
    ensures { Given file.now result starts.new params.new }
{
    let count = functions_of(file);
    let mut at = 6;
    for f in 0..count {
        params[f] = file[at];
        at = fill_row(file, f, at, starts);
    }
    count
}
