// The checker of procedure files, and loading.
ghost use Rattle.std.specs.Prelude.{◌≡◌, ◌≤◌, ◌<◌, length};
ghost use Rattle.parsing.specs.Parser.{verdict_of};
ghost use Rattle.semantics.specs.Program.{function_of};
ghost use Rattle.procedure_names.specs.Names.{arities, names_of, first_wrong};
ghost use Rattle.procedure_file.specs.Check.{check_of, program_of};
ghost use Rattle.procedure_file.specs.Places.{start_of, handler_of, receiver_of};
ghost use Rattle.procedure_file.specs.Loaded.{Laid, LoadedOr};
ghost use Rattle.procedure_file.specs.Asked.{labelled_verdict, Naming, function_verdict};

use crate::fill;
use crate::table::TabledFile;
use parsing::{Reason, Refusal, or_else};
use procedure_layout::layout;
use procedure_names::names;

// The block with label l of function f, which is not 0: its handler and its receiver, which stand before its first operation, and its operations.
fn labelled_named(
    file: &TabledFile,
    f: usize,
    l: usize,
    params: &[u8],
    variables: usize,
    labels: usize,
) -> Result<(), Refusal>
    requires f_in_bounds { (f < length (program_of file.now)) × (1 ≤ l) × (l ≤ length (function_of (program_of file.now) f).blocks) }
    ensures { verdict_of result ≡ labelled_verdict params.now file.now variables labels (handler_of (function_of (program_of file.now) f) l) (receiver_of (function_of (program_of file.now) f) l) (start_of (program_of file.now) f l) }
{
    let bytes = file.bytes();
    let start = file.start_of(f, l);
    let before = layout::bytes_before(bytes);
    let place = start - before;
    let handler = usize::from(file.handler_of(f, l));
    if labels < handler {
        return Err(Refusal {
            reason: Reason::MissingLabel,
            place,
        });
    }
    let x = file.receiver_of(f, l);
    let receiver_place = place + 1;
    let receiver = names::receiver_named(x, variables, receiver_place);
    let block = names::block_named(bytes, start, params, variables, labels);
    or_else(receiver, block)
}

// The names of the blocks of function f, of which `variables` and `labels` are the numbers.
fn blocks_named(
    file: &TabledFile,
    f: usize,
    params: &[u8],
    variables: usize,
    labels: usize,
) -> Result<(), Refusal>
    requires { Naming file.now f variables labels }
    ensures { verdict_of result ≡ function_verdict params.now file.now f }
{
    let entry = file.start_of(f, 0);
    names::block_named(file.bytes(), entry, params, variables, labels)?;
    for l in 0..labels {
        labelled_named(file, f, l + 1, params, variables, labels)?;
    }
    Ok(())
}

// The names of function f.
fn function_named(file: &TabledFile, f: usize, params: &[u8]) -> Result<(), Refusal>
    requires f_in_bounds { f < length (program_of file.now) }
    ensures { verdict_of result ≡ function_verdict params.now file.now f }
{
    let own = usize::from(file.params_of(f));
    let others = usize::from(file.locals_of(f));
    let labels = usize::from(file.labels_of(f));
    let variables = own + others;
    blocks_named(file, f, params, variables, labels)
}

// The names of the whole file, of which `params` has each function's number of parameters.
fn file_named(file: &TabledFile, params: &[u8]) -> Result<(), Refusal>
    requires params_value { params.now ≡ arities (program_of file.now) }
    ensures { verdict_of result ≡ first_wrong (names_of (program_of file.now)) }
{
    for f in 0..file.functions() {
        function_named(file, f, params)?;
    }
    Ok(())
}

// The names of a file whose layout is whole; where they are right, its table is left in `starts`.
fn load_laid(file: &[u8], starts: &mut [u16; 2048]) -> Result<(), Refusal>
    requires { Laid file.now }
    ensures { (verdict_of result ≡ check_of file.now) × LoadedOr (check_of file.now) file.now starts.old starts.new }
{
    let mut filled = [0u16; 2048];
    // No heap: an array, of which the front is lent.
    let mut params = [0u8; 32];
    let count = fill::fill(file, &mut filled, &mut params);
    file_named(&TabledFile::new(file, &filled), &params[..count])?;
    *starts = filled;
    Ok(())
}

// Document 01's check of a procedure file, with Slip 5's order: 1 and 2; 15; then 3 to 6; then 7 to 10. The table of an accepted file is left in `starts`.
pub fn load(file: &[u8], starts: &mut [u16; 2048]) -> Result<(), Refusal>
    ensures { (verdict_of result ≡ check_of file.now) × LoadedOr (check_of file.now) file.now starts.old starts.new }
{
    layout::layout_end(file)?;
    load_laid(file, starts)
}

// The same without the table.
pub fn check(file: &[u8]) -> Result<(), Refusal>
    ensures { verdict_of result ≡ check_of file.now }
{
    let mut starts = [0u16; 2048];
    load(file, &mut starts)
}
