// The reading of a file: the refusals 1 to 6, 12 and 15, and where names are judged 9, 10, 11, 13 and 19 to 21.
ghost use Rattle.std.specs.Prelude.{◌≡◌, length, ◌≤◌};
ghost use Rattle.parsing.specs.Parser.{past_of};
ghost use Rattle.parsing.specs.Fields.{counted};
ghost use Rattle.target_tags.specs.Tag.{file_limit};
ghost use Rattle.target_layout.specs.Layout.{function, functions, code};

use parsing::{Reason, Refusal};
use target_expressions::expressions::body_end;
use target_parts::parts;
use target_slots::slots;
use target_tags::tag::{FILE_LIMIT, MAX_PARAMETERS};

// "Function count (16 bits, 1 to 2,048)."
pub const MAX_FUNCTIONS: usize = 2048;

// The end of a function.
fn function_end(file: &[u8], params: &[u8], names: bool, at: usize) -> Result<usize, Refusal>
    requires { length file.now ≤ file_limit }
    ensures { result ≡ past_of (function names params.now file.now at) }
{
    let n = parsing::count_at(file, at, 0, MAX_PARAMETERS)?;
    body_end(file, params, names, slots::entry_kinds(n), at + 1)
}

// The number of functions.
fn functions_at(file: &[u8], at: usize) -> Result<usize, Refusal>
    ensures { result ≡ counted (functions file.now at) }
{
    let n = parts::size_at(file, at)?;
    if 1 <= n && n <= MAX_FUNCTIONS {
        return Ok(n);
    }
    Err(Refusal {
        reason: Reason::OutOfRange,
        place: at,
    })
}

// The whole file.
pub fn code_end(file: &[u8], params: &[u8], names: bool) -> Result<usize, Refusal>
    ensures { result ≡ past_of (code names params.now file.now 0) }
{
    file_head::head_end(file, b"SPC", FILE_LIMIT)?;
    let n = functions_at(file, 5)?;
    let end = parsing::many_end(7, n, |at| function_end(file, params, names, at))?;
    parsing::file_end(file, end)
}
