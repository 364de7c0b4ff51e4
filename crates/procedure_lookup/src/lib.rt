// Finding a block in a procedure file.

#![tactic(auto)]

ghost use Rattle.std.specs.Prelude.{◌≡◌};
ghost use Rattle.parsing.specs.Parser.{verdict_of};
ghost use Rattle.procedure_file.specs.Check.{program_of};
ghost use Rattle.procedure_lookup.specs.Lookup.{block_there, lookup_of, stretch_of, place_by, place_of, part_at};

use parsing::{Reason, Refusal};
use procedure_file::check;
use procedure_file::loaded::LoadedFile;
use procedure_file::table::{TabledFile, block_past};
use procedure_layout::layout;

// Where a block's stretch begins and ends.
#[derive(Drop)]
struct Place {
    from: usize,
    to: usize,
}

// The place of a block, by the file's table.
fn find(file: &TabledFile, f: usize, l: usize) -> Result<Place, Refusal>
    ensures { result ≡ place_by (block_there (program_of file.now) f l) (program_of file.now) f l }
{
    let count = file.functions();
    if count <= f {
        return Err(Refusal {
            reason: Reason::MissingFunction,
            place: 0,
        });
    }
    let labels = usize::from(file.labels_of(f));
    if labels < l {
        return Err(Refusal {
            reason: Reason::MissingLabel,
            place: 0,
        });
    }
    let bytes = file.bytes();
    let start = file.start_of(f, l);
    let to = block_past(bytes, start);
    if l == 0 {
        return Ok(Place { from: start, to });
    }
    let before = layout::bytes_before(bytes);
    let from = start - before;
    Ok(Place { from, to })
}

// The place of a block, after the file's checks.
fn place_of(file: &[u8], f: u8, label: u8) -> Result<Place, Refusal>
    ensures { result ≡ place_of file.now f label }
{
    let mut starts = [0u16; 2048];
    check::load(file, &mut starts)?;
    let loaded = LoadedFile::new(file, &starts);
    find(loaded.table(), usize::from(f), usize::from(label))
}

// The stretch of the lent file that a block fills, handler byte and receiver included; label 0 is the entry block. Empty where it is refused.
// It is the part of the file at the block's place, and these bytes are the writing of the block.
pub fn block(file: &[u8], f: u8, label: u8) -> &[u8]
    ensures result_value { result.now ≡ part_at file.now (place_of file.now f label) }
    ensures result_value_2 { result.now ≡ stretch_of file.now f label }
{
    match place_of(file, f, label) {
        Ok(place) => &file[place.from..place.to],
        Err(_) => &file[..0],
    }
}

// Whether that block is there, or the refusal.
pub fn block_refusal(file: &[u8], f: u8, label: u8) -> Result<(), Refusal>
    ensures { verdict_of result ≡ lookup_of file.now f label }
{
    place_of(file, f, label).map(|_| ())
}
