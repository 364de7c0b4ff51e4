// The merge of two procedure files into one.

#![tactic(auto)]

mod functions;

ghost use Rattle.std.specs.Prelude.{◌≡◌, length};
ghost use Rattle.parsing.specs.Parser.{verdict_of};
ghost use Rattle.runs.specs.Tells.{by_verdict, leaves, told};
ghost use Rattle.procedure_file.specs.Loaded.{Laid};
ghost use Rattle.procedure_file.specs.FileInvariant.{FileInvariant};
ghost use Rattle.byte_writers.specs.Writes.{Room, Wrote};
ghost use Rattle.merge.specs.Merged.{merged_of, version_verdict, size_verdict, files_verdict, answer_of, output_of};
ghost use Rattle.merge.specs.Parts.{head_bytes};
ghost use Rattle.merge.specs.Asked.{FewFunctions};

use byte_writers::put;
use parsing::{Reason, Refusal, or_else, refused_unless, version_of};
use procedure_file::check::load;
use procedure_file::loaded::LoadedFile;
use procedure_file::table::functions_of;
use procedure_layout::layout::{FILE_LIMIT, MAX_FUNCTIONS};

// 2: the versions of two files.
fn version_checked(first: &[u8], second: &[u8]) -> Result<(), Refusal>
    ensures { verdict_of result ≡ version_verdict first.now second.now }
{
    let same = version_of(first) == version_of(second);
    refused_unless(same, Reason::WrongVersion, 3)
}

// 22 and 16: the functions and the bytes of a merged file, and the room lent for it.
fn size_checked(functions: usize, size: usize, room: usize) -> Result<(), Refusal>
    ensures { verdict_of result ≡ size_verdict functions size room }
{
    let bytes = or_else(
        refused_unless(size <= FILE_LIMIT, Reason::MergedTooLarge, 0),
        refused_unless(size <= room, Reason::NoRoom, 0),
    );
    or_else(
        refused_unless(functions <= MAX_FUNCTIONS, Reason::MergedTooLarge, 0),
        bytes,
    )
}

// Mark, version and function count.
fn put_head(out: &mut [u8], version: u8, functions: u8) -> usize
    requires { Room 0 6 out.old }
    ensures { Wrote 0 (head_bytes version functions) out.old result out.new }
{
    put(out, 0, [b'S', b'P', b'F', version, 0, functions])
}

// The merged file: its head, the first file's functions as they stand, the second's with its calls renumbered. The first file is read without a
// table, so that a merge holds one (docs/FIRMWARE.md).
fn put_file(first: &[u8], second: &LoadedFile, out: &mut [u8]) -> usize
    requires first { Laid first.now × FileInvariant first.now }
    requires few_functions { FewFunctions first.now second.now }
    requires room { Room 0 (length (merged_of first.now second.now)) out.old }
    ensures { Wrote 0 (merged_of first.now second.now) out.old result out.new }
{
    let version = version_of(first);
    let kept = functions_of(first);
    let all = kept + second.table().functions();
    let head = put_head(out, version, all as u8);
    let place = functions::put_stretch(first, 6, first.len(), out, head);
    functions::put_functions(second, kept as u8, out, place)
}

// The merge of two accepted files: 2, 22 and 16 are decided before the first byte is written.
fn merge_loaded(first: &[u8], second: &LoadedFile, out: &mut [u8]) -> Result<usize, Refusal>
    requires { Laid first.now × FileInvariant first.now }
    ensures { (told result ≡ by_verdict (files_verdict first.now second.now (length out.old)) (length (merged_of first.now second.now))) × (out.new ≡ leaves (files_verdict first.now second.now (length out.old)) (merged_of first.now second.now) out.old) }
{
    let others = second.bytes();
    let version = version_checked(first, others);
    let functions = functions_of(first) + second.table().functions();
    let size = first.len() + (others.len() - 6);
    let room = size_checked(functions, size, out.len());
    or_else(version, room)?;
    put_file(first, second, out);
    Ok(size)
}

// Two procedure files as one, written into the output that is lent; the answer is the merged file's length, or a refusal.
pub fn merge(first: &[u8], second: &[u8], out: &mut [u8]) -> Result<usize, Refusal>
    ensures { (told result ≡ answer_of first.now second.now (length out.old)) × (out.new ≡ output_of first.now second.now out.old) }
{
    let mut starts = [0u16; 2048];
    load(first, &mut starts)?;
    load(second, &mut starts)?;
    let added = LoadedFile::new(second, &starts);
    merge_loaded(first, &added, out)
}
