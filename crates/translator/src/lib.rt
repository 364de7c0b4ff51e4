// The translator: a procedure file becomes a translated file.

#![tactic(auto)]

mod blocks;
pub mod parts;

ghost use Rattle.std.specs.Prelude.{◌≡◌, length};
ghost use Rattle.parsing.specs.Parser.{verdict_of};
ghost use Rattle.runs.specs.Tells.{by_verdict, leaves, told};
ghost use Rattle.translator.specs.Translated.{translation_of, room_verdict, answer_of, output_of};

use parsing::{Reason, Refusal, or_else, refused_unless};
use procedure_file::check::load;
use procedure_file::loaded::LoadedFile;
use target_tags::tag::FILE_LIMIT;
use translator_sizes::function_size;

// The size of the translation of a loaded file.
pub fn translation_size(file: &LoadedFile) -> usize
    ensures { result ≡ length (translation_of file.now) }
{
    let mut n = 7;
    for f in 0..file.table().functions() {
        n += function_size(file, f);
    }
    n
}

// 17 and 16: the bytes of a translation, and the room lent for them.
pub fn room_checked(size: usize, room: usize) -> Result<(), Refusal>
    ensures { verdict_of result ≡ room_verdict size room }
{
    or_else(
        refused_unless(size <= FILE_LIMIT, Reason::TranslationTooLong, 0),
        refused_unless(size <= room, Reason::NoRoom, 0),
    )
}

// The translation of a loaded file: 17 and 16 are decided by its size, before the first byte is written.
pub fn translate_loaded(file: &LoadedFile, out: &mut [u8]) -> Result<usize, Refusal>
    ensures { (told result ≡ by_verdict (room_verdict (length (translation_of file.now)) (length out.old)) (length (translation_of file.now))) × (out.new ≡ leaves (room_verdict (length (translation_of file.now)) (length out.old)) (translation_of file.now) out.old) }
{
    let size = translation_size(file);
    room_checked(size, out.len())?;
    parts::put_file(file, out);
    Ok(size)
}

// The translated file of a procedure file, written into the output that is lent; the answer is its length, or a refusal.
pub fn translate(file: &[u8], out: &mut [u8]) -> Result<usize, Refusal>
    ensures { (told result ≡ answer_of file.now (length out.old)) × (out.new ≡ output_of file.now out.old) }
{
    let mut starts = [0u16; 2048];
    load(file, &mut starts)?;
    let loaded = LoadedFile::new(file, &starts);
    translate_loaded(&loaded, out)
}
