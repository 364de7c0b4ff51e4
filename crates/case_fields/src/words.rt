// Words lent to a machine, 48 a frame: how many, and what they hold after a run.
ghost use Rattle.std.specs.Prelude.{◌+◌, ◌-◌, ◌*◌, min, ◌≡◌, length};
ghost use Rattle.memory.specs.Frame.{frame_size};
ghost use Rattle.case_fields.specs.Record.{Front};
ghost use Rattle.case_fields.specs.Words.{every};

use memory::FRAME_SIZE;

// What the words hold before a run.
pub const UNTOUCHED: i32 = 7;

// How many of `words` are lent: 48 for each frame of the depth and delta more, less 128, as far as there are so many.
pub fn lent(words: &[i32], depth: usize, delta: u8) -> usize
    ensures front { Front result words.now }
    ensures value { result ≡ min (frame_size * depth + delta - 128) (length words.now) }
{
    let most = words.len();
    if most / FRAME_SIZE + 3 < depth {
        return most;
    }
    let want = FRAME_SIZE * depth + usize::from(delta);
    want.saturating_sub(128).min(most)
}

// Whether each of `words` is x.
pub fn all_are(words: &[i32], x: i32) -> bool
    ensures { result ≡ every x words.now }
{
    for w in words {
        if *w != x {
            return false;
        }
    }
    true
}
