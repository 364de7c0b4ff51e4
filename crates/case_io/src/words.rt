// How a run stopped, and what the words lent to it hold, 48 a frame.
ghost use Rattle.runs.specs.Stopped.{stopped_as, in_use};
ghost use Rattle.std.specs.Prelude.{◌≡◌, IfOk};

use crate::print::{refusal, say, value};
use case_fields::words::{UNTOUCHED, all_are};
use memory::{FRAME_SIZE, MAX_DEPTH};
use parsing::Refusal;
use runs::{End, Stopped, in_use};
use std::io;
use std::io::Write;

// How a run of a file of that version ended: uncaught, the number raised is told for version 2 (document 02, Slip 7).
fn print_end<W: Write>(writer: &mut W, e: &End, version: u8) -> io::Result<()> {
    match e {
        End::Value(z) => {
            say(writer, b"value")?;
            value(writer, *z)
        }
        End::Uncaught(z) => {
            say(writer, b"uncaught")?;
            if version == 2 {
                value(writer, *z)?;
            }
            Ok(())
        }
    }
}

// How a run of a file of that version stopped.
fn print_stopped<W: Write>(writer: &mut W, stopped: &Stopped, version: u8) -> io::Result<()> {
    match stopped {
        Stopped::Ended(e) => print_end(writer, e, version),
        Stopped::Spent => say(writer, b"spent"),
        Stopped::Deep => say(writer, b"deep"),
    }
}

// How a run of a file of that version stopped; the answer is how many of n frames are then in use.
pub fn print_stop<W: Write>(
    writer: &mut W,
    stopped: Stopped,
    version: u8,
    n: usize,
) -> io::Result<usize>
    ensures { IfOk result (λ used. used ≡ in_use (stopped_as stopped) n) }
{
    print_stopped(writer, &stopped, version)?;
    Ok(in_use(stopped, n))
}

// The first k words of each of the oldest frames, `frames` of them.
pub fn print_frames<W: Write>(
    writer: &mut W,
    words: &[i32],
    frames: usize,
    k: usize,
) -> io::Result<()> {
    for (i, word) in words.iter().enumerate() {
        if i / FRAME_SIZE < frames && i % FRAME_SIZE < k {
            value(writer, *word)?;
        }
    }
    Ok(())
}

// `kept` where each word is as it was.
fn print_kept<W: Write>(writer: &mut W, words: &[i32]) -> io::Result<()> {
    if all_are(words, UNTOUCHED) {
        say(writer, b" kept")?;
    }
    Ok(())
}

// A refused call: the refusal, and whether the words are kept.
pub fn print_refused<W: Write>(writer: &mut W, r: Refusal, words: &[i32]) -> io::Result<()> {
    refusal(writer, r)?;
    print_kept(writer, words)
}

// The words behind the frames in use: `cleared` where those up to the depth are 0, `kept` where those past it are as they were.
pub fn print_rest<W: Write>(
    writer: &mut W,
    words: &[i32],
    frames: usize,
    depth: usize,
) -> io::Result<()> {
    if frames <= depth && depth <= MAX_DEPTH {
        let from = FRAME_SIZE * frames;
        let to = FRAME_SIZE * depth;
        if to <= words.len() {
            if all_are(&words[from..to], 0) {
                say(writer, b" cleared")?;
            }
            print_kept(writer, &words[to..])?;
        }
    }
    Ok(())
}
