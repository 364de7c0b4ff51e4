// Parts of a file, one after the other.
ghost use Rattle.std.specs.Prelude.{◌≡◌, ℕ, ◌<◌, Result};
ghost use Rattle.parsing.specs.declared.Refusal.{Refusal};
ghost use Rattle.parsing.specs.Parser.{past_many};

use crate::Refusal;

// The offset past n parts, of which `part` gives the offset past the one at an offset.
pub fn many_end<F: Fn(usize) -> Result<usize, Refusal>>(
    start: usize,
    n: usize,
    part: F,
) -> Result<usize, Refusal>
    requires { F.IsAlwaysCallable part }
    ensures { (past : ℕ → Result ℕ Refusal) → ((at : ℕ) (end : _) → at < 18446744073709551616 → F.post part at end → end ≡ past at) → result ≡ past_many n past start }
{
    let mut at = start;
    for _ in 0..n {
        at = part(at)?;
    }
    Ok(at)
}
