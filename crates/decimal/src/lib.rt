// Words and numbers in decimal, written into lent bytes.

#![tactic(auto)]

ghost use Rattle.std.specs.Prelude.{◌+◌, ◌≤◌, ◌<◌, [], ◌∷◌, ◌≡◌, nat_abs, length};
ghost use Rattle.decimal.specs.Decimal.{digits, decimal, signed, numbered};
ghost use Rattle.decimal.specs.WroteText.{WroteText};

// A word.
pub fn put_bytes(out: &mut [u8], at: usize, word: &[u8]) -> usize
    requires { at + length word.now ≤ length out.old }
    ensures { WroteText at word.now out.old result out.new }
{
    let next = at + word.len();
    out[at..next].copy_from_slice(word);
    next
}

// One digit.
fn put_digit(out: &mut [u8], at: usize, n: u64) -> usize
    requires { (at < length out.old) × (n < 10) }
    ensures { WroteText at ((48 + n) ∷ []) out.old result out.new }
{
    out[at] = (48 + n) as u8;
    at + 1
}

// The digits of n, at most k and one more.
fn put_digits(out: &mut [u8], at: usize, k: usize, n: u64) -> usize
    requires { at + (k + 1) ≤ length out.old }
    ensures { WroteText at (digits k n) out.old result out.new }
{
    if k == 0 {
        return put_digit(out, at, n % 10);
    }
    if n < 10 {
        return put_digit(out, at, n);
    }
    let next = put_digits(out, at, k - 1, n / 10);
    put_digit(out, next, n % 10)
}

// A number in decimal.
fn put_decimal(out: &mut [u8], at: usize, n: u64) -> usize
    requires { at + 20 ≤ length out.old }
    ensures { WroteText at (decimal n) out.old result out.new }
{
    put_digits(out, at, 19, n)
}

// A value without its sign.
pub fn magnitude(v: i32) -> u64
    ensures { result ≡ nat_abs v }
{
    u64::from(v.unsigned_abs())
}

// A value in decimal.
pub fn put_signed(out: &mut [u8], at: usize, v: i32) -> usize
    requires { at + 21 ≤ length out.old }
    ensures { WroteText at (signed v) out.old result out.new }
{
    let n = magnitude(v);
    if v < 0 {
        let next = put_bytes(out, at, b"-");
        return put_decimal(out, next, n);
    }
    put_decimal(out, at, n)
}

// A word and a number behind it.
pub fn put_numbered(out: &mut [u8], at: usize, word: &[u8], n: u64) -> usize
    requires { at + length word.now + 20 ≤ length out.old }
    ensures { WroteText at (numbered word.now n) out.old result out.new }
{
    let next = put_bytes(out, at, word);
    put_decimal(out, next, n)
}
