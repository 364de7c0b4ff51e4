// Bytes written into lent output, one behind the other: each function gives the offset past what it wrote.

#![tactic(auto)]

ghost use Rattle.std.specs.Prelude.{[], ◌∷◌, ◌<◌};
ghost use Rattle.parsing.specs.Bytes.{pair_bytes};
ghost use Rattle.byte_writers.specs.Writes.{Room, Wrote};

// The bytes of an array.
pub fn put<const N: usize>(out: &mut [u8], o: usize, bytes: [u8; N]) -> usize
    requires { Room o N out.old }
    ensures { Wrote o bytes.entry out.old result out.new }
{
    let next = o + N;
    out[o..next].copy_from_slice(&bytes);
    next
}

// A field of 16 bits, the low byte first.
pub fn put_pair(out: &mut [u8], o: usize, n: usize) -> usize
    requires n_bound { n < 65536 }
    requires room { Room o 2 out.old }
    ensures { Wrote o (pair_bytes n) out.old result out.new }
{
    let low = (n % 256) as u8;
    let high = (n / 256) as u8;
    put(out, o, [low, high])
}
