// The fields of a record, the low byte first.
ghost use Rattle.std.specs.Prelude.{◌+◌, ◌*◌, ◌<◌, min, ◌≡◌, length, get_or};
ghost use Rattle.case_fields.specs.Record.{Front, value_at, Taken};

// The byte at an offset, 0 past the end.
pub fn byte_at(bytes: &[u8], at: usize) -> u8
    ensures { result ≡ get_or bytes.now at 0 }
{
    if at < bytes.len() {
        return bytes[at];
    }
    0
}

// How many of the first n bytes of `part` there are.
pub fn room(part: &[u8], n: usize) -> usize
    ensures front { Front result part.now }
    ensures value { result ≡ min n (length part.now) }
{
    n.min(part.len())
}

// How many bytes so many arguments have.
pub fn argument_bytes(count: u8) -> usize
    ensures { result ≡ 4 * count }
{
    4 * usize::from(count)
}

// The value of four bytes, the i-th four of `bytes`.
fn value_at(bytes: &[u8], i: usize) -> i32
    requires { 4 * i + 3 < length bytes.now }
    ensures { result ≡ value_at bytes.now i }
{
    let at = 4 * i;
    parsing::value(bytes[at], bytes[at + 1], bytes[at + 2], bytes[at + 3])
}

// The arguments of a record, four bytes each, into the front of `args`; the answer is how many: those that are whole and have room.
pub fn arguments(bytes: &[u8], args: &mut [i32]) -> usize
    ensures front { Front result args.new }
    ensures taken { Taken bytes.now args.old result args.new }
{
    let n = (bytes.len() / 4).min(args.len());
    for i in 0..n {
        args[i] = value_at(bytes, i);
    }
    n
}
