// Slots written into the output, one behind the other: each function gives the offset past what it wrote.
ghost use Rattle.std.specs.Prelude.{◌≡◌, [], ◌∷◌, ◌++◌, map, ◌+◌, ◌*◌, ◌<◌, ◌≤◌};
ghost use Rattle.semantics.specs.Translation.{slot_of, slots_from};
ghost use Rattle.procedure_operations.specs.Numbers.{max_variables};
ghost use Rattle.procedure_operations.specs.Operation.{arguments_at};
ghost use Rattle.byte_writers.specs.Writes.{Room, Wrote};
ghost use Rattle.translator_bytes.specs.Writes.{CallInFile};
ghost use Rattle.translator_bytes.specs.Bytes.{zeros};

use byte_writers::put;
use procedure_fields::fields::argument_at;
use procedure_operations::numbers::VariableNumber;

// The n slots from `first` upward.
pub fn put_slots(out: &mut [u8], o: usize, first: u8, n: u8) -> usize
    requires n_bound { first + n ≤ 255 }
    requires room { Room o n out.old }
    ensures { Wrote o (slots_from first n) out.old result out.new }
{
    let mut place = o;
    for slot in first..first + n {
        place = put(out, place, [slot]);
    }
    place
}

// "variable v in slot v+2"
pub fn slot_of(x: VariableNumber) -> u8
    requires { x.0 < max_variables }
    ensures { result ≡ x.0 + 2 }
{
    (x.index() + 2) as u8
}

// The slots of the n arguments of the call at an offset.
pub fn put_arguments(file: &[u8], at: usize, out: &mut [u8], o: usize, n: u8) -> usize
    requires call_in_file { CallInFile file.now at n }
    requires room { Room o n out.old }
    ensures { Wrote o (map slot_of (arguments_at file.now at n)) out.old result out.new }
{
    let mut place = o;
    for i in 0..usize::from(n) {
        let slot = slot_of(argument_at(file, at, i));
        place = put(out, place, [slot]);
    }
    place
}

// n locals from slot `first` on, bound to 0. (As `put_slots` goes over slots: a closure for the one line of each would say no less.)
pub fn put_zeros(out: &mut [u8], o: usize, first: u8, n: u8) -> usize
    requires n_bound { first + n ≤ 255 }
    requires room { Room o (6 * n) out.old }
    ensures { Wrote o (zeros first n) out.old result out.new }
{
    let mut place = o;
    for slot in first..first + n {
        place = put_zero(out, place, slot);
    }
    place
}

// A slot bound to 0.
pub fn put_zero(out: &mut [u8], o: usize, slot: u8) -> usize
    requires { Room o 6 out.old }
    ensures { Wrote o ((1 ∷ slot ∷ []) ++ (0 ∷ 0 ∷ 0 ∷ 0 ∷ [])) out.old result out.new }
{
    put(out, o, [1, slot, 0, 0, 0, 0])
}
