// A slot that is bound or read (refusals 13, 11, 19 to 21), and the kinds of slots.
ghost use Rattle.std.specs.Prelude.{◌≡◌, ◌≤◌, get_or};
ghost use Rattle.parsing.specs.Parser.{verdict_of};
ghost use Rattle.target_tags.specs.Tag.{max_parameters};
ghost use Rattle.target_slots.specs.Slots.{kind_refusal, binds, reads, differ, bound, bound_number, entry_kinds};

use parsing::{Reason, Refusal, refused_unless};
use target_tags::tag::MAX_SLOTS;

// The kinds of slots: "Slots are whole, continuation or handler."
#[derive(Clone, Copy, PartialEq, Eq)]
pub enum Kind {
    Unbound,
    Whole,
    Continuation,
    Handler,
    // For a kind that no file gives, which a caller may hand in.
    Other(u8),
}

// A slot that is bound, where there are so many slots.
pub fn binds_slot(slots: usize, slot: usize, place: usize) -> Result<(), Refusal>
    ensures { verdict_of result ≡ binds slots place slot }
{
    refused_unless(slot < slots, Reason::WrongSlot, place)
}

// The reason told for a slot of another kind than the one needed.
fn kind_refusal(needed: Kind, bound: Kind) -> Reason
    ensures { result ≡ kind_refusal needed bound }
{
    match (bound, needed) {
        (Kind::Unbound, _) => Reason::UnboundSlot,
        (_, Kind::Whole) => Reason::NotWhole,
        (_, Kind::Continuation) => Reason::NotContinuation,
        _ => Reason::NotHandler,
    }
}

// The kind of a slot.
fn kind_of(kinds: [Kind; MAX_SLOTS], slot: usize) -> Kind
    ensures { result ≡ get_or kinds slot Kind.Unbound }
{
    if slot < MAX_SLOTS {
        return kinds[slot];
    }
    Kind::Unbound
}

// A slot that is read as one of a kind, where there are so many slots.
pub fn reads_slot(
    slots: usize,
    kinds: [Kind; MAX_SLOTS],
    kind: Kind,
    slot: usize,
    place: usize,
) -> Result<(), Refusal>
    ensures { verdict_of result ≡ reads slots kinds kind place slot }
{
    if slot < slots {
        let bound = kind_of(kinds, slot);
        return refused_unless(bound == kind, kind_refusal(kind, bound), place);
    }
    Err(Refusal {
        reason: Reason::WrongSlot,
        place,
    })
}

// The two slots of tag 9.
pub fn differs(slot: usize, handler: usize, place: usize) -> Result<(), Refusal>
    ensures { verdict_of result ≡ differ place slot handler }
{
    refused_unless(slot != handler, Reason::WrongSlot, place)
}

// A slot bound in kinds that are lent.
pub fn bind_in(kinds: &mut [Kind; MAX_SLOTS], slot: usize, kind: Kind)
    ensures { kinds.new ≡ bound kinds.old slot kind }
{
    if slot < MAX_SLOTS {
        kinds[slot] = kind;
    }
}

// The kinds with a slot bound.
pub fn bind(kinds: [Kind; MAX_SLOTS], slot: usize, kind: Kind) -> [Kind; MAX_SLOTS]
    ensures { result ≡ bound kinds slot kind }
{
    let mut new = kinds;
    bind_in(&mut new, slot, kind);
    new
}

// The kinds with a number's slot bound, if there is one.
pub fn bind_number(kinds: [Kind; MAX_SLOTS], number: Option<usize>) -> [Kind; MAX_SLOTS]
    ensures { result ≡ bound_number kinds number }
{
    match number {
        Some(slot) => bind(kinds, slot, Kind::Whole),
        None => kinds,
    }
}

// The kinds with which a function begins.
pub fn entry_kinds(params: usize) -> [Kind; MAX_SLOTS]
    requires { params ≤ max_parameters }
    ensures { result ≡ entry_kinds params }
{
    let mut kinds = [Kind::Unbound; MAX_SLOTS];
    kinds[0] = Kind::Continuation;
    kinds[1] = Kind::Handler;
    for i in 0..params {
        kinds = bind(kinds, 2 + i, Kind::Whole);
    }
    kinds
}
