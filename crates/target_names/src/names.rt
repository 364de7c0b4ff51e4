// The names in a node: refusals 9, 10, 11, 13 and 19 to 21.
ghost use Rattle.std.specs.Prelude.{◌≡◌, List, length, get_or, ℕ, ◌+◌, ◌≤◌};
ghost use Rattle.parsing.specs.Parser.{or_else, verdict_of};
ghost use Rattle.target_tags.specs.Tag.{file_limit};
ghost use Rattle.target_slots.specs.Slots.{binds, reads};
ghost use Rattle.target_names.specs.Asked.{NodeAt, NoJump};
ghost use Rattle.target_names.specs.Names.{function, arity, values, reads_number, binds_number, difference_names, jump_names, handle_names, continuation_with_handler_names, names_of, judged};

use parsing::{Reason, Refusal, or_else, refused_unless};
use target_slots::slots::{Kind, binds_slot, differs, reads_slot};
use target_tags::tag;
use target_tags::tag::{MAX_SLOTS, Tag};

// The function of a jump, among functions with these numbers of parameters.
fn names_function(params: &[u8], number: usize, place: usize) -> Result<(), Refusal>
    ensures { verdict_of result ≡ function params.now place number }
{
    refused_unless(number < params.len(), Reason::MissingFunction, place)
}

fn params_of(params: &[u8], number: usize) -> usize
    ensures { result ≡ get_or params.now number 0 }
{
    if number < params.len() {
        return usize::from(params[number]);
    }
    0
}

// The count of a jump's values.
fn counts(params: &[u8], number: usize, count: usize, place: usize) -> Result<(), Refusal>
    ensures { verdict_of result ≡ arity params.now place number count }
{
    refused_unless(
        count == params_of(params, number),
        Reason::CalleeArity,
        place,
    )
}

// The values of a jump.
fn reads_values(
    file: &[u8],
    slots: usize,
    kinds: [Kind; MAX_SLOTS],
    start: usize,
    count: usize,
) -> Result<(), Refusal>
    requires { start + count ≤ length file.now }
    ensures { verdict_of result ≡ values slots kinds file.now start count }
{
    for i in 0..count {
        let at = start + i;
        reads_slot(slots, kinds, Kind::Whole, usize::from(file[at]), at)?;
    }
    Ok(())
}

// The names of tag 2.
fn names_copy(
    slots: usize,
    kinds: [Kind; MAX_SLOTS],
    at: usize,
    slot: usize,
    from: usize,
) -> Result<(), Refusal>
    requires { at ≤ file_limit }
    ensures { verdict_of result ≡ or_else (binds slots (at + 1) slot) (reads slots kinds Kind.Whole (at + 2) from) }
{
    or_else(
        binds_slot(slots, slot, at + 1),
        reads_slot(slots, kinds, Kind::Whole, from, at + 2),
    )
}

// The names of tags 3 and 10, in reading order.
fn names_difference(
    slots: usize,
    kinds: [Kind; MAX_SLOTS],
    at: usize,
    slot: usize,
    left: usize,
    right: usize,
) -> Result<(), Refusal>
    requires { at ≤ file_limit }
    ensures { verdict_of result ≡ difference_names slots kinds at slot left right }
{
    let read = or_else(
        reads_slot(slots, kinds, Kind::Whole, left, at + 2),
        reads_slot(slots, kinds, Kind::Whole, right, at + 3),
    );
    or_else(binds_slot(slots, slot, at + 1), read)
}

// The names of a jump before its values, in reading order.
fn names_jump(
    params: &[u8],
    slots: usize,
    kinds: [Kind; MAX_SLOTS],
    at: usize,
    number: usize,
    continuation: usize,
    handler: usize,
    count: usize,
) -> Result<(), Refusal>
    requires { at ≤ file_limit }
    ensures { verdict_of result ≡ jump_names slots params.now kinds at number continuation handler count }
{
    let goal = names_function(params, number, at + 1);
    let ends = or_else(
        reads_slot(slots, kinds, Kind::Continuation, continuation, at + 3),
        reads_slot(slots, kinds, Kind::Handler, handler, at + 4),
    );
    or_else(or_else(goal, ends), counts(params, number, count, at + 5))
}

// The names of tag 5.
fn names_resume(
    slots: usize,
    kinds: [Kind; MAX_SLOTS],
    at: usize,
    continuation: usize,
    value: usize,
) -> Result<(), Refusal>
    requires { at ≤ file_limit }
    ensures { verdict_of result ≡ or_else (reads slots kinds Kind.Continuation (at + 1) continuation) (reads slots kinds Kind.Whole (at + 2) value) }
{
    or_else(
        reads_slot(slots, kinds, Kind::Continuation, continuation, at + 1),
        reads_slot(slots, kinds, Kind::Whole, value, at + 2),
    )
}

// The value slot of tag 6, if there is one.
fn reads_number(
    slots: usize,
    kinds: [Kind; MAX_SLOTS],
    number: Option<usize>,
    place: usize,
) -> Result<(), Refusal>
    ensures { verdict_of result ≡ reads_number slots kinds place number }
{
    match number {
        Some(slot) => reads_slot(slots, kinds, Kind::Whole, slot, place),
        None => Ok(()),
    }
}

// The names of tag 6.
fn names_handle(
    slots: usize,
    kinds: [Kind; MAX_SLOTS],
    at: usize,
    handler: usize,
    value: Option<usize>,
) -> Result<(), Refusal>
    requires { at ≤ file_limit }
    ensures { verdict_of result ≡ handle_names slots kinds at handler value }
{
    or_else(
        reads_slot(slots, kinds, Kind::Handler, handler, at + 1),
        reads_number(slots, kinds, value, at + 2),
    )
}

// The names of tag 7.
fn names_branch(
    slots: usize,
    kinds: [Kind; MAX_SLOTS],
    at: usize,
    left: usize,
    right: usize,
) -> Result<(), Refusal>
    requires { at ≤ file_limit }
    ensures { verdict_of result ≡ or_else (reads slots kinds Kind.Whole (at + 1) left) (reads slots kinds Kind.Whole (at + 2) right) }
{
    or_else(
        reads_slot(slots, kinds, Kind::Whole, left, at + 1),
        reads_slot(slots, kinds, Kind::Whole, right, at + 2),
    )
}

// The names of tag 8.
fn names_continuation(slots: usize, at: usize, slot: usize, parameter: usize) -> Result<(), Refusal>
    requires { at ≤ file_limit }
    ensures { verdict_of result ≡ or_else (binds slots (at + 1) slot) (binds slots (at + 2) parameter) }
{
    or_else(
        binds_slot(slots, slot, at + 1),
        binds_slot(slots, parameter, at + 2),
    )
}

// The handler parameter slot of tag 9, if there is one.
fn binds_number(slots: usize, number: Option<usize>, place: usize) -> Result<(), Refusal>
    ensures { verdict_of result ≡ binds_number slots place number }
{
    match number {
        Some(slot) => binds_slot(slots, slot, place),
        None => Ok(()),
    }
}

// The names of tag 9, in reading order.
fn names_continuation_with_handler(
    slots: usize,
    at: usize,
    slot: usize,
    parameter: usize,
    handler: usize,
    number: Option<usize>,
) -> Result<(), Refusal>
    requires { at ≤ file_limit }
    ensures { verdict_of result ≡ continuation_with_handler_names slots at slot parameter handler number }
{
    let made = names_continuation(slots, at, slot, parameter);
    let ends = or_else(
        binds_slot(slots, handler, at + 3),
        differs(slot, handler, at + 3),
    );
    or_else(made, or_else(ends, binds_number(slots, number, at + 4)))
}

// The names of a node that is no jump.
fn names_of_slots(
    slots: usize,
    kinds: [Kind; MAX_SLOTS],
    at: usize,
    tag: Tag,
) -> Result<(), Refusal>
    requires { (at ≤ file_limit) × NoJump tag }
    ensures { (ps s : List ℕ) → verdict_of result ≡ names_of slots ps kinds s at tag }
{
    match tag {
        Tag::Constant { slot, .. } => binds_slot(slots, slot, at + 1),
        Tag::Copy { slot, from, .. } => names_copy(slots, kinds, at, slot, from),
        Tag::Difference {
            slot,
            left,
            right,
            ..
        } => names_difference(slots, kinds, at, slot, left, right),
        Tag::Jump { .. } => Ok(()),
        Tag::Resume {
            continuation,
            value,
            ..
        } => names_resume(slots, kinds, at, continuation, value),
        Tag::Handle { handler, value, .. } => names_handle(slots, kinds, at, handler, value),
        Tag::Branch { left, right, .. } => names_branch(slots, kinds, at, left, right),
        Tag::Continuation {
            slot,
            parameter,
            ..
        } => names_continuation(slots, at, slot, parameter),
        Tag::ContinuationWithHandler {
            slot,
            parameter,
            handler,
            number,
            ..
        } => names_continuation_with_handler(slots, at, slot, parameter, handler, number),
        Tag::DifferenceOrRaise {
            slot,
            left,
            right,
            ..
        } => names_difference(slots, kinds, at, slot, left, right),
        Tag::Refused(_) => Ok(()),
    }
}

// The names of the node that stands at an offset.
fn names_of(
    file: &[u8],
    params: &[u8],
    slots: usize,
    kinds: [Kind; MAX_SLOTS],
    at: usize,
    tag: Tag,
) -> Result<(), Refusal>
    requires { NodeAt file.now at tag }
    ensures { verdict_of result ≡ names_of slots params.now kinds file.now at tag }
{
    match tag {
        Tag::Jump {
            function,
            continuation,
            handler,
            count,
            ..
        } => or_else(
            names_jump(
                params,
                slots,
                kinds,
                at,
                function,
                continuation,
                handler,
                count,
            ),
            reads_values(file, slots, kinds, at + 6, count),
        ),
        _ => names_of_slots(slots, kinds, at, tag),
    }
}

// The names of the node that stands at an offset, if they are judged.
pub fn judge(
    names: bool,
    file: &[u8],
    params: &[u8],
    kinds: [Kind; MAX_SLOTS],
    at: usize,
    tag: Tag,
) -> Result<(), Refusal>
    requires { NodeAt file.now at tag }
    ensures { verdict_of result ≡ judged names params.now kinds file.now at tag }
{
    if names {
        return names_of(file, params, tag::slots_of(file), kinds, at, tag);
    }
    Ok(())
}
