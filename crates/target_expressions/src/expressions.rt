// The reading of an expression: its nodes, and the nested parts of each; the body of a function.
ghost use Rattle.std.specs.Prelude.{◌≡◌, ◌+◌, length, ◌≤◌, ◌<◌};
ghost use Rattle.parsing.specs.Parser.{past_of};
ghost use Rattle.target_tags.specs.Tag.{file_limit};
ghost use Rattle.target_slots.specs.Slots.{bound};
ghost use Rattle.target_names.specs.Asked.{NodeAt};
ghost use Rattle.target_expressions.specs.Expressions.{expression};
ghost use Rattle.target_expressions.specs.Ends.{node_end, parts_end, continuation_with_handler_end, part_end, body_end};

use parsing::Refusal;
use target_names::names;
use target_parts::parts;
use target_parts::parts::After;
use target_slots::slots;
use target_slots::slots::Kind;
use target_tags::tag;
use target_tags::tag::{MAX_SLOTS, Tag};

// The end of an expression: a loop along what follows each node, and calls for its nested parts.
#[cycle(continuation_end_continuation_with_handler_end_expression_end_node_end_part_end_parts_end)]
fn expression_end(
    file: &[u8],
    params: &[u8],
    names: bool,
    level: usize,
    kinds: &[Kind; MAX_SLOTS],
    start: usize,
) -> Result<usize, Refusal>
    requires file_len_bound { length file.now ≤ file_limit }
    requires start_in_bounds { start ≤ length file.now }
    ensures { result ≡ past_of (expression names params.now level kinds.now file.now start) }
{
    let mut at = start;
    let mut seen = *kinds;
    loop {
        let node = tag::tag_at(file, at);
        match node_end(file, params, names, level, &seen, at, node) {
            After::Onward(next) => {
                at = next;
            }
            After::Bound { next, slot } => {
                slots::bind_in(&mut seen, slot, Kind::Whole);
                at = next;
            }
            After::Ended(next) => {
                return Ok(next);
            }
            After::Halted(r) => {
                return Err(r);
            }
        }
    }
}

// A node's names, if they are judged, then its nested parts, and what follows them.
#[cycle(continuation_end_continuation_with_handler_end_expression_end_node_end_part_end_parts_end)]
fn node_end(
    file: &[u8],
    params: &[u8],
    names: bool,
    level: usize,
    kinds: &[Kind; MAX_SLOTS],
    at: usize,
    node: Tag,
) -> After
    requires file_len_bound { length file.now ≤ file_limit }
    requires node_at { NodeAt file.now at node }
    ensures { result ≡ node_end names params.now file.now level kinds.now at node }
{
    match names::judge(names, file, params, *kinds, at, node) {
        Ok(()) => {
            let end = parts_end(file, params, names, level, kinds, at, node);
            parts::follows(node, end)
        }
        Err(r) => After::Halted(r),
    }
}

// The end of a node with its nested parts: tags 7 to 10 have such.
#[cycle(continuation_end_continuation_with_handler_end_expression_end_node_end_part_end_parts_end)]
fn parts_end(
    file: &[u8],
    params: &[u8],
    names: bool,
    level: usize,
    kinds: &[Kind; MAX_SLOTS],
    at: usize,
    node: Tag,
) -> Result<usize, Refusal>
    requires file_len_bound { length file.now ≤ file_limit }
    requires node_at { NodeAt file.now at node }
    ensures { result ≡ parts_end names params.now file.now level kinds.now at node }
{
    match node {
        Tag::Branch { size, next, .. } => {
            part_end(file, params, names, level, kinds, next, size, at + 3)
        }
        Tag::Continuation {
            slot,
            size,
            next,
            ..
        } => { continuation_end(file, params, names, level, kinds, at, slot, size, next) }
        Tag::ContinuationWithHandler {
            slot,
            handler,
            number,
            size,
            next,
            ..
        } => continuation_with_handler_end(
            file, params, names, level, kinds, at, slot, handler, number, size, next,
        ),
        Tag::DifferenceOrRaise { size, next, .. } => {
            part_end(file, params, names, level, kinds, next, size, at + 4)
        }
        _ => parts::fields_end(node),
    }
}

// The nested part of tag 8: the rest, which sees the new slot.
#[cycle(continuation_end_continuation_with_handler_end_expression_end_node_end_part_end_parts_end)]
fn continuation_end(
    file: &[u8],
    params: &[u8],
    names: bool,
    level: usize,
    kinds: &[Kind; MAX_SLOTS],
    at: usize,
    slot: usize,
    size: usize,
    next: usize,
) -> Result<usize, Refusal>
    requires file_len_bound { length file.now ≤ file_limit }
    requires at_lt_next { at < next }
    requires next_in_bounds { next ≤ length file.now }
    ensures { result ≡ part_end names params.now file.now level (bound kinds.now slot Kind.Continuation) (at + 3) next size }
{
    let mut rest = *kinds;
    slots::bind_in(&mut rest, slot, Kind::Continuation);
    part_end(file, params, names, level, &rest, next, size, at + 3)
}

// The nested parts of tag 9: the rest, which sees the new slots, and the handler body behind its length, which sees its parameter instead.
#[cycle(continuation_end_continuation_with_handler_end_expression_end_node_end_part_end_parts_end)]
fn continuation_with_handler_end(
    file: &[u8],
    params: &[u8],
    names: bool,
    level: usize,
    kinds: &[Kind; MAX_SLOTS],
    at: usize,
    slot: usize,
    handler: usize,
    number: Option<usize>,
    size: usize,
    next: usize,
) -> Result<usize, Refusal>
    requires file_len_bound { length file.now ≤ file_limit }
    requires at_lt_next { at < next }
    requires next_in_bounds { next ≤ length file.now }
    ensures { result ≡ continuation_with_handler_end names params.now file.now level kinds.now at slot handler number size next }
{
    let caught = slots::bind_number(*kinds, number);
    let mut rest = *kinds;
    slots::bind_in(&mut rest, slot, Kind::Continuation);
    slots::bind_in(&mut rest, handler, Kind::Handler);
    let last = at + 4;
    let place = last + tag::number_width(file);
    let middle = part_end(file, params, names, level, &rest, next, size, place)?;
    let n = parts::size_at(file, middle)?;
    part_end(file, params, names, level, &caught, middle + 2, n, middle)
}

// A nested part, one level deeper.
#[cycle(continuation_end_continuation_with_handler_end_expression_end_node_end_part_end_parts_end)]
fn part_end(
    file: &[u8],
    params: &[u8],
    names: bool,
    level: usize,
    kinds: &[Kind; MAX_SLOTS],
    at: usize,
    size: usize,
    place: usize,
) -> Result<usize, Refusal>
    requires { length file.now ≤ file_limit }
    ensures { result ≡ part_end names params.now file.now level kinds.now place at size }
{
    parts::level_checked(file, level, at)?;
    let part = expression_end(file, params, names, level + 1, kinds, at);
    parts::measured_end(part, at, size, place)
}

// The body of a function behind its length.
pub fn body_end(
    file: &[u8],
    params: &[u8],
    names: bool,
    kinds: [Kind; MAX_SLOTS],
    at: usize,
) -> Result<usize, Refusal>
    requires { length file.now ≤ file_limit }
    ensures { result ≡ body_end names params.now file.now kinds at }
{
    let size = parts::size_at(file, at)?;
    let start = at + 2;
    let body = expression_end(file, params, names, 0, &kinds, start);
    parts::measured_end(body, start, size, at)
}
