// All that stands from an address on, up to an end mark, written in one walk, with nothing counted first: a message has three bytes or more, so tables with
// room for a row in every three bytes of the body have room for all.
ghost use Rattle.std.specs.Prelude.{◌≡◌, true, ◌-◌, ◌/◌, ◌≤◌, length};
ghost use Rattle.std.proofs.lemmas.List.Edits.{sets};
ghost use Rattle.model.specs.Item.{body_of, is_fine, items_of};
ghost use Rattle.model.specs.Points.{is_address};
ghost use Rattle.sections.specs.Spans.{span_from, span_rows, steps_of, words_of};
ghost use Rattle.sections.specs.Reaching.{span_on, Arrived};

use super::Written;
use super::rows::write_rows;
use super::span::{at_head, span_on};
use super::walk::walk_to;
use model::{Reached, Span, Voice};

// From what is reached on, as it was written.
fn span_written(reached: Reached, written: Written) -> Span
    requires { reached.time ≤ written.time }
    ensures { result ≡ span_on reached written.row (written.time - reached.time) }
{
    span_on(reached, written.row, written.time - reached.time)
}

// All from what is reached on.
fn write_on(voice: Voice, body: &[u8], from: Reached, steps: &mut [u64], words: &mut [u32]) -> Span
    requires body_len_bound { length body.now ≤ 65536 }
    requires body_value { is_fine (body_of voice body.now) ≡ true }
    requires arrived { Arrived (items_of voice body.now) (length body.now) from.at from.at from }
    requires body_in_bounds { length body.now / 3 ≤ length steps.old }
    requires body_in_bounds_2 { length body.now / 3 ≤ length words.old }
    ensures value { result ≡ span_from (items_of voice body.now) (length body.now) from.at }
    ensures messages_in_bounds { result.messages ≤ length body.now / 3 }
    ensures steps_after { steps.new ≡ sets steps.old 0 (steps_of (span_rows (items_of voice body.now) result 0)) }
    ensures words_after { words.new ≡ sets words.old 0 (words_of (span_rows (items_of voice body.now) result 0)) }
{
    let bound = span_on(from, body.len(), 0);
    let written = write_rows(voice, body, bound, from.at, 0, steps, words, 0);
    span_written(from, written)
}

pub fn write_from(
    voice: Voice,
    body: &[u8],
    start: usize,
    steps: &mut [u64],
    words: &mut [u32],
) -> Span
    requires body_len_bound { length body.now ≤ 65536 }
    requires body_value { is_fine (body_of voice body.now) ≡ true }
    requires start_value { is_address (items_of voice body.now) (length body.now) start ≡ true }
    requires body_in_bounds { length body.now / 3 ≤ length steps.old }
    requires body_in_bounds_2 { length body.now / 3 ≤ length words.old }
    ensures value { result ≡ span_from (items_of voice body.now) (length body.now) start }
    ensures messages_in_bounds { result.messages ≤ length body.now / 3 }
    ensures steps_after { steps.new ≡ sets steps.old 0 (steps_of (span_rows (items_of voice body.now) result 0)) }
    ensures words_after { words.new ≡ sets words.old 0 (words_of (span_rows (items_of voice body.now) result 0)) }
{
    let from = walk_to(voice, body, at_head(), start, start);
    write_on(voice, body, from, steps, words)
}
