// The rows of a section's span, in two lent tables, of steps and of words.
ghost use Rattle.std.specs.Prelude.{◌≡◌, true, ◌+◌, ◌≤◌, ◌<◌, length, set};
ghost use Rattle.std.proofs.lemmas.List.Edits.{sets};
ghost use Rattle.model.specs.Item.{body_of, is_fine, items_of};
ghost use Rattle.sections.specs.Spans.{items_through, span_rows, steps_of, words_of, Begun, Ended, Playable};

use super::Written;
use super::take::take_item;
use super::walk::ends_here;
use model::{Span, Voice};

fn write_row(step: u64, word: u32, steps: &mut [u64], words: &mut [u32], row: usize)
    requires row_in_bounds { row < length steps.old }
    requires row_in_bounds_2 { row < length words.old }
    ensures steps_after { steps.new ≡ set steps.old row step }
    ensures words_after { words.new ≡ set words.old row word }
{
    steps[row] = step;
    words[row] = word;
}

// The rows of a span from an index on, where so much has been played before: of as many messages as it says, or of all where there are fewer
// from there on, up to the first end mark that stands from a place on.
pub fn write_rows(
    voice: Voice,
    body: &[u8],
    span: Span,
    marks: usize,
    before: u64,
    steps: &mut [u64],
    words: &mut [u32],
    at: usize,
) -> Written
    requires body_len_bound { length body.now ≤ 65536 }
    requires body_value { is_fine (body_of voice body.now) ≡ true }
    requires begun { Begun (items_of voice body.now) (length body.now) span }
    requires first_le_marks { span.first ≤ marks }
    requires before_bound { before ≤ 4611686018427387904 }
    requires messages_bound { at + span.messages < 18446744073709551616 }
    requires before_in_bounds { at + length (span_rows (items_through marks (items_of voice body.now)) span before) ≤ length steps.old }
    requires before_in_bounds_2 { at + length (span_rows (items_through marks (items_of voice body.now)) span before) ≤ length words.old }
    ensures steps_after { steps.new ≡ sets steps.old at (steps_of (span_rows (items_through marks (items_of voice body.now)) span before)) }
    ensures words_after { words.new ≡ sets words.old at (words_of (span_rows (items_through marks (items_of voice body.now)) span before)) }
    ensures ended { Ended (items_through marks (items_of voice body.now)) span before at result }
{
    let end = at + span.messages;
    let mut row = at;
    let mut place = span.first;
    let mut time = span.past;
    while place < body.len() {
        if row == end {
            return Written { row, time };
        }
        let item = take_item(voice, body, place);
        time += item.duration as u64;
        if item.word != 0 {
            write_row(before + (time - span.start), item.word, steps, words, row);
            row += 1;
        } else if ends_here(item.mark, marks, place) {
            return Written { row, time };
        }
        place = item.next;
    }
    Written { row, time }
}

// The rows of a span from an index on, where so much has been played before.
pub fn write_span(
    voice: Voice,
    body: &[u8],
    span: Span,
    before: u64,
    steps: &mut [u64],
    words: &mut [u32],
    at: usize,
)
    requires body_len_bound { length body.now ≤ 65536 }
    requires body_value { is_fine (body_of voice body.now) ≡ true }
    requires playable { Playable (items_of voice body.now) (length body.now) span }
    requires before_bound { before ≤ 4611686018427387904 }
    requires messages_in_bounds { at + span.messages ≤ length steps.old }
    requires messages_in_bounds_2 { at + span.messages ≤ length words.old }
    ensures steps_after { steps.new ≡ sets steps.old at (steps_of (span_rows (items_of voice body.now) span before)) }
    ensures words_after { words.new ≡ sets words.old at (words_of (span_rows (items_of voice body.now) span before)) }
{
    write_rows(voice, body, span, body.len(), before, steps, words, at);
}
