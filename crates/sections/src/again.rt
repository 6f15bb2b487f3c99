// A section that is played again: its rows stand in the tables already, and are copied from there, at later steps.
ghost use Rattle.std.specs.Prelude.{◌≡◌, true, ◌+◌, ◌≤◌, length};
ghost use Rattle.std.proofs.lemmas.List.Edits.{sets};
ghost use Rattle.model.specs.Bytes.{part};
ghost use Rattle.model.specs.Item.{body_of, is_fine, items_of};
ghost use Rattle.sections.specs.Spans.{span_rows, steps_of, words_of, Playable};
ghost use Rattle.sections.specs.Again.{later, AllFit, StoredWhereKnown};

use super::Standing;
use super::rows::write_span;
use model::{Span, Voice};

// So many steps from an index on, each so much later, to another index behind them.
fn copy_steps(steps: &mut [u64], from: usize, count: usize, more: u64, at: usize)
    requires count_bound { from + count ≤ at }
    requires count_in_bounds { at + count ≤ length steps.old }
    requires all_fit { AllFit more (part steps.old from count) }
    ensures { steps.new ≡ sets steps.old at (later more (part steps.old from count)) }
{
    for i in 0..count {
        steps[at + i] = steps[from + i] + more;
    }
}

// The rows of a span from an index on, where so much has been played before: copied where it is known where they stand.
pub fn write_section(
    voice: Voice,
    body: &[u8],
    span: Span,
    standing: Option<Standing>,
    before: u64,
    steps: &mut [u64],
    words: &mut [u32],
    at: usize,
)
    requires body_len_bound { length body.now ≤ 65536 }
    requires body_value { is_fine (body_of voice body.now) ≡ true }
    requires playable { Playable (items_of voice body.now) (length body.now) span }
    requires lasts_bound { before + span.lasts ≤ 4611686018427387904 }
    requires messages_in_bounds { at + span.messages ≤ length steps.old }
    requires messages_in_bounds_2 { at + span.messages ≤ length words.old }
    requires stored_where_known { StoredWhereKnown (items_of voice body.now) span standing steps.old words.old at before }
    ensures steps_after { steps.new ≡ sets steps.old at (steps_of (span_rows (items_of voice body.now) span before)) }
    ensures words_after { words.new ≡ sets words.old at (words_of (span_rows (items_of voice body.now) span before)) }
{
    let Some(Standing { row, before: first }) = standing else {
        write_span(voice, body, span, before, steps, words, at);
        return;
    };
    let count = span.messages;
    copy_steps(steps, row, count, before - first, at);
    words.copy_within(row..row + count, at);
}
