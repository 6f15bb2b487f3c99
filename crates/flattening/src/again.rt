// A section that is written again: its bytes from the first message's event on stand in the memory already, and are copied from there,
// after another gap.
ghost use Rattle.std.specs.Prelude.{◌≡◌, true, ◌++◌, ◌+◌, ◌-◌, ◌≤◌, length};
ghost use Rattle.std.proofs.lemmas.List.Edits.{sets};
ghost use Rattle.model.specs.Bytes.{part};
ghost use Rattle.model.specs.Item.{body_of, is_fine, items_of};
ghost use Rattle.sections.specs.Spans.{span_rows, Playable, SpanRises};
ghost use Rattle.flattening.specs.Parts.{part_bytes, part_last, gap_bytes, span_shape, span_bytes, WrittenWhereKnown};

use super::gaps::write_gap;
use super::section::write_messages;
use model::{Shape, Span, Told, Voice};

// The gap to the first message of a span that is heard, and the bytes after it, which stand from a place on.
fn write_again(
    span: Span,
    shape: Shape,
    place: usize,
    before: u64,
    past: u64,
    out: &mut [u8],
    at: usize,
) -> Told
    requires past_le_before { past ≤ before }
    requires lasts_bound { before + span.lasts ≤ 4611686018427387904 }
    requires lead_le_lasts { shape.lead ≤ span.lasts }
    requires tail_le_lasts { shape.tail ≤ span.lasts }
    requires bytes_bound { place + shape.bytes ≤ at }
    requires bytes_in_bounds { at + (length (gap_bytes (before - past + shape.lead)) + shape.bytes) ≤ length out.old }
    ensures at_value { result.at ≡ at + (length (gap_bytes (before - past + shape.lead)) + shape.bytes) }
    ensures past_value { result.past ≡ before + span.lasts - shape.tail }
    ensures out_after { out.new ≡ sets out.old at (gap_bytes (before - past + shape.lead) ++ part out.old place shape.bytes) }
{
    let middle = write_gap(out, at, before - past + shape.lead);
    out.copy_within(place..place + shape.bytes, middle);
    Told {
        at: middle + shape.bytes,
        past: before + span.lasts - shape.tail,
    }
}

// The messages of a span, as `write_messages` writes them: copied where it is known where they stand.
pub fn write_section(
    voice: Voice,
    body: &[u8],
    span: Span,
    shape: Shape,
    known: Option<usize>,
    before: u64,
    past: u64,
    out: &mut [u8],
    at: usize,
) -> Told
    requires body_len_bound { length body.now ≤ 65536 }
    requires body_value { is_fine (body_of voice body.now) ≡ true }
    requires playable { Playable (items_of voice body.now) (length body.now) span }
    requires shape_value { shape ≡ span_shape body.now (items_of voice body.now) span }
    requires span_rises { SpanRises (items_of voice body.now) span }
    requires lasts_bound { before + span.lasts ≤ 4611686018427387904 }
    requires past_le_before { past ≤ before }
    requires before_in_bounds { at + length (part_bytes body.now past (span_rows (items_of voice body.now) span before)) ≤ length out.old }
    requires written_where_known { WrittenWhereKnown (span_bytes body.now (items_of voice body.now) span) known out.old at }
    ensures at_value { result.at ≡ at + length (part_bytes body.now past (span_rows (items_of voice body.now) span before)) }
    ensures past_value { result.past ≡ part_last body.now past (span_rows (items_of voice body.now) span before) }
    ensures out_after { out.new ≡ sets out.old at (part_bytes body.now past (span_rows (items_of voice body.now) span before)) }
{
    let Some(place) = known else {
        return write_messages(voice, body, span, before, past, out, at);
    };
    if shape.heard {
        return write_again(span, shape, place, before, past, out, at);
    }
    Told { at, past }
}
