// The plain form of an order of letters in lent memory: written where there is room, and refused before that where there is none.
ghost use Rattle.std.specs.Prelude.{◌≡◌, true, ◌≤◌, length};
ghost use Rattle.std.proofs.lemmas.List.Edits.{sets};
ghost use Rattle.model.specs.Item.{body_of, is_fine, items_of};
ghost use Rattle.model.specs.Answer.{flatten_answer, flatten_room};
ghost use Rattle.playing.specs.Performing.{AllPlayable, AllRise, AllShort, lasts_together};
ghost use Rattle.flattening.specs.Orders.{order_bytes, AllShaped, fitted};

use super::again::write_section;
use super::gaps::write_rest;
use super::sizes::measure_order;
use model::{Refusal, Shape, Span, Voice, refused};
use writing::write_end_mark;

// The spans of letters one after the other, each message after the gap to the one before; then the rest and the end mark. A span that comes
// again is copied from where it was written last. Returns how many bytes that is.
pub fn write_order(
    voice: Voice,
    body: &[u8],
    spans: [Span; 256],
    shapes: [Shape; 256],
    letters: &[u8],
    out: &mut [u8],
) -> usize
    requires body_len_bound { length body.now ≤ 65536 }
    requires body_value { is_fine (body_of voice body.now) ≡ true }
    requires letters_len_bound { length letters.now ≤ 65536 }
    requires all_playable { AllPlayable (items_of voice body.now) (length body.now) spans letters.now }
    requires all_rise { AllRise (items_of voice body.now) spans letters.now }
    requires all_shaped { AllShaped body.now (items_of voice body.now) spans shapes letters.now }
    requires letters_bound { lasts_together spans letters.now ≤ 4611686018427387904 }
    requires letters_in_bounds { length (order_bytes body.now (items_of voice body.now) spans 0 0 letters.now) ≤ length out.old }
    ensures value { result ≡ length (order_bytes body.now (items_of voice body.now) spans 0 0 letters.now) }
    ensures out_after { out.new ≡ sets out.old 0 (order_bytes body.now (items_of voice body.now) spans 0 0 letters.now) }
{
    let mut places = [None; 256];
    let mut at: usize = 0;
    let mut before: u64 = 0;
    let mut past: u64 = 0;
    for letter in letters {
        let slot = *letter as usize;
        let span = spans[slot];
        let shape = shapes[slot];
        let told = write_section(
            voice,
            body,
            span,
            shape,
            places[slot],
            before,
            past,
            out,
            at,
        );
        places[slot] = Some(told.at - shape.bytes);
        at = told.at;
        past = told.past;
        before += span.lasts;
    }
    let end = write_rest(out, at, before - past);
    write_end_mark(out, end)
}

// The plain form of an order, where it has room; its size is known before a byte is written.
pub fn flatten_order(
    voice: Voice,
    header: usize,
    body: &[u8],
    spans: [Span; 256],
    letters: &[u8],
    out: &mut [u8],
) -> Result<usize, Refusal>
    requires body_len_bound { length body.now ≤ 65536 }
    requires body_value { is_fine (body_of voice body.now) ≡ true }
    requires letters_len_bound { length letters.now ≤ 65536 }
    requires all_playable { AllPlayable (items_of voice body.now) (length body.now) spans letters.now }
    requires all_rise { AllRise (items_of voice body.now) spans letters.now }
    requires all_short { AllShort spans letters.now }
    ensures value { result ≡ flatten_answer (fitted header (length out.old) (order_bytes body.now (items_of voice body.now) spans 0 0 letters.now)) }
    ensures out_after { out.new ≡ flatten_room out.old (fitted header (length out.old) (order_bytes body.now (items_of voice body.now) spans 0 0 letters.now)) }
{
    let measure = measure_order(voice, body, spans, letters);
    if 65536 < measure.bytes {
        return refused(18, header);
    }
    if out.len() < measure.bytes {
        return refused(18, header);
    }
    let shapes = measure.shapes;
    Ok(write_order(voice, body, spans, shapes, letters, out))
}
