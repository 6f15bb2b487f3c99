// The messages of a section in a plain form: what they come to, and their bytes after what is past.
ghost use Rattle.std.specs.Prelude.{◌≡◌, true, ◌+◌, ◌-◌, ◌≤◌, length};
ghost use Rattle.std.proofs.lemmas.List.Edits.{sets};
ghost use Rattle.model.specs.Item.{body_of, is_fine, items_of};
ghost use Rattle.model.specs.Writing.{event_fits};
ghost use Rattle.writing.specs.Parts.{event_size};
ghost use Rattle.sections.specs.Spans.{span_rows, Playable};
ghost use Rattle.flattening.specs.Parts.{part_bytes, part_last, message_bytes, span_shape, silence, joined, shaped};

use super::gaps::{gap_size, left_of, write_waits};
use items::read_item;
use model::{Event, Outline, ReadItem, Shape, Span, Told, Voice};
use sections::is_message;
use writing::{event_size, write_item};

// One message after a gap. Returns the place after it.
fn write_message(
    voice: Voice,
    body: &[u8],
    gap: u64,
    event: Event,
    out: &mut [u8],
    at: usize,
) -> usize
    requires event_value { event_fits voice body.now event ≡ true }
    requires event_in_bounds { at + length (message_bytes body.now gap event) ≤ length out.old }
    ensures value { result ≡ at + length (message_bytes body.now gap event) }
    ensures out_after { out.new ≡ sets out.old at (message_bytes body.now gap event) }
{
    let middle = write_waits(out, at, gap);
    write_item(voice, body, left_of(gap), event, out, middle)
}

// The messages of a span from a place of lent memory on, each after the gap to the one before. So much has been played before the span,
// and a message before it, if any, was at the step that is past.
pub fn write_messages(
    voice: Voice,
    body: &[u8],
    span: Span,
    before: u64,
    past: u64,
    out: &mut [u8],
    at: usize,
) -> Told
    requires body_len_bound { length body.now ≤ 65536 }
    requires body_value { is_fine (body_of voice body.now) ≡ true }
    requires playable { Playable (items_of voice body.now) (length body.now) span }
    requires before_bound { before ≤ 4611686018427387904 }
    requires past_le_before { past ≤ before }
    requires before_in_bounds { at + length (part_bytes body.now past (span_rows (items_of voice body.now) span before)) ≤ length out.old }
    ensures at_value { result.at ≡ at + length (part_bytes body.now past (span_rows (items_of voice body.now) span before)) }
    ensures past_value { result.past ≡ part_last body.now past (span_rows (items_of voice body.now) span before) }
    ensures out_after { out.new ≡ sets out.old at (part_bytes body.now past (span_rows (items_of voice body.now) span before)) }
{
    let mut here = at;
    let mut last = past;
    let mut count = span.messages;
    let mut place = span.first;
    let mut time = span.past;
    while place < body.len() {
        if count == 0 {
            return Told {
                at: here,
                past: last,
            };
        }
        let Ok(item) = read_item(voice, body, place) else {
            return Told {
                at: here,
                past: last,
            };
        };
        match item {
            ReadItem::Timed {
                duration,
                event,
                next,
            } => {
                place = next;
                time += duration as u64;
                if is_message(event) {
                    let step = before + (time - span.start);
                    here = write_message(voice, body, step - last, event, out, here);
                    last = step;
                    count -= 1;
                }
            }
            ReadItem::EndMark { next } => {
                place = next;
            }
        }
    }
    Told {
        at: here,
        past: last,
    }
}

fn no_message() -> Outline
    ensures { result ≡ silence }
{
    Outline {
        heard: false,
        lead: 0,
        bytes: 0,
        last: 0,
    }
}

// One message more, at a step.
fn join(outline: Outline, step: u64, event: Event) -> Outline
    requires bytes_bound { outline.bytes ≤ 4611686018427387904 }
    requires last_le_step { outline.last ≤ step }
    requires step_bound { step ≤ 4294967296 }
    ensures value { result ≡ joined outline step (event_size event) }
    ensures last_value { result.last ≡ step }
    ensures bytes_bound_2 { result.bytes ≤ outline.bytes + (step + 260) }
{
    let size = event_size(event);
    if outline.heard {
        return Outline {
            heard: true,
            lead: outline.lead,
            bytes: outline.bytes + (gap_size(step - outline.last) + size),
            last: step,
        };
    }
    Outline {
        heard: true,
        lead: step,
        bytes: size,
        last: step,
    }
}

fn shape_in(outline: Outline, lasts: u64) -> Shape
    ensures { result ≡ shaped lasts outline }
{
    Shape {
        heard: outline.heard,
        lead: outline.lead,
        bytes: outline.bytes,
        tail: lasts.saturating_sub(outline.last),
    }
}

// What the messages of a span come to. The body is walked once.
pub fn shape_of(voice: Voice, body: &[u8], span: Span) -> Shape
    requires body_len_bound { length body.now ≤ 65536 }
    requires body_value { is_fine (body_of voice body.now) ≡ true }
    requires playable { Playable (items_of voice body.now) (length body.now) span }
    ensures value { result ≡ span_shape body.now (items_of voice body.now) span }
    ensures bytes_bound { result.bytes ≤ 70915304128512 }
{
    let mut outline = no_message();
    let mut count = span.messages;
    let mut place = span.first;
    let mut time = span.past;
    while place < body.len() {
        if count == 0 {
            return shape_in(outline, span.lasts);
        }
        let Ok(item) = read_item(voice, body, place) else {
            return shape_in(outline, span.lasts);
        };
        match item {
            ReadItem::Timed {
                duration,
                event,
                next,
            } => {
                place = next;
                time += duration as u64;
                if is_message(event) {
                    outline = join(outline, time - span.start, event);
                    count -= 1;
                }
            }
            ReadItem::EndMark { next } => {
                place = next;
            }
        }
    }
    shape_in(outline, span.lasts)
}
