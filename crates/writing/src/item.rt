// One item at a place of lent memory.
ghost use Rattle.std.specs.Prelude.{◌≡◌, true, ◌+◌, ◌≤◌, length};
ghost use Rattle.std.proofs.lemmas.List.Edits.{sets};
ghost use Rattle.model.specs.Duration.{duration_bytes};
ghost use Rattle.model.specs.Writing.{event_fits, timed_bytes, put_answer, put_memory};
ghost use Rattle.writing.specs.Parts.{event_size};

use super::duration::{duration_size, write_duration};
use super::event::{event_size, write_event};
use super::fits::event_fits;
use model::{Event, Unwritten, Voice};

// How many bytes an item takes that can be written.
pub fn item_size(duration: u32, event: Event) -> usize
    ensures { (result ≡ length (duration_bytes duration) + event_size event) × (result ≤ 260) }
{
    duration_size(duration) + event_size(event)
}

// An item that can be written, at a place with room for it. Returns the place after it.
pub fn write_item(
    voice: Voice,
    source: &[u8],
    duration: u32,
    event: Event,
    out: &mut [u8],
    at: usize,
) -> usize
    requires duration_bound { duration ≤ 16511 }
    requires event_value { event_fits voice source.now event ≡ true }
    requires event_in_bounds { at + length (timed_bytes source.now duration event) ≤ length out.old }
    ensures value { result ≡ at + length (timed_bytes source.now duration event) }
    ensures out_after { out.new ≡ sets out.old at (timed_bytes source.now duration event) }
{
    let middle = write_duration(out, at, duration);
    write_event(voice, source, event, out, middle)
}

pub fn put_item(
    voice: Voice,
    source: &[u8],
    duration: u32,
    event: Event,
    out: &mut [u8],
    at: usize,
) -> Result<usize, Unwritten>
    ensures value { result ≡ put_answer voice source.now duration event (length out.old) at }
    ensures out_after { out.new ≡ put_memory voice source.now duration event out.old at }
{
    if 16511 < duration {
        return Err(Unwritten::Unfit);
    }
    if !event_fits(voice, source, event) {
        return Err(Unwritten::Unfit);
    }
    if out.len() < at {
        return Err(Unwritten::Full);
    }
    if out.len() - at < item_size(duration, event) {
        return Err(Unwritten::Full);
    }
    Ok(write_item(voice, source, duration, event, out, at))
}
