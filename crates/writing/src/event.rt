// Events that can be written, at a place with room for them. Each writer returns the place after the event, and leaves all else as it was.
ghost use Rattle.std.specs.Prelude.{◌≡◌, true, ◌+◌, ◌≤◌, ◌<◌, length};
ghost use Rattle.std.proofs.lemmas.List.Edits.{sets};
ghost use Rattle.model.specs.Bytes.{part};
ghost use Rattle.model.specs.Content.{content_of, code_of, control_bytes, content_bytes};
ghost use Rattle.model.specs.Writing.{event_fits};
ghost use Rattle.writing.specs.Parts.{SoundFit, ControlFit, sound_bytes, exclusive_bytes, event_size};

use super::duration::{duration_size, write_duration};
use model::{Event, Voice};

// How many bytes an event takes that can be written.
#[tactic(auto, using(crate::proofs::Events::sizes))]
pub fn event_size(event: Event) -> usize
    ensures { (result ≡ event_size event) × (result ≤ 258) }
{
    match event {
        Event::Nop => 2,
        Event::Note { gate, .. } => 1 + duration_size(gate),
        Event::Wave { gate, .. } => 1 + duration_size(gate),
        Event::Control { kind, .. } => { if kind < 11 { 3 } else { 2 } }
        Event::Exclusive { size, .. } => 3 + size as usize,
    }
}

// A note or a wave.
fn write_sound(channel: u8, low: u8, gate: u32, out: &mut [u8], at: usize) -> usize
    requires sound_fit { SoundFit channel low gate }
    requires gate_in_bounds { at + length (sound_bytes channel low gate) ≤ length out.old }
    ensures value { result ≡ at + length (sound_bytes channel low gate) }
    ensures out_after { out.new ≡ sets out.old at (sound_bytes channel low gate) }
{
    out[at] = channel * 64 + low;
    write_duration(out, at + 1, gate)
}

const CODES: [u8; 11] = [0, 0, 0, 0x0, 0x1, 0x2, 0x3, 0x4, 0x7, 0xA, 0xB];

fn code_of(kind: u8) -> u8
    requires { kind < 11 }
    ensures { (result ≡ code_of kind) × (result < 16) }
{
    CODES[kind as usize]
}

fn write_control(kind: u8, channel: u8, value: u8, out: &mut [u8], at: usize) -> usize
    requires control_fit { ControlFit kind channel value }
    requires value_in_bounds { at + length (control_bytes kind channel value) ≤ length out.old }
    ensures value { result ≡ at + length (control_bytes kind channel value) }
    ensures out_after { out.new ≡ sets out.old at (control_bytes kind channel value) }
{
    if kind < 11 {
        let code = code_of(kind);
        out[at] = 0x00;
        out[at + 1] = channel * 64 + 3 * 16 + code;
        out[at + 2] = value;
        return at + 3;
    }
    out[at] = 0x00;
    out[at + 1] = channel * 64 + (13 - kind) * 16 + value;
    at + 2
}

// So many bytes of the source from a place on. Byte by byte, since they are few: with `copy_from_slice` a mixed file is
// written in 1.28 times what the baseline takes, so in 1.21.
pub fn copy_part(source: &[u8], from: usize, count: usize, out: &mut [u8], at: usize) -> usize
    requires count_in_bounds { from + count ≤ length source.now }
    requires count_in_bounds_2 { at + count ≤ length out.old }
    ensures value { result ≡ at + count }
    ensures out_after { out.new ≡ sets out.old at (part source.now from count) }
{
    let mut i: usize = 0;
    while i < count {
        out[at + i] = source[from + i];
        i += 1;
    }
    at + count
}

// An exclusive that stands in the source: its head anew, and its bytes from maker to F7 as they are.
fn write_exclusive(source: &[u8], place: usize, size: u8, out: &mut [u8], at: usize) -> usize
    requires size_in_bounds { place + 3 + size ≤ length source.now }
    requires size_in_bounds_2 { at + length (exclusive_bytes source.now place size) ≤ length out.old }
    ensures value { result ≡ at + length (exclusive_bytes source.now place size) }
    ensures out_after { out.new ≡ sets out.old at (exclusive_bytes source.now place size) }
{
    out[at] = 0xFF;
    out[at + 1] = 0xF0;
    out[at + 2] = size;
    copy_part(source, place + 3, size as usize, out, at + 3)
}

pub fn write_event(voice: Voice, source: &[u8], event: Event, out: &mut [u8], at: usize) -> usize
    requires event_value { event_fits voice source.now event ≡ true }
    requires event_in_bounds { at + length (content_bytes (content_of source.now event)) ≤ length out.old }
    ensures value { result ≡ at + length (content_bytes (content_of source.now event)) }
    ensures out_after { out.new ≡ sets out.old at (content_bytes (content_of source.now event)) }
{
    match event {
        Event::Nop => {
            out[at] = 0xFF;
            out[at + 1] = 0x00;
            at + 2
        }
        Event::Note { channel, key, gate } => write_sound(channel, key, gate, out, at),
        Event::Wave {
            channel,
            number,
            gate,
        } => write_sound(channel, number, gate, out, at),
        Event::Control {
            kind,
            channel,
            value,
        } => write_control(kind, channel, value, out, at),
        Event::Exclusive { place, size } => write_exclusive(source, place, size, out, at),
    }
}
