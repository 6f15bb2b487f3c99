// Events: a note or wave, a control of either form, a NOP, an exclusive.
ghost use Rattle.std.specs.Prelude.{◌≡◌, ◌+◌, ◌<◌, length};
ghost use Rattle.model.specs.Event.{is_note, is_wave, is_sound, sound, sound_at, long_kind, short_kind, has_kind, is_shift, is_value, long_at, short_at, formed, control_at, closed_at, exclusive_at, system_at, event_at, standard_value};

use super::duration::read_gate;
use model::{Event, Read, Refusal, Voice, refused};

#[tactic(auto, using(model::proofs::Tests::junctions, model::proofs::Tests::tests), unfolding(model::specs::Event::is_note))]
pub fn is_note(low: u8) -> bool
    ensures { result ≡ is_note low }
{
    1 <= low && low <= 12
}

#[tactic(auto, using(model::proofs::Tests::junctions, model::proofs::Tests::tests), unfolding(model::specs::Event::is_wave))]
pub fn is_wave(low: u8) -> bool
    ensures { result ≡ is_wave low }
{
    1 <= low && low <= 62
}

#[tactic(auto, unfolding(model::specs::Event::is_sound))]
pub fn is_sound(voice: Voice, byte: u8) -> bool
    ensures { result ≡ is_sound voice byte }
{
    match voice {
        Voice::Score => is_note(byte % 16),
        Voice::Pcm => is_wave(byte % 64),
    }
}

#[tactic(auto, unfolding(model::specs::Event::sound))]
fn make_sound(voice: Voice, byte: u8, gate: u32) -> Event
    ensures { result ≡ sound voice byte gate }
{
    match voice {
        Voice::Score => Event::Note {
            channel: byte / 64,
            key: byte % 64,
            gate,
        },
        Voice::Pcm => Event::Wave {
            channel: byte / 64,
            number: byte % 64,
            gate,
        },
    }
}

// A note or wave whose first byte is there.
#[tactic(auto, using(model::proofs::Tests::tests), unfolding(model::specs::Event::sound_at, model::specs::Event::gated))]
fn read_sound(voice: Voice, s: &[u8], at: usize) -> Result<Read<Event>, Refusal>
    requires { at < length s.now }
    ensures { result ≡ sound_at voice s.now at }
{
    let byte = s[at];
    if !is_sound(voice, byte) {
        return refused(21, at);
    }
    let Read { what: value, next } = read_gate(s, at + 1)?;
    Ok(Read {
        what: make_sound(voice, byte, value),
        next,
    })
}

const LONG_KINDS: [u8; 16] = [3, 4, 5, 6, 7, 0, 0, 8, 0, 0, 9, 10, 0, 0, 0, 0];

fn long_kind(low: u8) -> u8
    requires { low < 16 }
    ensures { result ≡ long_kind low }
{
    LONG_KINDS[low as usize]
}

#[tactic(auto, using(model::proofs::Tests::junctions, model::proofs::Tests::tests), unfolding(model::specs::Event::has_kind))]
pub fn has_kind(voice: Voice, kind: u8) -> bool
    ensures { result ≡ has_kind voice kind }
{
    match voice {
        Voice::Score => true,
        Voice::Pcm => 7 <= kind && kind != 11,
    }
}

#[tactic(auto, using(model::proofs::Tests::junctions, model::proofs::Tests::tests), unfolding(model::specs::Event::is_shift))]
pub fn is_shift(value: u8) -> bool
    ensures { result ≡ is_shift value }
{
    value <= 0x04 || (0x81 <= value && value <= 0x84)
}

#[tactic(auto, using(model::proofs::Tests::tests), unfolding(model::specs::Event::is_value))]
pub fn is_value(kind: u8, value: u8) -> bool
    ensures { result ≡ is_value kind value }
{
    match kind {
        4 => true,
        5 => is_shift(value),
        _ => value <= 0x7F,
    }
}

// A control of form 3, whose second byte is there.
#[tactic(auto, using(model::proofs::Tests::junctions, model::proofs::Tests::tests), unfolding(model::specs::Event::long_at))]
fn read_long(
    voice: Voice,
    s: &[u8],
    at: usize,
    channel: u8,
    kind: u8,
) -> Result<Read<Event>, Refusal>
    requires { at + 1 < length s.now }
    ensures { result ≡ long_at voice s.now at channel kind }
{
    if kind == 0 {
        return refused(22, at + 1);
    }
    if !has_kind(voice, kind) {
        return refused(22, at + 1);
    }
    if s.len() <= at + 2 {
        return refused(20, s.len());
    }
    let value = s[at + 2];
    if !is_value(kind, value) {
        return refused(23, at + 2);
    }
    Ok(Read {
        what: Event::Control {
            kind,
            channel,
            value,
        },
        next: at + 3,
    })
}

// A control of another form.
#[tactic(auto, using(model::proofs::Tests::junctions, model::proofs::Tests::tests), unfolding(model::specs::Event::short_at))]
fn read_short(
    voice: Voice,
    at: usize,
    channel: u8,
    kind: u8,
    value: u8,
) -> Result<Read<Event>, Refusal>
    requires { at < 0x8000_0000_0000_0000 }
    ensures { result ≡ short_at voice at channel kind value }
{
    if !has_kind(voice, kind) {
        return refused(22, at + 1);
    }
    if value == 0 {
        return refused(23, at + 1);
    }
    if value == 15 {
        return refused(23, at + 1);
    }
    Ok(Read {
        what: Event::Control {
            kind,
            channel,
            value,
        },
        next: at + 2,
    })
}

// A control whose second byte is given, and there.
#[tactic(auto, using(model::proofs::Tests::tests), unfolding(model::specs::Event::formed))]
fn read_formed(voice: Voice, s: &[u8], at: usize, byte: u8) -> Result<Read<Event>, Refusal>
    requires { at + 1 < length s.now }
    ensures { result ≡ formed voice s.now at byte }
{
    if byte / 16 % 4 == 3 {
        return read_long(voice, s, at, byte / 64, long_kind(byte % 16));
    }
    read_short(voice, at, byte / 64, 13 - byte / 16 % 4, byte % 16)
}

// A control, whose first byte, 00, is there.
#[tactic(auto, using(model::proofs::Tests::tests), unfolding(model::specs::Event::control_at))]
fn read_control(voice: Voice, s: &[u8], at: usize) -> Result<Read<Event>, Refusal>
    requires { at < length s.now }
    ensures { result ≡ control_at voice s.now at }
{
    if s.len() <= at + 1 {
        return refused(20, s.len());
    }
    read_formed(voice, s, at, s[at + 1])
}

// An exclusive of a size, whose FF, F0 and size are there.
#[tactic(auto, using(model::proofs::Tests::tests), unfolding(model::specs::Event::closed_at))]
fn read_closed(s: &[u8], at: usize, size: u8) -> Result<Read<Event>, Refusal>
    requires { at + 2 < length s.now }
    ensures { result ≡ closed_at s.now at size }
{
    if size < 3 {
        return refused(23, at + 2);
    }
    let last = at + 2 + size as usize;
    if s.len() <= last {
        return refused(20, s.len());
    }
    if s[last] != 0xF7 {
        return refused(23, last);
    }
    Ok(Read {
        what: Event::Exclusive { place: at, size },
        next: last + 1,
    })
}

// An exclusive, whose FF and F0 are there.
#[tactic(auto, using(model::proofs::Tests::tests), unfolding(model::specs::Event::exclusive_at))]
pub fn read_exclusive(s: &[u8], at: usize) -> Result<Read<Event>, Refusal>
    requires { at + 1 < length s.now }
    ensures { result ≡ exclusive_at s.now at }
{
    if s.len() <= at + 2 {
        return refused(20, s.len());
    }
    read_closed(s, at, s[at + 2])
}

// A NOP or an exclusive, whose first byte, FF, is there.
#[tactic(auto, using(model::proofs::Tests::tests), unfolding(model::specs::Event::system_at))]
fn read_system(s: &[u8], at: usize) -> Result<Read<Event>, Refusal>
    requires { at < length s.now }
    ensures { result ≡ system_at s.now at }
{
    if s.len() <= at + 1 {
        return refused(20, s.len());
    }
    let byte = s[at + 1];
    if byte == 0x00 {
        return Ok(Read {
            what: Event::Nop,
            next: at + 2,
        });
    }
    if byte == 0xF0 {
        return read_exclusive(s, at);
    }
    refused(22, at + 1)
}

#[tactic(auto, using(model::proofs::Tests::tests), unfolding(model::specs::Event::event_at))]
pub fn read_event(voice: Voice, s: &[u8], at: usize) -> Result<Read<Event>, Refusal>
    ensures { result ≡ event_at voice s.now at }
{
    if s.len() <= at {
        return refused(20, s.len());
    }
    let byte = s[at];
    if byte == 0x00 {
        return read_control(voice, s, at);
    }
    if byte == 0xFF {
        return read_system(s, at);
    }
    read_sound(voice, s, at)
}
