// Which events can be written: those that the readers of a voice give.
ghost use Rattle.std.specs.Prelude.{◌≡◌};
ghost use Rattle.model.specs.Writing.{is_gate, note_fits, wave_fits, value_fits, control_fits, exclusive_fits, event_fits};

use items::{has_kind, is_note, is_value, is_wave};
use model::{Event, Voice};

#[tactic(auto, using(model::proofs::Tests::tests, model::proofs::Tests::junctions), unfolding(model::specs::Writing::is_gate))]
fn is_gate(gate: u32) -> bool
    ensures { result ≡ is_gate gate }
{
    1 <= gate && gate <= 16511
}

#[tactic(auto, using(model::proofs::Tests::tests, model::proofs::Tests::junctions, crate::proofs::Cases::voices))]
fn note_fits(voice: Voice, channel: u8, key: u8, gate: u32) -> bool
    ensures { result ≡ note_fits voice channel key gate }
{
    match voice {
        Voice::Score => {
            if 3 < channel {
                return false;
            }
            if 63 < key {
                return false;
            }
            if !is_note(key % 16) {
                return false;
            }
            is_gate(gate)
        }
        Voice::Pcm => false,
    }
}

#[tactic(auto, using(model::proofs::Tests::tests, model::proofs::Tests::junctions, crate::proofs::Cases::voices))]
fn wave_fits(voice: Voice, channel: u8, number: u8, gate: u32) -> bool
    ensures { result ≡ wave_fits voice channel number gate }
{
    match voice {
        Voice::Score => false,
        Voice::Pcm => {
            if 3 < channel {
                return false;
            }
            if !is_wave(number) {
                return false;
            }
            is_gate(gate)
        }
    }
}

#[tactic(auto, using(model::proofs::Tests::tests, model::proofs::Tests::junctions), unfolding(model::specs::Writing::value_fits))]
pub fn value_fits(kind: u8, value: u8) -> bool
    ensures { result ≡ value_fits kind value }
{
    if kind < 11 {
        return is_value(kind, value);
    }
    1 <= value && value <= 14
}

#[tactic(auto, using(model::proofs::Tests::tests, model::proofs::Tests::junctions), unfolding(model::specs::Writing::control_fits))]
fn control_fits(voice: Voice, kind: u8, channel: u8, value: u8) -> bool
    ensures { result ≡ control_fits voice kind channel value }
{
    if 3 < channel {
        return false;
    }
    if kind < 3 {
        return false;
    }
    if 13 < kind {
        return false;
    }
    if !has_kind(voice, kind) {
        return false;
    }
    value_fits(kind, value)
}

#[tactic(auto, using(model::proofs::Tests::tests, model::proofs::Tests::junctions, crate::proofs::Cases::sources), unfolding(model::specs::Writing::exclusive_fits))]
pub fn exclusive_fits(source: &[u8], place: usize, size: u8) -> bool
    ensures { result ≡ exclusive_fits source.now place size }
{
    if size < 3 {
        return false;
    }
    let whole = size as usize + 3;
    if source.len() < whole {
        return false;
    }
    if source.len() - whole < place {
        return false;
    }
    source[place + 2 + size as usize] == 0xF7
}

#[tactic(auto, using(crate::proofs::Cases::events))]
pub fn event_fits(voice: Voice, source: &[u8], event: Event) -> bool
    ensures { result ≡ event_fits voice source.now event }
{
    match event {
        Event::Nop => true,
        Event::Note { channel, key, gate } => note_fits(voice, channel, key, gate),
        Event::Wave {
            channel,
            number,
            gate,
        } => wave_fits(voice, channel, number, gate),
        Event::Control {
            kind,
            channel,
            value,
        } => control_fits(voice, kind, channel, value),
        Event::Exclusive { place, size } => exclusive_fits(source, place, size),
    }
}
