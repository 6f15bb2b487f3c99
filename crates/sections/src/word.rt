// Messages, and the 32-bit word of a played row.
ghost use Rattle.std.specs.Prelude.{◌≡◌, ◌<◌};
ghost use Rattle.model.specs.Word.{is_message, packed, packed_exclusive, word_of, InWord};

use model::Event;

#[tactic(auto, using(crate::proofs::Words::nop_message, crate::proofs::Words::no_nop))]
pub fn is_message(event: Event) -> bool
    ensures { result ≡ is_message event }
{
    !matches!(event, Event::Nop)
}

// The word of a note, a wave or a control.
pub fn pack(kind: u8, channel: u8, value: u8, gate: u32) -> u32
    requires kind_bound { kind < 14 }
    requires channel_bound { channel < 4 }
    requires gate_bound { gate < 32768 }
    ensures { result ≡ packed kind channel value gate }
{
    kind as u32 * 0x8000000 + channel as u32 * 0x2000000 + value as u32 * 0x20000 + gate * 4
}

fn pack_exclusive(place: usize, size: u8) -> u32
    requires { place < 65536 }
    ensures { result ≡ packed_exclusive place size }
{
    14 * 0x8000000 + place as u32 * 0x800 + size as u32 * 8
}

pub fn word_of(event: Event) -> u32
    requires { InWord event }
    ensures { result ≡ word_of event }
{
    match event {
        Event::Nop => 0,
        Event::Note { channel, key, gate } => pack(1, channel, key, gate),
        Event::Wave {
            channel,
            number,
            gate,
        } => pack(2, channel, number, gate),
        Event::Control {
            kind,
            channel,
            value,
        } => pack(kind, channel, value, 0),
        Event::Exclusive { place, size } => pack_exclusive(place, size),
    }
}
