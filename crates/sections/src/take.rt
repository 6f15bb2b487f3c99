// An item of a body that is known to read, taken as plain numbers. A note or wave after a duration of one byte, as most items are, is told from
// the bytes alone, with nothing tested that a body which reads has passed; all others are read.
ghost use Rattle.std.specs.Prelude.{◌≡◌, ◌<◌, ◌≤◌, length};
ghost use Rattle.model.specs.Event.{sound, sound_at};
ghost use Rattle.model.specs.Item.{item_at};
ghost use Rattle.model.specs.Word.{word_of};
ghost use Rattle.sections.specs.Taking.{AllBytes, taken_as, taken_mark, EventAgrees, ItemAgrees};

use super::Taken;
use super::word::{pack, word_of};
use items::{read_gate, read_item};
use model::{ReadItem, Voice};

fn taken(next: usize, duration: u32, word: u32) -> Taken
    ensures { result ≡ taken_as next duration word }
{
    Taken {
        next,
        duration,
        word,
        mark: false,
    }
}

fn taken_mark(next: usize, duration: u32) -> Taken
    ensures { result ≡ taken_mark next duration }
{
    Taken {
        next,
        duration,
        word: 0,
        mark: true,
    }
}

// The word of a note or wave.
fn sound_word(voice: Voice, byte: u8, gate: u32) -> u32
    requires { gate < 32768 }
    ensures { result ≡ word_of (sound voice byte gate) }
{
    match voice {
        Voice::Score => pack(1, byte / 64, byte % 64, gate),
        Voice::Pcm => pack(2, byte / 64, byte % 64, gate),
    }
}

// A note or wave whose first byte is there.
fn take_sound(voice: Voice, s: &[u8], at: usize, duration: u8) -> Taken
    requires all_bytes { AllBytes s.now }
    requires at_in_bounds { at < length s.now }
    ensures { EventAgrees duration result (sound_at voice s.now at) }
{
    let byte = s[at];
    match read_gate(s, at + 1) {
        Ok(gate) => taken(
            gate.next,
            duration as u32,
            sound_word(voice, byte, gate.what),
        ),
        Err(_) => taken(0, 0, 0),
    }
}

fn take_read(voice: Voice, s: &[u8], at: usize) -> Taken
    requires all_bytes { AllBytes s.now }
    requires s_len_bound { length s.now ≤ 65536 }
    ensures { ItemAgrees result (item_at voice s.now at) }
{
    match read_item(voice, s, at) {
        Ok(
            ReadItem::Timed {
                duration,
                event,
                next,
            },
        ) => taken(next, duration, word_of(event)),
        Ok(ReadItem::EndMark { next }) => taken_mark(next, 0),
        Err(_) => taken(0, 0, 0),
    }
}

pub fn take_item(voice: Voice, s: &[u8], at: usize) -> Taken
    requires all_bytes { AllBytes s.now }
    requires s_len_bound { length s.now ≤ 65536 }
    requires at_in_bounds { at < length s.now }
    ensures { ItemAgrees result (item_at voice s.now at) }
{
    let next = at + 1;
    if s.len() <= next {
        return take_read(voice, s, at);
    }
    let duration = s[at];
    if 128 <= duration {
        return take_read(voice, s, at);
    }
    let byte = s[next];
    if byte == 0x00 {
        return take_read(voice, s, at);
    }
    if byte == 0xFF {
        return take_read(voice, s, at);
    }
    take_sound(voice, s, next, duration)
}
