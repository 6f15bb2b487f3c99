// Words of items as they are given to be written.
ghost use Rattle.std.specs.Prelude.{◌≡◌};
ghost use Rattle.model.specs.Words.{◌≡?◌};
ghost use Rattle.model.specs.Writing.{event_in, event_word, is_kind};

use model::{Event, Voice};

// The event that a word says.
#[tactic(auto, using(model::proofs::Tests::tests, model::proofs::Tests::junctions), unfolding(model::specs::Writing::event_in))]
pub fn event_in(word: u32) -> Event
    ensures { result ≡ event_in word }
{
    let kind = word / 0x8000000;
    if kind == 1 {
        return Event::Note {
            channel: (word / 0x2000000 % 4) as u8,
            key: (word / 0x20000 % 256) as u8,
            gate: word / 4 % 0x8000,
        };
    }
    if kind == 2 {
        return Event::Wave {
            channel: (word / 0x2000000 % 4) as u8,
            number: (word / 0x20000 % 256) as u8,
            gate: word / 4 % 0x8000,
        };
    }
    if kind == 14 {
        return Event::Exclusive {
            place: (word / 0x800 % 0x10000) as usize,
            size: (word / 8 % 256) as u8,
        };
    }
    if kind < 3 {
        return Event::Nop;
    }
    if 13 < kind {
        return Event::Nop;
    }
    Event::Control {
        kind: kind as u8,
        channel: (word / 0x2000000 % 4) as u8,
        value: (word / 0x20000 % 256) as u8,
    }
}

// Whether a word has no bits but those of its event.
#[tactic(auto, using(crate::proofs::WordCases::exact))]
pub fn is_exact(word: u32) -> bool
    ensures { result ≡ (event_word (event_in word) ≡? word) }
{
    let kind = word / 0x8000000;
    if kind == 1 {
        return word % 4 == 0;
    }
    if kind == 2 {
        return word % 4 == 0;
    }
    if kind == 14 {
        return word % 8 == 0;
    }
    if kind < 3 {
        return false;
    }
    if 13 < kind {
        return word == 0x78000000;
    }
    word % 0x20000 == 0
}

// The kinds of a voice.
#[tactic(auto, using(crate::proofs::WordCases::kinds))]
pub fn is_kind(voice: Voice, kind: u32) -> bool
    ensures { result ≡ is_kind voice kind }
{
    match voice {
        Voice::Score => {
            if kind < 1 {
                return false;
            }
            if kind == 2 {
                return false;
            }
            kind <= 16
        }
        Voice::Pcm => {
            if kind == 2 {
                return true;
            }
            if kind < 7 {
                return false;
            }
            if kind == 11 {
                return false;
            }
            kind <= 16
        }
    }
}
