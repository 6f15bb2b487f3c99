// Notes whose duration and gate time have a byte each. Most items are such notes, so they are told from their two numbers, with no event made of them.
ghost use Rattle.std.specs.Prelude.{◌≡◌, ◌+◌, ◌≤◌, length};
ghost use Rattle.std.proofs.lemmas.List.Edits.{sets};
ghost use Rattle.writing.specs.Parts.{ShortNote, is_narrow, is_short_note, is_short, short_bytes};

use items::is_note;
use model::Voice;

// Whether a word says a note with a gate time of one byte.
#[tactic(auto, using(model::proofs::Tests::tests, model::proofs::Tests::junctions), unfolding(crate::specs::Parts::is_narrow))]
pub fn is_narrow(word: u32) -> bool
    ensures { result ≡ is_narrow word }
{
    word / 0x8000000 == 1 && word / 4 % 0x8000 <= 127
}

#[tactic(auto, using(model::proofs::Tests::tests, model::proofs::Tests::junctions, crate::proofs::ShortNotes::note_bits, crate::proofs::ShortNotes::gate_bits), unfolding(crate::specs::Parts::is_short_note))]
fn is_short_note(duration: u32, word: u32) -> bool
    ensures { result ≡ is_short_note duration word }
{
    if 127 < duration {
        return false;
    }
    if word / 0x8000000 != 1 {
        return false;
    }
    if 63 < word / 0x20000 % 256 {
        return false;
    }
    if 127 < word / 4 % 0x8000 {
        return false;
    }
    if word % 4 != 0 {
        return false;
    }
    if !is_note((word / 0x20000 % 16) as u8) {
        return false;
    }
    word / 4 % 0x80 != 0
}

// Whether an item is a short note that a voice can have.
#[tactic(auto, using(crate::proofs::ShortNotes::short_voices))]
pub fn is_short(voice: Voice, duration: u32, word: u32) -> bool
    ensures { result ≡ is_short voice duration word }
{
    match voice {
        Voice::Score => is_short_note(duration, word),
        Voice::Pcm => false,
    }
}

// Three bytes, at a place with room for them. Returns the place after them.
#[tactic(auto, using(crate::proofs::ShortNotes::short_stores))]
pub fn write_short(duration: u32, word: u32, out: &mut [u8], at: usize) -> usize
    requires short_note { ShortNote duration word }
    requires at_in_bounds { at + 3 ≤ length out.old }
    ensures value { result ≡ at + 3 }
    ensures out_after { out.new ≡ sets out.old at (short_bytes duration word) }
{
    out[at] = duration as u8;
    out[at + 1] = (word / 0x2000000 % 4 * 64 + word / 0x20000 % 256) as u8;
    out[at + 2] = (word / 4 % 0x8000) as u8;
    at + 3
}
