// One item that is given as a duration and a word: what is wrong with it, how many bytes it takes, and its bytes at a place of lent memory.
ghost use Rattle.std.specs.Prelude.{ℕ, ◌≡◌, true, [], ◌∷◌, ◌+◌, ◌%◌, ◌≤◌, length};
ghost use Rattle.std.proofs.lemmas.List.Edits.{sets};
ghost use Rattle.model.specs.Words.{when◌then◌else◌, ◌and◌, ◌≤?◌, refused, passed};
ghost use Rattle.model.specs.Event.{is_note};
ghost use Rattle.model.specs.Item.{is_fine};
ghost use Rattle.model.specs.Writing.{sound_given, event_given, word_given, item_given};
ghost use Rattle.writing.specs.Parts.{checked, given_size, given_bytes};

use super::fits::{exclusive_fits, value_fits};
use super::item::{item_size, write_item};
use super::short::{is_narrow, write_short};
use super::word::{event_in, is_exact, is_kind};
use items::{is_note, is_wave};
use model::{Event, Refusal, Voice, refused};

// A note or a wave that is allowed or not.
#[tactic(auto, using(model::proofs::Tests::tests, model::proofs::Tests::not_on, model::proofs::Tests::not_off), unfolding(model::specs::Writing::sound_given))]
fn check_sound(allowed: bool, gate: u32) -> Result<(), Refusal>
    ensures { result ≡ sound_given allowed gate }
{
    if !allowed {
        return refused(21, 0);
    }
    if gate == 0 {
        return refused(21, 0);
    }
    if 16511 < gate {
        return refused(23, 0);
    }
    Ok(())
}

#[tactic(auto, using(model::proofs::Tests::tests, model::proofs::Tests::junctions))]
pub fn is_key(key: u8) -> bool
    ensures { result ≡ ((key ≤? 63) and is_note (key % 16)) }
{
    key <= 63 && is_note(key % 16)
}

#[tactic(auto, using(model::proofs::Tests::tests))]
fn check_fits(fits: bool) -> Result<(), Refusal>
    ensures { result ≡ (when fits then passed else refused 23 0) }
{
    if fits {
        return Ok(());
    }
    refused(23, 0)
}

fn check_event(source: &[u8], event: Event) -> Result<(), Refusal>
    ensures { result ≡ event_given source.now event }
{
    match event {
        Event::Nop => Ok(()),
        Event::Note { key, gate, .. } => check_sound(is_key(key), gate),
        Event::Wave { number, gate, .. } => check_sound(is_wave(number), gate),
        Event::Control { kind, value, .. } => check_fits(value_fits(kind, value)),
        Event::Exclusive { place, size } => check_fits(exclusive_fits(source, place, size)),
    }
}

fn check_word(source: &[u8], word: u32) -> Result<(), Refusal>
    ensures { (duration : ℕ) → result ≡ checked (word_given source.now duration word) }
{
    check_event(source, event_in(word))?;
    check_fits(is_exact(word))
}

pub fn check_item(voice: Voice, source: &[u8], duration: u32, word: u32) -> Result<(), Refusal>
    ensures { result ≡ checked (item_given voice source.now duration word) }
{
    if 16511 < duration {
        return refused(23, 0);
    }
    let kind = word / 0x8000000;
    if kind == 16 {
        if duration != 0 {
            return refused(23, 0);
        }
        return check_fits(word == 0x80000000);
    }
    if !is_kind(voice, kind) {
        return refused(22, 0);
    }
    check_word(source, word)
}

// How many bytes an item takes that can be written.
#[tactic(auto, using(crate::proofs::GivenItems::given_sizes))]
pub fn given_size(duration: u32, word: u32) -> usize
    ensures { (result ≡ given_size duration word) × (result ≤ 260) }
{
    if word / 0x8000000 == 16 {
        return 4;
    }
    item_size(duration, event_in(word))
}

// Returns the place after the mark.
pub fn write_end_mark(out: &mut [u8], at: usize) -> usize
    requires { at + 4 ≤ length out.old }
    ensures value { result ≡ at + 4 }
    ensures out_after { out.new ≡ sets out.old at (0 ∷ 0 ∷ 0 ∷ 0 ∷ []) }
{
    out[at] = 0;
    out[at + 1] = 0;
    out[at + 2] = 0;
    out[at + 3] = 0;
    at + 4
}

// An item that can be written, at a place with room for it. Returns the place after it.
pub fn write_given(
    voice: Voice,
    source: &[u8],
    duration: u32,
    word: u32,
    out: &mut [u8],
    at: usize,
) -> usize
    requires word_value { is_fine (item_given voice source.now duration word) ≡ true }
    requires word_in_bounds { at + length (given_bytes (item_given voice source.now duration word)) ≤ length out.old }
    ensures value { result ≡ at + length (given_bytes (item_given voice source.now duration word)) }
    ensures out_after { out.new ≡ sets out.old at (given_bytes (item_given voice source.now duration word)) }
{
    if duration < 128 {
        if is_narrow(word) {
            return write_short(duration, word, out, at);
        }
    }
    if word / 0x8000000 == 16 {
        return write_end_mark(out, at);
    }
    write_item(voice, source, duration, event_in(word), out, at)
}
