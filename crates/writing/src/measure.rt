// How many bytes a given item takes, 0 where it cannot be written: measured and checked at once, kind by kind, with no event made of it.
ghost use Rattle.std.specs.Prelude.{◌≡◌, ◌<◌, ◌≤◌, length};
ghost use Rattle.model.specs.Writing.{item_given, kind_in};
ghost use Rattle.writing.specs.Parts.{given_bytes, sound_length, control_length, exclusive_length, event_length};

use super::duration::duration_size;
use super::fits::{exclusive_fits, value_fits};
use super::given::is_key;
use super::word::is_kind;
use items::is_wave;
use model::Voice;

// A note or a wave that is allowed or not.
#[tactic(auto, using(crate::proofs::Lengths::sound_sized, model::proofs::Tests::tests), unfolding(crate::specs::Parts::sound_length))]
fn sound_length(allowed: bool, word: u32) -> usize
    ensures { (result ≡ sound_length allowed word) × (result ≤ 258) }
{
    if !allowed {
        return 0;
    }
    if word % 4 != 0 {
        return 0;
    }
    let gate = word / 4 % 0x8000;
    if gate == 0 {
        return 0;
    }
    if 16511 < gate {
        return 0;
    }
    1 + duration_size(gate)
}

#[tactic(auto, using(crate::proofs::Lengths::control_lengths, model::proofs::Tests::tests), unfolding(crate::specs::Parts::control_length))]
fn control_length(word: u32) -> usize
    ensures { (result ≡ control_length word) × (result ≤ 258) }
{
    if word % 0x20000 != 0 {
        return 0;
    }
    let kind = (word / 0x8000000) as u8;
    if !value_fits(kind, (word / 0x20000 % 256) as u8) {
        return 0;
    }
    if kind < 11 {
        return 3;
    }
    2
}

#[tactic(auto, using(model::proofs::Tests::tests), unfolding(crate::specs::Parts::exclusive_length))]
fn exclusive_length(source: &[u8], word: u32) -> usize
    ensures { (result ≡ exclusive_length source.now word) × (result ≤ 258) }
{
    if word % 8 != 0 {
        return 0;
    }
    let size = (word / 8 % 256) as u8;
    if exclusive_fits(source, (word / 0x800 % 0x10000) as usize, size) {
        return 3 + size as usize;
    }
    0
}

// The bytes of an event without its duration.
#[tactic(auto, using(crate::proofs::Lengths::event_lengths))]
fn event_length(source: &[u8], word: u32) -> usize
    requires { 0 < kind_in word }
    ensures { (result ≡ event_length source.now word) × (result ≤ 258) }
{
    let kind = word / 0x8000000;
    if kind == 1 {
        return sound_length(is_key((word / 0x20000 % 256) as u8), word);
    }
    if kind == 2 {
        return sound_length(is_wave((word / 0x20000 % 256) as u8), word);
    }
    if kind < 14 {
        return control_length(word);
    }
    if kind == 14 {
        return exclusive_length(source, word);
    }
    if word == 0x78000000 {
        return 2;
    }
    0
}

#[tactic(auto, using(crate::proofs::Lengths::item_lengths))]
pub fn given_length(voice: Voice, source: &[u8], duration: u32, word: u32) -> usize
    ensures { (result ≡ length (given_bytes (item_given voice source.now duration word))) × (result ≤ 260) }
{
    if 16511 < duration {
        return 0;
    }
    if word == 0x80000000 {
        if duration == 0 {
            return 4;
        }
        return 0;
    }
    if !is_kind(voice, word / 0x8000000) {
        return 0;
    }
    let length = event_length(source, word);
    if length == 0 {
        return 0;
    }
    duration_size(duration) + length
}
