// The pitch of a note, in semitones from the A of 440 Hz, as model/specs/Pitch defines it in signed numbers. The code counts semitones
// up and semitones down, and subtracts once.
#![tactic(auto)]

mod channels;

ghost use Rattle.std.specs.Prelude.{◌≡◌, true, ◌<◌, pos, ◌-ℤ◌};
ghost use Rattle.model.specs.Event.{is_shift};
ghost use Rattle.model.specs.Pitch.{semitones, pitch_of};

pub use channels::{channel_at, channels_after, channels_at_first};
use items::{is_note, is_shift};
use model::{Pitch, Refusal, refused};

pub fn minus(up: u8, down: u8) -> i32
    ensures { result ≡ pos up -ℤ pos down }
{
    up as i32 - down as i32
}

fn semitones(octave: u8, note: u8, shift: u8) -> i32
    requires octave_bound { octave < 4 }
    requires note_bound { note < 16 }
    requires shift_value { is_shift shift ≡ true }
    ensures { result ≡ semitones octave note shift }
{
    let up = 12 * octave + note;
    if shift <= 0x04 {
        return minus(up + 12 * shift, 33);
    }
    minus(up, 33 + 12 * (shift - 0x80))
}

// Of an event's first byte and a shift value byte.
pub fn pitch_of(byte: u8, shift: u8) -> Result<Pitch, Refusal>
    ensures { result ≡ pitch_of byte shift }
{
    if !is_note(byte % 16) {
        return refused(19, 0);
    }
    if !is_shift(shift) {
        return refused(19, 0);
    }
    Ok(Pitch {
        above: semitones(byte / 16 % 4, byte % 16, shift),
    })
}
