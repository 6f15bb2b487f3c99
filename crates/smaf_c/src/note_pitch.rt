// A note's pitch for C. The struct equals pitch_reply of what pitch::pitch_of answers, for any two bytes.
ghost use Rattle.std.specs.Prelude.{◌≡◌};
ghost use Rattle.model.specs.Pitch.{pitch_of};
ghost use Rattle.smaf_c.specs.Replies.{pitch_reply};

use model::{Pitch, Refusal};

// What C gets: semitones from the A of 440 Hz; or the refusal and its place.
#[repr(C)]
#[derive(Clone, Copy)]
pub struct PitchReply {
    pub refusal: u32,
    pub place: usize,
    pub semitones: i32,
}

impl From<Result<Pitch, Refusal>> for PitchReply {
    ghost from_gives = { λ answer reply. reply ≡ pitch_reply answer };

    #[tactic(auto, unfolding(crate::specs::Replies::pitch_reply))]
    fn from(answer: Result<Pitch, Refusal>) -> PitchReply {
        match answer {
            Ok(Pitch { above }) => PitchReply {
                refusal: 0,
                place: 0,
                semitones: above,
            },
            Err(Refusal { number, place }) => PitchReply {
                refusal: number,
                place,
                semitones: 0,
            },
        }
    }
}

#[unsafe(no_mangle)]
pub extern "C" fn smaf_pitch(byte: u8, shift: u8) -> PitchReply
    ensures { result ≡ pitch_reply (pitch_of byte shift) }
{
    pitch::pitch_of(byte, shift).into()
}
