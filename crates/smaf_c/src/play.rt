// PLAY for C. The struct equals play_reply of what playing::play answers, and the tables are what that promises, for any buffer, length, row
// and tables.
ghost use Rattle.std.specs.Prelude.{◌≡◌, min, length};
ghost use Rattle.model.specs.Answer.{play_of, play_answer, steps_table, words_table};
ghost use Rattle.smaf_c.specs.Replies.{play_reply};

use model::{PlayAnswer, Refusal};

// What C gets: so many rows, and the step at which the tune ends; or the refusal and its place.
#[repr(C)]
#[derive(Clone, Copy)]
pub struct PlayReply {
    pub refusal: u32,
    pub place: usize,
    pub count: usize,
    pub end: u64,
}

impl From<Result<PlayAnswer, Refusal>> for PlayReply {
    ghost from_gives = { λ answer reply. reply ≡ play_reply answer };

    #[tactic(auto, unfolding(crate::specs::Replies::play_reply))]
    fn from(answer: Result<PlayAnswer, Refusal>) -> PlayReply {
        match answer {
            Ok(PlayAnswer { count, end }) => PlayReply {
                refusal: 0,
                place: 0,
                count,
                end,
            },
            Err(Refusal { number, place }) => PlayReply {
                refusal: number,
                place,
                count: 0,
                end: 0,
            },
        }
    }
}

#[unsafe(no_mangle)]
pub extern "C" fn smaf_play(
    buffer: &[u8],
    n: usize,
    row: usize,
    steps: &mut [u64],
    words: &mut [u32],
) -> PlayReply
    ensures value { result ≡ play_reply (play_answer (play_of buffer.now n row (min (length steps.old) (length words.old)))) }
    ensures steps_after { steps.new ≡ steps_table steps.old (play_of buffer.now n row (min (length steps.old) (length words.old))) }
    ensures words_after { words.new ≡ words_table words.old (play_of buffer.now n row (min (length steps.old) (length words.old))) }
{
    playing::play(buffer, n, row, steps, words).into()
}
