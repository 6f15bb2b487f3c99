// ENTRIES for C. The struct equals entries_reply of what giving::entries_of answers, and both tables are what that promises, for any buffer,
// length, row and tables.
ghost use Rattle.std.specs.Prelude.{◌≡◌, length};
ghost use Rattle.model.specs.Answer.{entries_of_track, entries_answer, entries_table, letters_table};
ghost use Rattle.smaf_c.specs.Replies.{entries_reply};

use model::{EntriesAnswer, Refusal};

// What C gets: so many entries, and the letters of the order list among them; or the refusal and its place.
#[repr(C)]
#[derive(Clone, Copy)]
pub struct EntriesReply {
    pub refusal: u32,
    pub place: usize,
    pub count: usize,
    pub letters: usize,
}

impl From<Result<EntriesAnswer, Refusal>> for EntriesReply {
    ghost from_gives = { λ answer reply. reply ≡ entries_reply answer };

    #[tactic(auto, unfolding(crate::specs::Replies::entries_reply))]
    fn from(answer: Result<EntriesAnswer, Refusal>) -> EntriesReply {
        match answer {
            Ok(EntriesAnswer { count, letters }) => EntriesReply {
                refusal: 0,
                place: 0,
                count,
                letters,
            },
            Err(Refusal { number, place }) => EntriesReply {
                refusal: number,
                place,
                count: 0,
                letters: 0,
            },
        }
    }
}

#[unsafe(no_mangle)]
pub extern "C" fn smaf_entries(
    buffer: &[u8],
    n: usize,
    row: usize,
    entries: &mut [u32],
    letters: &mut [u8],
) -> EntriesReply
    ensures value { result ≡ entries_reply (entries_answer (entries_of_track buffer.now n row (length entries.old) (length letters.old))) }
    ensures entries_after { entries.new ≡ entries_table entries.old (entries_of_track buffer.now n row (length entries.old) (length letters.old)) }
    ensures letters_after { letters.new ≡ letters_table letters.old (entries_of_track buffer.now n row (length entries.old) (length letters.old)) }
{
    giving::entries_of(buffer, n, row, entries, letters).into()
}
