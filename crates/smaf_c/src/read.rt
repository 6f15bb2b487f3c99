// READ for C. The struct equals read_reply of what reading::read answers, and the table is what that promises, for any buffer, length and
// table.
ghost use Rattle.std.specs.Prelude.{◌≡◌, length};
ghost use Rattle.model.specs.Answer.{read_of, read_answer, read_table};
ghost use Rattle.smaf_c.specs.Replies.{read_reply};

use model::{ReadAnswer, Refusal};

// What C gets: so many rows, the computed check code and whether the file holds it; or the refusal and its place.
#[repr(C)]
#[derive(Clone, Copy)]
pub struct ReadReply {
    pub refusal: u32,
    pub place: usize,
    pub count: usize,
    pub code: u16,
    pub matches: bool,
}

impl From<Result<ReadAnswer, Refusal>> for ReadReply {
    ghost from_gives = { λ answer reply. reply ≡ read_reply answer };

    #[tactic(auto, unfolding(crate::specs::Replies::read_reply))]
    fn from(answer: Result<ReadAnswer, Refusal>) -> ReadReply {
        match answer {
            Ok(read) => ReadReply {
                refusal: 0,
                place: 0,
                count: read.count,
                code: read.code,
                matches: read.matches,
            },
            Err(Refusal { number, place }) => ReadReply {
                refusal: number,
                place,
                count: 0,
                code: 0,
                matches: false,
            },
        }
    }
}

#[unsafe(no_mangle)]
pub extern "C" fn smaf_read(buffer: &[u8], n: usize, rows: &mut [u32]) -> ReadReply
    ensures value { result ≡ read_reply (read_answer (read_of buffer.now n (length rows.old))) }
    ensures rows_after { rows.new ≡ read_table rows.old (read_of buffer.now n (length rows.old)) }
{
    reading::read(buffer, n, rows).into()
}
