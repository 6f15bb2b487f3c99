// WRITE for C. The struct equals write_reply of what arranging::write_file answers, and the room is what that promises, for any two tables and
// any room.
ghost use Rattle.std.specs.Prelude.{◌≡◌, length};
ghost use Rattle.model.specs.Answer.{write_of, write_answer, write_room};
ghost use Rattle.smaf_c.specs.Replies.{write_reply};

use model::Refusal;

// What C gets: so many bytes; or the refusal and its place.
#[repr(C)]
#[derive(Clone, Copy)]
pub struct WriteReply {
    pub refusal: u32,
    pub place: usize,
    pub length: usize,
}

impl From<Result<usize, Refusal>> for WriteReply {
    ghost from_gives = { λ answer reply. reply ≡ write_reply answer };

    #[tactic(auto, unfolding(crate::specs::Replies::write_reply))]
    fn from(answer: Result<usize, Refusal>) -> WriteReply {
        match answer {
            Ok(length) => WriteReply {
                refusal: 0,
                place: 0,
                length,
            },
            Err(Refusal { number, place }) => WriteReply {
                refusal: number,
                place,
                length: 0,
            },
        }
    }
}

#[unsafe(no_mangle)]
pub extern "C" fn smaf_write(numbers: &[u32], bytes: &[u8], room: &mut [u8]) -> WriteReply
    ensures value { result ≡ write_reply (write_answer (write_of numbers.now bytes.now (length room.old))) }
    ensures room_after { room.new ≡ write_room room.old (write_of numbers.now bytes.now (length room.old)) }
{
    arranging::write_file(numbers, bytes, room).into()
}
