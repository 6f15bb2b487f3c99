// FLATTEN for C. The struct equals flatten_reply of what flattening::flatten answers, and the room is what that promises, for any buffer,
// length, row and room.
ghost use Rattle.std.specs.Prelude.{◌≡◌, length};
ghost use Rattle.model.specs.Answer.{flatten_of, flatten_answer, flatten_room};
ghost use Rattle.smaf_c.specs.Replies.{flatten_reply};

use model::Refusal;

// What C gets: so many bytes; or the refusal and its place.
#[repr(C)]
#[derive(Clone, Copy)]
pub struct FlattenReply {
    pub refusal: u32,
    pub place: usize,
    pub length: usize,
}

impl From<Result<usize, Refusal>> for FlattenReply {
    ghost from_gives = { λ answer reply. reply ≡ flatten_reply answer };

    #[tactic(auto, unfolding(crate::specs::Replies::flatten_reply))]
    fn from(answer: Result<usize, Refusal>) -> FlattenReply {
        match answer {
            Ok(length) => FlattenReply {
                refusal: 0,
                place: 0,
                length,
            },
            Err(Refusal { number, place }) => FlattenReply {
                refusal: number,
                place,
                length: 0,
            },
        }
    }
}

#[unsafe(no_mangle)]
pub extern "C" fn smaf_flatten(buffer: &[u8], n: usize, row: usize, room: &mut [u8]) -> FlattenReply
    ensures value { result ≡ flatten_reply (flatten_answer (flatten_of buffer.now n row (length room.old))) }
    ensures room_after { room.new ≡ flatten_room room.old (flatten_of buffer.now n row (length room.old)) }
{
    flattening::flatten(buffer, n, row, room).into()
}
