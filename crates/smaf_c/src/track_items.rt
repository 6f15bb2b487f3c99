// ITEMS for C. The struct equals items_reply of what giving::items_of answers, and the table is what that promises, for any buffer, length, row
// and table.
ghost use Rattle.std.specs.Prelude.{◌≡◌, length};
ghost use Rattle.model.specs.Answer.{items_of_track, items_answer, items_table};
ghost use Rattle.smaf_c.specs.Replies.{items_reply};

use model::Refusal;

// What C gets: so many items; or the refusal and its place.
#[repr(C)]
#[derive(Clone, Copy)]
pub struct ItemsReply {
    pub refusal: u32,
    pub place: usize,
    pub count: usize,
}

impl From<Result<usize, Refusal>> for ItemsReply {
    ghost from_gives = { λ answer reply. reply ≡ items_reply answer };

    #[tactic(auto, unfolding(crate::specs::Replies::items_reply))]
    fn from(answer: Result<usize, Refusal>) -> ItemsReply {
        match answer {
            Ok(count) => ItemsReply {
                refusal: 0,
                place: 0,
                count,
            },
            Err(Refusal { number, place }) => ItemsReply {
                refusal: number,
                place,
                count: 0,
            },
        }
    }
}

#[unsafe(no_mangle)]
pub extern "C" fn smaf_items(buffer: &[u8], n: usize, row: usize, items: &mut [u32]) -> ItemsReply
    ensures value { result ≡ items_reply (items_answer (items_of_track buffer.now n row (length items.old))) }
    ensures after { items.new ≡ items_table items.old (items_of_track buffer.now n row (length items.old)) }
{
    giving::items_of(buffer, n, row, items).into()
}
