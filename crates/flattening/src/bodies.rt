// The plain form of a track from its bodies: of a stream the one section between its points, of phrases the letters of the order list.
ghost use Rattle.std.specs.Prelude.{◌≡◌, true, false, map, ◌≤◌, length};
ghost use Rattle.std.specs.Prelude.{Some};
ghost use Rattle.model.specs.Item.{items_of};
ghost use Rattle.model.specs.Order.{order_of};
ghost use Rattle.model.specs.Answer.{flatten_answer, flatten_room};
ghost use Rattle.playing.specs.Performing.{entries_said, letter_section, Named, Ready};
ghost use Rattle.flattening.specs.Flattening.{bodies_flattened};

use super::order::flatten_order;
use model::{Refusal, Voice, refused};

// A stream is an order of one letter, whichever it is.
pub fn flatten_stream(
    voice: Voice,
    header: usize,
    body: &[u8],
    seek: &[u8],
    room: &mut [u8],
) -> Result<usize, Refusal>
    requires { Ready voice false body.now seek.now }
    ensures value { result ≡ flatten_answer (bodies_flattened voice false header (length room.old) body.now seek.now) }
    ensures room_after { room.new ≡ flatten_room room.old (bodies_flattened voice false header (length room.old) body.now seek.now) }
{
    let spans = [playing::span_of_stream(voice, body, seek); 256];
    let letters = [0u8; 1];
    flatten_order(voice, header, body, spans, &letters, room)
}

fn flatten_letters(
    voice: Voice,
    header: usize,
    body: &[u8],
    seek: &[u8],
    letters: &[u8],
    room: &mut [u8],
) -> Result<usize, Refusal>
    requires ready { Ready voice true body.now seek.now }
    requires letters_len_bound { length letters.now ≤ 65536 }
    requires named { Named (entries_said true seek.now) letters.now }
    requires seek_value { order_of true (items_of voice body.now) (entries_said true seek.now) ≡ Some (map (letter_section (items_of voice body.now) (entries_said true seek.now)) letters.now) }
    ensures value { result ≡ flatten_answer (bodies_flattened voice true header (length room.old) body.now seek.now) }
    ensures room_after { room.new ≡ flatten_room room.old (bodies_flattened voice true header (length room.old) body.now seek.now) }
{
    let found = playing::find_spans(voice, body, seek, letters);
    let spans = found.spans;
    flatten_order(
        voice,
        header,
        body,
        spans,
        playing::letters_heard(letters, found.letters),
        room,
    )
}

pub fn flatten_phrases(
    voice: Voice,
    header: usize,
    body: &[u8],
    seek: &[u8],
    room: &mut [u8],
) -> Result<usize, Refusal>
    requires { Ready voice true body.now seek.now }
    ensures value { result ≡ flatten_answer (bodies_flattened voice true header (length room.old) body.now seek.now) }
    ensures room_after { room.new ≡ flatten_room room.old (bodies_flattened voice true header (length room.old) body.now seek.now) }
{
    let points = playing::points_of(true, seek);
    if !points.ordered {
        return refused(17, header);
    }
    flatten_letters(
        voice,
        header,
        body,
        seek,
        playing::letters_played(seek, points),
        room,
    )
}
