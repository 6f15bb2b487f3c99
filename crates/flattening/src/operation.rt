// FLATTEN: the plain form of the track that a row names, in lent room. The answer and the room are those of model/specs/Answer, for any
// buffer, length, row and room.
ghost use Rattle.std.specs.Prelude.{◌≡◌, true, ◌≤◌, length};
ghost use Rattle.model.specs.Item.{is_fine};
ghost use Rattle.model.specs.File.{contents_of};
ghost use Rattle.model.specs.Answer.{flatten_of, flatten_answer, flatten_room};
ghost use Rattle.playing.specs.Performing.{bytes_in, Inside};
ghost use Rattle.flattening.specs.Flattening.{bodies_flattened, row_flattened};

use super::bodies::{flatten_phrases, flatten_stream};
use model::{Bodies, Refusal, refused};

fn flatten_bodies(s: &[u8], bodies: Bodies, room: &mut [u8]) -> Result<usize, Refusal>
    requires s_len_bound { length s.now ≤ 65536 }
    requires inside { Inside s.now bodies }
    ensures value { result ≡ flatten_answer (bodies_flattened bodies.voice bodies.phrases bodies.header (length room.old) (bytes_in s.now bodies.sequence) (bytes_in s.now bodies.seek)) }
    ensures room_after { room.new ≡ flatten_room room.old (bodies_flattened bodies.voice bodies.phrases bodies.header (length room.old) (bytes_in s.now bodies.sequence) (bytes_in s.now bodies.seek)) }
{
    let voice = bodies.voice;
    let header = bodies.header;
    let sequence = bodies.sequence;
    let sought = bodies.seek;
    let body = playing::bytes_in(s, sequence);
    let seek = playing::bytes_in(s, sought);
    if bodies.phrases {
        return flatten_phrases(voice, header, body, seek, room);
    }
    flatten_stream(voice, header, body, seek, room)
}

fn flatten_row(s: &[u8], row: usize, room: &mut [u8]) -> Result<usize, Refusal>
    requires s_len_bound { length s.now ≤ 65536 }
    requires s_value { is_fine (contents_of s.now) ≡ true }
    ensures value { result ≡ flatten_answer (row_flattened (length room.old) (contents_of s.now) row) }
    ensures room_after { room.new ≡ flatten_room room.old (row_flattened (length room.old) (contents_of s.now) row) }
{
    match playing::open_track(s, row) {
        Some(bodies) => flatten_bodies(s, bodies, room),
        None => refused(16, 0),
    }
}

fn flatten_stated(s: &[u8], row: usize, room: &mut [u8]) -> Result<usize, Refusal>
    requires { length s.now ≤ 65536 }
    ensures value { result ≡ flatten_answer (row_flattened (length room.old) (contents_of s.now) row) }
    ensures room_after { room.new ≡ flatten_room room.old (row_flattened (length room.old) (contents_of s.now) row) }
{
    reading::check_file(s)?;
    flatten_row(s, row, room)
}

pub fn flatten(buffer: &[u8], n: usize, row: usize, room: &mut [u8]) -> Result<usize, Refusal>
    ensures value { result ≡ flatten_answer (flatten_of buffer.now n row (length room.old)) }
    ensures room_after { room.new ≡ flatten_room room.old (flatten_of buffer.now n row (length room.old)) }
{
    if buffer.len() < n {
        return refused(1, 0);
    }
    if 65536 < n {
        return refused(1, 0);
    }
    flatten_stated(&buffer[..n], row, room)
}
