// PLAY: the messages of the track that a row names. The answer and the two tables are those of model/specs/Answer, for any buffer,
// length, row and tables.
ghost use Rattle.std.specs.Prelude.{◌≡◌, true, ◌+◌, ◌≤◌, min, length};
ghost use Rattle.model.specs.Item.{is_fine};
ghost use Rattle.model.specs.File.{contents_of};
ghost use Rattle.model.specs.Answer.{play_of, play_answer, steps_table, words_table};
ghost use Rattle.playing.specs.Performing.{bytes_in, Inside, heard, row_played};

use super::bodies::{bytes_in, open_track};
use super::phrases::play_phrases;
use super::stream::play_stream;
use model::{Bodies, PlayAnswer, Refusal, refused};

fn play_bodies(
    s: &[u8],
    bodies: Bodies,
    steps: &mut [u64],
    words: &mut [u32],
) -> Result<PlayAnswer, Refusal>
    requires s_len_bound { length s.now ≤ 65536 }
    requires inside { Inside s.now bodies }
    ensures value { result ≡ play_answer (heard bodies.voice bodies.phrases bodies.header (min (length steps.old) (length words.old)) (bytes_in s.now bodies.sequence) (bytes_in s.now bodies.seek)) }
    ensures steps_after { steps.new ≡ steps_table steps.old (heard bodies.voice bodies.phrases bodies.header (min (length steps.old) (length words.old)) (bytes_in s.now bodies.sequence) (bytes_in s.now bodies.seek)) }
    ensures words_after { words.new ≡ words_table words.old (heard bodies.voice bodies.phrases bodies.header (min (length steps.old) (length words.old)) (bytes_in s.now bodies.sequence) (bytes_in s.now bodies.seek)) }
{
    let voice = bodies.voice;
    let header = bodies.header;
    let sequence = bodies.sequence;
    let sought = bodies.seek;
    let body = bytes_in(s, sequence);
    let seek = bytes_in(s, sought);
    if bodies.phrases {
        return play_phrases(voice, header, body, seek, steps, words);
    }
    play_stream(voice, header, body, seek, steps, words)
}

fn play_row(
    s: &[u8],
    row: usize,
    steps: &mut [u64],
    words: &mut [u32],
) -> Result<PlayAnswer, Refusal>
    requires s_len_bound { length s.now ≤ 65536 }
    requires s_value { is_fine (contents_of s.now) ≡ true }
    ensures value { result ≡ play_answer (row_played (min (length steps.old) (length words.old)) (contents_of s.now) row) }
    ensures steps_after { steps.new ≡ steps_table steps.old (row_played (min (length steps.old) (length words.old)) (contents_of s.now) row) }
    ensures words_after { words.new ≡ words_table words.old (row_played (min (length steps.old) (length words.old)) (contents_of s.now) row) }
{
    match open_track(s, row) {
        Some(bodies) => play_bodies(s, bodies, steps, words),
        None => refused(16, 0),
    }
}

fn play_stated(
    s: &[u8],
    row: usize,
    steps: &mut [u64],
    words: &mut [u32],
) -> Result<PlayAnswer, Refusal>
    requires { length s.now ≤ 65536 }
    ensures value { result ≡ play_answer (row_played (min (length steps.old) (length words.old)) (contents_of s.now) row) }
    ensures steps_after { steps.new ≡ steps_table steps.old (row_played (min (length steps.old) (length words.old)) (contents_of s.now) row) }
    ensures words_after { words.new ≡ words_table words.old (row_played (min (length steps.old) (length words.old)) (contents_of s.now) row) }
{
    reading::check_file(s)?;
    play_row(s, row, steps, words)
}

pub fn play(
    buffer: &[u8],
    n: usize,
    row: usize,
    steps: &mut [u64],
    words: &mut [u32],
) -> Result<PlayAnswer, Refusal>
    ensures value { result ≡ play_answer (play_of buffer.now n row (min (length steps.old) (length words.old))) }
    ensures steps_after { steps.new ≡ steps_table steps.old (play_of buffer.now n row (min (length steps.old) (length words.old))) }
    ensures words_after { words.new ≡ words_table words.old (play_of buffer.now n row (min (length steps.old) (length words.old))) }
{
    if buffer.len() < n {
        return refused(1, 0);
    }
    if 65536 < n {
        return refused(1, 0);
    }
    play_stated(&buffer[..n], row, steps, words)
}
