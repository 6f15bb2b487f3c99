// Phrases in the order of their list.
ghost use Rattle.std.specs.Prelude.{◌≡◌, true, map, ◌+◌, ◌-◌, ◌≤◌, min, length};
ghost use Rattle.std.specs.Prelude.{Some};
ghost use Rattle.model.specs.Bytes.{part};
ghost use Rattle.model.specs.Item.{is_fine, body_of, items_of};
ghost use Rattle.model.specs.Order.{order_of};
ghost use Rattle.model.specs.Answer.{play_answer, steps_table, words_table};
ghost use Rattle.playing.specs.Performing.{entries_said, Ready, Listed, last_position, letter_section, Named, Heard, tune_together, fitted, heard};

use super::letters::{add_spans, find_spans, letters_heard, write_letters};
use super::stream::points_of;
use model::{PlayAnswer, Points, Refusal, Span, Voice, refused};

fn last_position(points: Points) -> usize
    ensures { result ≡ last_position points }
{
    if points.stops {
        return points.stop as usize;
    }
    points.letters
}

// The letters that are played: of the order list those from its start up to but without its stop.
pub fn letters_played<'a>(seek: &'a [u8], points: Points) -> &'a [u8]
    requires { Listed seek.now points }
    ensures { result.now ≡ part seek.now (points.order + points.start) (last_position points - points.start) }
{
    let from = points.order + points.start as usize;
    let to = points.order + last_position(points);
    &seek[from..to]
}

// Letters whose spans are known, written where they have room.
fn play_spans(
    voice: Voice,
    header: usize,
    body: &[u8],
    spans: [Span; 256],
    letters: &[u8],
    steps: &mut [u64],
    words: &mut [u32],
) -> Result<PlayAnswer, Refusal>
    requires body_len_bound { length body.now ≤ 65536 }
    requires body_value { is_fine (body_of voice body.now) ≡ true }
    requires heard { Heard (items_of voice body.now) (length body.now) spans letters.now }
    ensures value { result ≡ play_answer (fitted header (min (length steps.old) (length words.old)) (tune_together (items_of voice body.now) spans letters.now)) }
    ensures steps_after { steps.new ≡ steps_table steps.old (fitted header (min (length steps.old) (length words.old)) (tune_together (items_of voice body.now) spans letters.now)) }
    ensures words_after { words.new ≡ words_table words.old (fitted header (min (length steps.old) (length words.old)) (tune_together (items_of voice body.now) spans letters.now)) }
{
    let total = add_spans(spans, letters);
    if steps.len().min(words.len()) < total.count {
        return refused(15, header);
    }
    write_letters(voice, body, spans, letters, steps, words);
    Ok(PlayAnswer {
        count: total.count,
        end: total.end,
    })
}

// The letters of an order, up to the one in whose section playing stops.
fn play_letters(
    voice: Voice,
    header: usize,
    body: &[u8],
    seek: &[u8],
    letters: &[u8],
    steps: &mut [u64],
    words: &mut [u32],
) -> Result<PlayAnswer, Refusal>
    requires ready { Ready voice true body.now seek.now }
    requires letters_len_bound { length letters.now ≤ 65536 }
    requires named { Named (entries_said true seek.now) letters.now }
    requires seek_value { order_of true (items_of voice body.now) (entries_said true seek.now) ≡ Some (map (letter_section (items_of voice body.now) (entries_said true seek.now)) letters.now) }
    ensures value { result ≡ play_answer (heard voice true header (min (length steps.old) (length words.old)) body.now seek.now) }
    ensures steps_after { steps.new ≡ steps_table steps.old (heard voice true header (min (length steps.old) (length words.old)) body.now seek.now) }
    ensures words_after { words.new ≡ words_table words.old (heard voice true header (min (length steps.old) (length words.old)) body.now seek.now) }
{
    let found = find_spans(voice, body, seek, letters);
    let spans = found.spans;
    play_spans(
        voice,
        header,
        body,
        spans,
        letters_heard(letters, found.letters),
        steps,
        words,
    )
}

pub fn play_phrases(
    voice: Voice,
    header: usize,
    body: &[u8],
    seek: &[u8],
    steps: &mut [u64],
    words: &mut [u32],
) -> Result<PlayAnswer, Refusal>
    requires { Ready voice true body.now seek.now }
    ensures value { result ≡ play_answer (heard voice true header (min (length steps.old) (length words.old)) body.now seek.now) }
    ensures steps_after { steps.new ≡ steps_table steps.old (heard voice true header (min (length steps.old) (length words.old)) body.now seek.now) }
    ensures words_after { words.new ≡ words_table words.old (heard voice true header (min (length steps.old) (length words.old)) body.now seek.now) }
{
    let points = points_of(true, seek);
    if !points.ordered {
        return refused(17, header);
    }
    play_letters(
        voice,
        header,
        body,
        seek,
        letters_played(seek, points),
        steps,
        words,
    )
}
