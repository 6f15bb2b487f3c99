// A stream: one section, between its points.
ghost use Rattle.std.specs.Prelude.{◌≡◌, false, ◌/◌, ◌≤◌, min, length};
ghost use Rattle.model.specs.Words.{◌otherwise◌};
ghost use Rattle.model.specs.Item.{items_of};
ghost use Rattle.model.specs.Seek.{points_said, start_point, stop_point};
ghost use Rattle.model.specs.Order.{stream_section};
ghost use Rattle.model.specs.Answer.{play_answer, steps_table, words_table};
ghost use Rattle.sections.specs.Spans.{span_of, Small};
ghost use Rattle.playing.specs.Performing.{entries_said, Formed, Ready, heard};

use model::{PlayAnswer, Points, Refusal, Span, Voice, refused};

// What the seek body says of points and order list; a track without one has none.
pub fn points_of(phrases: bool, seek: &[u8]) -> Points
    requires seek_len_bound { length seek.now ≤ 65536 }
    requires formed { Formed phrases seek.now }
    ensures { result ≡ points_said (entries_said phrases seek.now) }
{
    if seek.is_empty() {
        return Points {
            starts: false,
            start: 0,
            stops: false,
            stop: 0,
            ordered: false,
            order: 0,
            letters: 0,
        };
    }
    seek::read_points(phrases, seek)
}

// From its start point, or its head, to its stop point, or without an end.
pub fn span_of_stream(voice: Voice, body: &[u8], seek: &[u8]) -> Span
    requires { Ready voice false body.now seek.now }
    ensures value { result ≡ span_of (items_of voice body.now) (length body.now) (stream_section (items_of voice body.now) (start_point (entries_said false seek.now) otherwise 0) (stop_point (entries_said false seek.now))) }
    ensures small { Small (length body.now) result }
{
    let points = points_of(false, seek);
    if points.stops {
        return sections::span_between(
            voice,
            body,
            points.start as usize,
            points.stop as usize,
        ).span;
    }
    sections::span_from(voice, body, points.start as usize)
}

// The section is counted before it is written.
fn play_counted(
    voice: Voice,
    header: usize,
    body: &[u8],
    seek: &[u8],
    steps: &mut [u64],
    words: &mut [u32],
) -> Result<PlayAnswer, Refusal>
    requires { Ready voice false body.now seek.now }
    ensures value { result ≡ play_answer (heard voice false header (min (length steps.old) (length words.old)) body.now seek.now) }
    ensures steps_after { steps.new ≡ steps_table steps.old (heard voice false header (min (length steps.old) (length words.old)) body.now seek.now) }
    ensures words_after { words.new ≡ words_table words.old (heard voice false header (min (length steps.old) (length words.old)) body.now seek.now) }
{
    let span = span_of_stream(voice, body, seek);
    if steps.len().min(words.len()) < span.messages {
        return refused(15, header);
    }
    sections::write_span(voice, body, span, 0, steps, words, 0);
    Ok(PlayAnswer {
        count: span.messages,
        end: span.lasts,
    })
}

// In tables with room for a message in every three bytes of the body: nothing is counted first where there is no stop point.
fn play_roomy(
    voice: Voice,
    header: usize,
    body: &[u8],
    seek: &[u8],
    steps: &mut [u64],
    words: &mut [u32],
) -> Result<PlayAnswer, Refusal>
    requires ready { Ready voice false body.now seek.now }
    requires body_in_bounds { length body.now / 3 ≤ length steps.old }
    requires body_in_bounds_2 { length body.now / 3 ≤ length words.old }
    ensures value { result ≡ play_answer (heard voice false header (min (length steps.old) (length words.old)) body.now seek.now) }
    ensures steps_after { steps.new ≡ steps_table steps.old (heard voice false header (min (length steps.old) (length words.old)) body.now seek.now) }
    ensures words_after { words.new ≡ words_table words.old (heard voice false header (min (length steps.old) (length words.old)) body.now seek.now) }
{
    let points = points_of(false, seek);
    if points.stops {
        return play_counted(voice, header, body, seek, steps, words);
    }
    let span = sections::write_from(voice, body, points.start as usize, steps, words);
    Ok(PlayAnswer {
        count: span.messages,
        end: span.lasts,
    })
}

pub fn play_stream(
    voice: Voice,
    header: usize,
    body: &[u8],
    seek: &[u8],
    steps: &mut [u64],
    words: &mut [u32],
) -> Result<PlayAnswer, Refusal>
    requires { Ready voice false body.now seek.now }
    ensures value { result ≡ play_answer (heard voice false header (min (length steps.old) (length words.old)) body.now seek.now) }
    ensures steps_after { steps.new ≡ steps_table steps.old (heard voice false header (min (length steps.old) (length words.old)) body.now seek.now) }
    ensures words_after { words.new ≡ words_table words.old (heard voice false header (min (length steps.old) (length words.old)) body.now seek.now) }
{
    if steps.len().min(words.len()) < body.len() / 3 {
        return play_counted(voice, header, body, seek, steps, words);
    }
    play_roomy(voice, header, body, seek, steps, words)
}
