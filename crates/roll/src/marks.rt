// Where end marks stand in a sequence body, for the picture: the one at which playing stops, and those at the time of a section's stop, which
// are passed.
ghost use Rattle.std.specs.Prelude.{◌≡◌, ◌-◌, true, ◌≤◌, ◌<◌, length};
ghost use Rattle.std.specs.Iterator.{at_most};
ghost use Rattle.playing.specs.Performing.{entries_said, Named, Ready};

use model::{ReadItem, Span, Voice};

// An item as the picture needs it: where it begins and ends, its duration, and what it is.
#[derive(Clone, Copy)]
struct Walked {
    place: usize,
    next: usize,
    duration: u64,
    what: What,
}

#[derive(Clone, Copy, PartialEq, Eq)]
enum What {
    Message,
    Silence,
    EndMark,
}

// The items of a body from a place on, up to its end or to what is none.
#[derive(Drop)]
struct Walk<'a> {
    voice: Voice,
    body: &'a [u8],
    place: usize,
}

impl<'a> Iterator for Walk<'a> {
    type Item = Walked;

    ghost remaining = { λ walk. at_most (length walk.body.now - walk.place) };

    fn next(&mut self) -> Option<Walked> {
        let place = self.place;
        if self.body.len() <= place {
            return None;
        }
        let item = items::read_item(self.voice, self.body, place).ok()?;
        let walked = walked_at(place, item);
        if walked.next <= place {
            return None;
        }
        self.place = walked.next;
        Some(walked)
    }
}

fn walked_at(place: usize, item: ReadItem) -> Walked {
    match item {
        ReadItem::Timed {
            duration,
            event,
            next,
        } => Walked {
            place,
            next,
            duration: duration as u64,
            what: if sections::is_message(event) {
                What::Message
            } else {
                What::Silence
            },
        },
        ReadItem::EndMark { next } => Walked {
            place,
            next,
            duration: 0,
            what: What::EndMark,
        },
    }
}

fn walk_from<'a>(voice: Voice, body: &'a [u8], place: usize) -> Walk<'a> {
    Walk { voice, body, place }
}

// The place after the first end mark from a place on.
pub fn after_mark(voice: Voice, body: &[u8], from: usize) -> Option<usize> {
    let mark = walk_from(voice, body, from).find(|item| item.what == What::EndMark)?;
    Some(mark.next)
}

// How many messages stand from a place up to another.
pub fn messages_between(voice: Voice, body: &[u8], from: usize, to: usize) -> usize {
    walk_from(voice, body, from)
        .take_while(|item| item.place < to)
        .filter(|item| item.what == What::Message)
        .count()
}

// Whether an end mark stands at the time at which a span ends. One that lasts no time, as that of a letter without a section, has no room in
// the picture.
pub fn ends_at_mark(voice: Voice, body: &[u8], span: Span) -> bool {
    if span.lasts == 0 {
        return false;
    }
    let end = span.start.saturating_add(span.lasts);
    let mut time = span.past;
    for item in walk_from(voice, body, span.first) {
        time = time.saturating_add(item.duration);
        if end < time {
            return false;
        }
        if item.what == What::EndMark && time == end {
            return true;
        }
    }
    false
}

// The letters at the end of whose sections an end mark stands.
pub fn marked_letters(voice: Voice, body: &[u8], spans: [Span; 256]) -> [bool; 256] {
    spans.map(|span| ends_at_mark(voice, body, span))
}

// Whether playing stops at an end mark in the section of a letter.
fn stops_at(voice: Voice, body: &[u8], seek: &[u8], letters: &[u8], i: usize) -> bool
    requires ready { Ready voice true body.now seek.now }
    requires named { Named (entries_said true seek.now) letters.now }
    requires i_in_bounds { i < length letters.now }
{
    playing::passage_of_letter(voice, body, seek, letters[i]).stops
}

// How many of the letters that are heard play to the end of their section: all, or all but the last, where playing stops in that.
pub fn count_whole(voice: Voice, body: &[u8], seek: &[u8], letters: &[u8], heard: usize) -> usize
    requires ready { Ready voice true body.now seek.now }
    requires named { Named (entries_said true seek.now) letters.now }
    requires heard_in_bounds { heard ≤ length letters.now }
    ensures { result ≤ heard }
{
    if heard == 0 {
        return 0;
    }
    let last = heard - 1;
    if stops_at(voice, body, seek, letters, last) {
        return last;
    }
    heard
}
