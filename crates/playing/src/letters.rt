// The letters of an order list: the span of each phrase that they name is found once, up to where playing stops; its messages and its length
// are added letter by letter, and only then are rows written.
ghost use Rattle.std.specs.Prelude.{◌≡◌, true, ◌≤◌, length, take};
ghost use Rattle.std.proofs.lemmas.List.Edits.{sets};
ghost use Rattle.model.specs.Words.{is_some};
ghost use Rattle.model.specs.Item.{is_fine, body_of, items_of};
ghost use Rattle.model.specs.Seek.{phrase_of};
ghost use Rattle.sections.specs.Spans.{steps_of, words_of};
ghost use Rattle.sections.specs.Taking.{AllBytes};
ghost use Rattle.playing.specs.Performing.{Ready, entries_said, letter_passage, no_span, Named, Found};
ghost use Rattle.playing.specs.Performing.{AllPlayable, AllRise, AllFew, AllShort, messages_together, lasts_together, rows_together, total_of};

use model::{FoundSpans, Passage, Span, Total, Voice};
use sections::Standing;

fn no_span() -> Span
    ensures { result ≡ no_span }
{
    Span {
        first: 0,
        past: 0,
        start: 0,
        messages: 0,
        lasts: 0,
    }
}

// The span of a letter's phrase, and whether playing stops in it.
pub fn passage_of_letter(voice: Voice, body: &[u8], seek: &[u8], letter: u8) -> Passage
    requires ready { Ready voice true body.now seek.now }
    requires seek_value { is_some (phrase_of letter (entries_said true seek.now)) ≡ true }
    ensures { result ≡ letter_passage (items_of voice body.now) (length body.now) (entries_said true seek.now) letter }
{
    match seek::find_phrase(true, seek, letter) {
        Some(phrase) => sections::span_between(
            voice,
            body,
            phrase.start as usize,
            phrase.stop as usize,
        ),
        None => Passage {
            span: no_span(),
            stops: false,
        },
    }
}

// The span of each letter that a list names, found where the letter comes first; no letter is looked at behind the first in whose section
// playing stops.
pub fn find_spans(voice: Voice, body: &[u8], seek: &[u8], letters: &[u8]) -> FoundSpans
    requires ready { Ready voice true body.now seek.now }
    requires letters_len_bound { length letters.now ≤ 65536 }
    requires named { Named (entries_said true seek.now) letters.now }
    ensures { Found (items_of voice body.now) (length body.now) (entries_said true seek.now) letters.now result }
{
    let mut spans = [no_span(); 256];
    let mut known = [false; 256];
    for (i, letter) in letters.iter().enumerate() {
        let slot = *letter as usize;
        if !known[slot] {
            let passage = passage_of_letter(voice, body, seek, *letter);
            let span = passage.span;
            spans[slot] = span;
            known[slot] = true;
            if passage.stops {
                return FoundSpans {
                    spans,
                    letters: i + 1,
                };
            }
        }
    }
    FoundSpans {
        spans,
        letters: letters.len(),
    }
}

// The first so many letters.
pub fn letters_heard<'a>(letters: &'a [u8], count: usize) -> &'a [u8]
    requires { count ≤ length letters.now }
    ensures { result.now ≡ take count letters.now }
{
    &letters[..count]
}

// What the spans of letters come to together.
pub fn add_spans(spans: [Span; 256], letters: &[u8]) -> Total
    requires all_bytes { AllBytes letters.now }
    requires letters_len_bound { length letters.now ≤ 65536 }
    requires all_few { AllFew spans letters.now }
    requires all_short { AllShort spans letters.now }
    ensures { result ≡ total_of spans letters.now }
{
    let mut total = Total { count: 0, end: 0 };
    for letter in letters {
        let span = spans[*letter as usize];
        total.count += span.messages;
        total.end += span.lasts;
    }
    total
}

// The rows of all letters of a list, one section after the other. A section that is played again is copied from where it was written last.
pub fn write_letters(
    voice: Voice,
    body: &[u8],
    spans: [Span; 256],
    letters: &[u8],
    steps: &mut [u64],
    words: &mut [u32],
)
    requires body_len_bound { length body.now ≤ 65536 }
    requires body_value { is_fine (body_of voice body.now) ≡ true }
    requires letters_len_bound { length letters.now ≤ 65536 }
    requires all_playable { AllPlayable (items_of voice body.now) (length body.now) spans letters.now }
    requires all_rise { AllRise (items_of voice body.now) spans letters.now }
    requires letters_bound { lasts_together spans letters.now ≤ 4611686018427387904 }
    requires letters_in_bounds { messages_together spans letters.now ≤ length steps.old }
    requires letters_in_bounds_2 { messages_together spans letters.now ≤ length words.old }
    ensures steps_after { steps.new ≡ sets steps.old 0 (steps_of (rows_together (items_of voice body.now) spans 0 letters.now)) }
    ensures words_after { words.new ≡ sets words.old 0 (words_of (rows_together (items_of voice body.now) spans 0 letters.now)) }
{
    let mut standings = [None; 256];
    let mut at: usize = 0;
    let mut before: u64 = 0;
    for letter in letters {
        let slot = *letter as usize;
        let span = spans[slot];
        sections::write_section(voice, body, span, standings[slot], before, steps, words, at);
        standings[slot] = Some(Standing { row: at, before });
        at += span.messages;
        before += span.lasts;
    }
}
