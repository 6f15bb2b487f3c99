// The lines of a played track, from its head line to its end, and the line of a refusal.
ghost use Rattle.std.specs.Prelude.{◌≡◌, ◌+◌, ◌*◌, ◌≤◌, length, Err};
ghost use Rattle.std.proofs.lemmas.List.Edits.{sets};
ghost use Rattle.model.specs.ListingText.{listing_text};
ghost use Rattle.lines.specs.Fields.{pair_text, rows_text, tune_text, Early};

use super::line::{print_event, shifts_after, write_line};
use super::number::{write_number, write_text};
use model::Refusal;

// A step of a track whose time base has so many milliseconds.
#[tactic(auto, using(crate::proofs::Rowing::milliseconds_fit))]
fn in_milliseconds(step: u64, milliseconds: u32) -> u64
    requires { (step ≤ 368934881474191032) × (milliseconds ≤ 50) }
    ensures { result ≡ step * milliseconds }
{
    step * u64::from(milliseconds)
}

// The lines of so many rows. The shifts are those of the four channels, all 0 before any.
#[tactic(auto, using(crate::proofs::Rowing::rowing))]
fn write_rows(
    out: &mut [u8],
    at: usize,
    steps: &[u64],
    words: &[u32],
    count: usize,
    milliseconds: u32,
) -> usize
    requires count_in_bounds { (count ≤ length steps.now) × (count ≤ length words.now) }
    requires count_in_bounds_2 { at + 118 * count ≤ length out.old }
    requires milliseconds_bound { milliseconds ≤ 50 }
    requires early { Early count steps.now }
    ensures value { result ≡ at + length (rows_text milliseconds count steps.now words.now) }
    ensures within { result ≤ at + 118 * count }
    ensures out_after { out.new ≡ sets out.old at (rows_text milliseconds count steps.now words.now) }
{
    let mut shifts = [0u8; 4];
    let mut place = at;
    for i in 0..count {
        let step = steps[i];
        let event = writing::event_in(words[i]);
        let line = print_event(shifts, step, in_milliseconds(step, milliseconds), event);
        place = write_line(out, place, line);
        let later = shifts_after(shifts, event);
        shifts = later;
    }
    place
}

// A word and two numbers, on one line.
#[tactic(auto, using(crate::proofs::Rowing::pairs))]
fn write_pair(out: &mut [u8], at: usize, word: &[u8], first: u64, second: u64) -> usize
    requires { at + length word.now + 42 ≤ length out.old }
    ensures value { result ≡ at + length (pair_text word.now first second) }
    ensures within { result ≤ at + length word.now + 42 }
    ensures out_after { out.new ≡ sets out.old at (pair_text word.now first second) }
{
    let middle = write_text(out, at, word);
    let last = write_number(out, middle, first, b' ');
    write_number(out, last, second, b'\n')
}

#[tactic(auto, using(crate::proofs::Rowing::refusals))]
pub fn write_refusal(out: &mut [u8], why: Refusal) -> usize
    requires { 50 ≤ length out.old }
    ensures value { result ≡ length (listing_text (Err why)) }
    ensures within { result ≤ 50 }
    ensures out_after { out.new ≡ sets out.old 0 (listing_text (Err why)) }
{
    write_pair(out, 0, b"refused ", u64::from(why.number), why.place as u64)
}

#[tactic(auto, using(crate::proofs::Rowing::listings))]
pub fn write_listing(
    out: &mut [u8],
    steps: &[u64],
    words: &[u32],
    count: usize,
    end: u64,
    milliseconds: u32,
) -> usize
    requires count_in_bounds { (count ≤ length steps.now) × (count ≤ length words.now) }
    requires count_in_bounds_2 { 73 + 118 * count ≤ length out.old }
    requires end_bound { (end ≤ 368934881474191032) × (milliseconds ≤ 50) }
    requires early { Early count steps.now }
    ensures value { result ≡ length (tune_text milliseconds count steps.now words.now end) }
    ensures within { result ≤ 73 + 118 * count }
    ensures out_after { out.new ≡ sets out.old 0 (tune_text milliseconds count steps.now words.now end) }
{
    let first = write_text(out, 0, b"step ms ch kind value gate\n");
    let last = write_rows(out, first, steps, words, count, milliseconds);
    write_pair(out, last, b"end ", end, in_milliseconds(end, milliseconds))
}
