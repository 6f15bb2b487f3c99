// One entry at a place: two tag bytes, a colon and data.
ghost use Rattle.std.specs.Prelude.{◌≡◌, ◌+◌, ◌≤◌, length, drop};
ghost use Rattle.model.specs.Words.{◌and◌, ◌≡?◌};
ghost use Rattle.model.specs.Bytes.{◌!◌, number};
ghost use Rattle.model.specs.Seek.{is_letter, letters_in_front, phrase_at, data_at, entry_at};
ghost use Rattle.model.specs.Track.{point_width};

use model::{Read, SeekEntry};
use numbers::{number_at, stands_at};

// Each capital has an arm of its own: with one pattern for them all an order of 58,000 mixed letters is read in 1.8 times as long.
#[tactic(auto, using(model::proofs::Tests::tests, model::proofs::Tests::junctions, crate::proofs::Letters::letters), unfolding(model::specs::Seek::is_letter, model::specs::Words::any))]
pub fn is_letter(byte: u8) -> bool
    ensures { result ≡ is_letter byte }
{
    byte <= b'z'
        && (b'a' <= byte
            || match byte {
                b'A' => true,
                b'B' => true,
                b'E' => true,
                b'I' => true,
                b'K' => true,
                b'R' => true,
                b'S' => true,
                _ => false,
            })
}

// How many letters stand from a place on, up to the first byte that is none. Counted by hand: with `take_while` an order
// of 58,000 letters is refused in 1.25 times what the baseline takes, so in 1.22.
pub fn letters_in_front(s: &[u8], at: usize) -> usize
    requires { at ≤ length s.now }
    ensures { result ≡ letters_in_front (drop at s.now) }
{
    let mut count: usize = 0;
    while count < s.len() - at {
        if !is_letter(s[at + count]) {
            return count;
        }
        count += 1;
    }
    count
}

fn point_width(phrases: bool) -> usize
    ensures { (result ≡ point_width phrases) × (result ≤ 4) }
{
    if phrases {
        return 1;
    }
    4
}

fn wide(byte: u8) -> u32
    ensures { result ≡ byte }
{
    byte as u32
}

// The value of a start or stop point.
fn read_point(phrases: bool, s: &[u8], at: usize) -> u32
    requires { at + point_width phrases ≤ length s.now }
    ensures { result ≡ number (point_width phrases) s.now at }
{
    if phrases {
        return wide(s[at]);
    }
    number_at::<4>(s, at)
}

// A point or an order list, whose data stand behind their tag and colon.
#[tactic(auto, using(crate::proofs::Letters::letters_fit, model::proofs::Tests::tests, crate::proofs::Data::read), unfolding(model::specs::Seek::data_at))]
fn read_data(phrases: bool, s: &[u8], at: usize) -> Option<Read<SeekEntry>>
    requires at_in_bounds { at + 3 ≤ length s.now }
    requires s_len_bound { length s.now ≤ 65536 }
    ensures { result ≡ data_at (point_width phrases) s.now (number 2 s.now at) (at + 3) }
{
    let from = at + 3;
    let next = from + point_width(phrases);
    if stands_at(s, at, b"st") {
        if s.len() < next {
            return None;
        }
        return Some(Read {
            what: SeekEntry::Start(read_point(phrases, s, from)),
            next,
        });
    }
    if stands_at(s, at, b"sp") {
        if s.len() < next {
            return None;
        }
        return Some(Read {
            what: SeekEntry::Stop(read_point(phrases, s, from)),
            next,
        });
    }
    if !stands_at(s, at, b"SL") {
        return None;
    }
    let letters = letters_in_front(s, from);
    Some(Read {
        what: SeekEntry::Order { letters },
        next: from + letters,
    })
}

// A phrase's start and stop address.
#[tactic(auto, using(model::proofs::Tests::tests, crate::proofs::Data::phrase_is), unfolding(model::specs::Seek::phrase_at))]
fn read_phrase(s: &[u8], letter: u8, at: usize) -> Option<Read<SeekEntry>>
    requires at_in_bounds { at ≤ length s.now }
    requires s_len_bound { length s.now ≤ 65536 }
    ensures { result ≡ phrase_at s.now letter at }
{
    if s.len() < at + 8 {
        return None;
    }
    Some(Read {
        what: SeekEntry::Phrase {
            letter,
            start: number_at::<4>(s, at),
            stop: number_at::<4>(s, at + 4),
        },
        next: at + 8,
    })
}

// Whether a phrase's tag stands at a place.
#[tactic(auto, using(model::proofs::Tests::tests, model::proofs::Tests::junctions))]
fn is_phrase(s: &[u8], at: usize) -> bool
    requires { at + 2 ≤ length s.now }
    ensures { result ≡ ((s.now ! at ≡? 0x50) and is_letter (s.now ! (at + 1))) }
{
    s[at] == 0x50 && is_letter(s[at + 1])
}

#[tactic(auto, using(model::proofs::Tests::tests, model::proofs::Tests::junctions), unfolding(model::specs::Seek::entry_at))]
pub fn read_entry(phrases: bool, s: &[u8], at: usize) -> Option<Read<SeekEntry>>
    requires at_in_bounds { at ≤ length s.now }
    requires s_len_bound { length s.now ≤ 65536 }
    ensures { result ≡ entry_at (point_width phrases) s.now at }
{
    if s.len() < at + 3 {
        return None;
    }
    if s[at + 2] != 0x3A {
        return None;
    }
    if is_phrase(s, at) {
        return read_phrase(s, s[at + 1], at + 3);
    }
    read_data(phrases, s, at)
}
