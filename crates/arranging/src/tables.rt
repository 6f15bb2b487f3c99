// The two tables track by track.
ghost use Rattle.std.specs.Prelude.{◌≡◌, ◌+◌, ◌≤◌, ◌<◌, min, length, Ok};
ghost use Rattle.model.specs.Words.{when◌then◌else◌, ◌≡?◌, refused};
ghost use Rattle.model.specs.Tables.{given_in};
ghost use Rattle.arranging.specs.Apart.{Apart};
ghost use Rattle.arranging.specs.Stages.{how_many};

use model::{Refusal, refused};

// Where the parts of a track stand: its items behind its entries, its source behind its letters; and where its numbers and its bytes end.
#[derive(Clone, Copy)]
pub struct Stretches {
    pub items: usize,
    pub numbers: usize,
    pub source: usize,
    pub bytes: usize,
}

// So much further on, or at the end.
pub fn further(place: usize, count: usize, end: usize) -> usize
    requires { place ≤ end }
    ensures { result ≡ min (place + count) end }
{
    if end - place < count {
        return end;
    }
    place + count
}

fn wide(count: u32) -> usize
    ensures { (result ≡ count) × (result < 4294967296) }
{
    count as usize
}

fn slot_of(number: u8) -> usize
    ensures { (result ≡ number) × (result < 256) }
{
    number as usize
}

// The stretches of the track whose numbers and bytes begin at two places.
pub fn find_stretches(numbers: &[u32], p: usize, bytes: &[u8], q: usize) -> Stretches
    requires p_in_bounds { p + 4 ≤ length numbers.now }
    requires q_in_bounds { q + 7 ≤ length bytes.now }
    ensures { Apart numbers.now bytes.now p q result }
{
    let items = further(p + 4, 4 * wide(numbers[p]), numbers.len());
    let source = further(q + 7, wide(numbers[p + 2]), bytes.len());
    Stretches {
        items,
        numbers: further(items, 2 * wide(numbers[p + 1]), numbers.len()),
        source,
        bytes: further(source, wide(numbers[p + 3]), bytes.len()),
    }
}

#[tactic(auto, using(model::proofs::Tests::tests))]
fn counted(count: usize) -> Result<usize, Refusal>
    ensures { result ≡ (when count ≡? 0 then refused 7 0 else Ok count) }
{
    if count == 0 {
        return refused(7, 0);
    }
    Ok(count)
}

// How many tracks there are: none is 7, and one whose number stood before is 6.
#[tactic(auto, using(crate::proofs::Counting::counts))]
pub fn count_tracks(numbers: &[u32], bytes: &[u8]) -> Result<usize, Refusal>
    ensures { result ≡ how_many (given_in numbers.now bytes.now) }
{
    let mut seen = [false; 256];
    let mut count: usize = 0;
    let mut p: usize = 0;
    let mut q = further(0, 5, bytes.len());
    while 4 <= numbers.len() - p {
        if bytes.len() - q < 7 {
            return counted(count);
        }
        let number = slot_of(bytes[q]);
        if seen[number] {
            return refused(6, count);
        }
        seen[number] = true;
        let parts = find_stretches(numbers, p, bytes, q);
        p = parts.numbers;
        q = parts.bytes;
        count += 1;
    }
    counted(count)
}
