// The entries of a seek body, four numbers each, and the letters of its order list. A track without a seek chunk has a seek body of no bytes,
// and no entries.
ghost use Rattle.std.specs.Prelude.{◌≡◌, ◌+◌, ◌*◌, ◌≤◌, length};
ghost use Rattle.std.proofs.lemmas.List.Edits.{sets};
ghost use Rattle.model.specs.Bytes.{part};
ghost use Rattle.model.specs.SeekBytes.{entries_numbers};
ghost use Rattle.model.specs.Answer.{entries_answer, entries_table, letters_table};
ghost use Rattle.playing.specs.Performing.{bytes_in, entries_said, Formed, Inside};
ghost use Rattle.giving.specs.Giving.{entry_read, letters_read, entries_fitted};

use model::{Bodies, EntriesAnswer, Read, Refusal, SeekEntry, refused};

#[tactic(auto, using(crate::proofs::Seeking::entries_counted))]
fn count_entries(phrases: bool, s: &[u8]) -> usize
    requires s_len_bound { length s.now ≤ 65536 }
    requires formed { Formed phrases s.now }
    ensures { result ≡ length (entries_said phrases s.now) }
{
    let mut count: usize = 0;
    let mut at: usize = 0;
    while at < s.len() {
        at = seek::read_known(phrases, s, at).next;
        count += 1;
    }
    count
}

// The four numbers of an entry.
#[tactic(auto, using(crate::proofs::Seeking::letters_fit), unfolding(crate::specs::Giving::entry_read))]
fn numbers_of(entry: SeekEntry) -> [u32; 4]
    requires { letters_read entry ≤ 65536 }
    ensures { result ≡ entry_read entry }
{
    match entry {
        SeekEntry::Start(value) => [0, 0, value, 0],
        SeekEntry::Stop(value) => [1, 0, value, 0],
        SeekEntry::Phrase {
            letter,
            start,
            stop,
        } => [2, u32::from(letter), start, stop],
        SeekEntry::Order { letters } => [3, 0, letters as u32, 0],
    }
}

#[tactic(auto, using(crate::proofs::Seeking::entries_stored))]
fn fill_entries(phrases: bool, s: &[u8], table: &mut [u32])
    requires s_len_bound { length s.now ≤ 65536 }
    requires formed { Formed phrases s.now }
    requires s_in_bounds { 4 * length (entries_said phrases s.now) ≤ length table.old }
    ensures { table.new ≡ sets table.old 0 (entries_numbers (entries_said phrases s.now)) }
{
    let mut at: usize = 0;
    let mut place: usize = 0;
    while at < s.len() {
        let Read { what: entry, next } = seek::read_known(phrases, s, at);
        let numbers = numbers_of(entry);
        let end = place + 4;
        table[place..end].copy_from_slice(&numbers);
        place = end;
        at = next;
    }
}

// So many letters from a place on. One by one: `copy_from_slice` makes the archive for C call `memmove`, which a program without a C library lacks.
#[tactic(auto, using(crate::proofs::EntriesGiven::copies))]
fn copy_letters(s: &[u8], from: usize, count: usize, letters: &mut [u8])
    requires there { from + count ≤ length s.now }
    requires room { count ≤ length letters.old }
    ensures { letters.new ≡ sets letters.old 0 (part s.now from count) }
{
    for i in 0..count {
        letters[i] = s[from + i];
    }
}

#[tactic(auto, using(crate::proofs::EntriesGiven::entries_given_lem))]
fn give_said(
    phrases: bool,
    seek: &[u8],
    table: &mut [u32],
    letters: &mut [u8],
) -> Result<EntriesAnswer, Refusal>
    requires seek_len_bound { length seek.now ≤ 65536 }
    requires formed { Formed phrases seek.now }
    ensures value { result ≡ entries_answer (entries_fitted (length table.old) (length letters.old) (entries_said phrases seek.now)) }
    ensures table_after { table.new ≡ entries_table table.old (entries_fitted (length table.old) (length letters.old) (entries_said phrases seek.now)) }
    ensures letters_after { letters.new ≡ letters_table letters.old (entries_fitted (length table.old) (length letters.old) (entries_said phrases seek.now)) }
{
    let points = playing::points_of(phrases, seek);
    let count = count_entries(phrases, seek);
    if table.len() / 4 < count {
        return refused(15, 0);
    }
    if letters.len() < points.letters {
        return refused(15, 0);
    }
    fill_entries(phrases, seek, table);
    copy_letters(seek, points.order, points.letters, letters);
    Ok(EntriesAnswer {
        count,
        letters: points.letters,
    })
}

#[tactic(auto, using(crate::proofs::EntriesGiven::bodies_given))]
pub fn give_entries(
    s: &[u8],
    bodies: Bodies,
    table: &mut [u32],
    letters: &mut [u8],
) -> Result<EntriesAnswer, Refusal>
    requires s_len_bound { length s.now ≤ 65536 }
    requires inside { Inside s.now bodies }
    ensures value { result ≡ entries_answer (entries_fitted (length table.old) (length letters.old) (entries_said bodies.phrases (bytes_in s.now bodies.seek))) }
    ensures table_after { table.new ≡ entries_table table.old (entries_fitted (length table.old) (length letters.old) (entries_said bodies.phrases (bytes_in s.now bodies.seek))) }
    ensures letters_after { letters.new ≡ letters_table letters.old (entries_fitted (length table.old) (length letters.old) (entries_said bodies.phrases (bytes_in s.now bodies.seek))) }
{
    let seek = playing::bytes_in(s, bodies.seek);
    give_said(bodies.phrases, seek, table, letters)
}
