// ITEMS and ENTRIES of the track that a row names. The answers and the tables are those of model/specs/Answer, for any buffer, length, row
// and tables.
ghost use Rattle.std.specs.Prelude.{◌≡◌, length};
ghost use Rattle.model.specs.Answer.{items_of_track, items_answer, items_table, entries_of_track, entries_answer, entries_table, letters_table};

use super::named::name_track;
use super::seek_entries::give_entries;
use super::sequence::give_items;
use model::{EntriesAnswer, Refusal};

#[tactic(auto, using(model::proofs::Parts::front_length, crate::proofs::TrackNamed::named_within, crate::proofs::ItemsGiven::tracks_given))]
pub fn items_of(buffer: &[u8], n: usize, row: usize, table: &mut [u32]) -> Result<usize, Refusal>
    ensures value { result ≡ items_answer (items_of_track buffer.now n row (length table.old)) }
    ensures table_after { table.new ≡ items_table table.old (items_of_track buffer.now n row (length table.old)) }
{
    let bodies = name_track(buffer, n, row)?;
    give_items(&buffer[..n], bodies, table)
}

#[tactic(auto, using(model::proofs::Parts::front_length, crate::proofs::TrackNamed::named_within, crate::proofs::EntriesGiven::track_entries))]
pub fn entries_of(
    buffer: &[u8],
    n: usize,
    row: usize,
    table: &mut [u32],
    letters: &mut [u8],
) -> Result<EntriesAnswer, Refusal>
    ensures value { result ≡ entries_answer (entries_of_track buffer.now n row (length table.old) (length letters.old)) }
    ensures table_after { table.new ≡ entries_table table.old (entries_of_track buffer.now n row (length table.old) (length letters.old)) }
    ensures letters_after { letters.new ≡ letters_table letters.old (entries_of_track buffer.now n row (length table.old) (length letters.old)) }
{
    let bodies = name_track(buffer, n, row)?;
    give_entries(&buffer[..n], bodies, table, letters)
}
