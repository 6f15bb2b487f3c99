// How many bytes the seek chunk of given entries takes, 65,537 standing for more than 65,536.
ghost use Rattle.std.specs.Prelude.{◌≡◌, ◌+◌, ◌≤◌, length};
ghost use Rattle.writing.specs.Parts.{limited};
ghost use Rattle.entries.specs.Rows.{row_bytes, rows_in, seek_size};

use super::row::{Row, row_at};
use writing::within_limit;

// How many bytes an entry takes, and a comma.
#[tactic(auto, using(crate::proofs::Sizing::row_sizes))]
fn row_size(phrases: bool, letters: &[u8], row: Row) -> usize
    ensures { (result ≡ length (row_bytes phrases letters.now row)) × (result ≤ 12 + length letters.now) }
{
    if row.kind == 2 {
        return 12;
    }
    if row.kind == 3 {
        return 4 + letters.len();
    }
    if phrases {
        return 5;
    }
    8
}

// None where there are no entries, else a header of eight, which stands for the first comma too.
pub fn seek_size(phrases: bool, letters: &[u8], entries: &[u32]) -> usize
    ensures { result ≡ limited (seek_size phrases letters.now (rows_in entries.now)) }
{
    let count = entries.len() / 4;
    if count == 0 {
        return 0;
    }
    let mut size: usize = 7;
    for i in 0..count {
        size = within_limit(size + row_size(phrases, letters, row_at(entries, i)));
    }
    size
}
