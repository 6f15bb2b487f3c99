// All chunks of the top level, in file order: the first refusal, or how many rows they bring.
ghost use Rattle.std.specs.Prelude.{◌≡◌, true, ◌≤◌, length};
ghost use Rattle.model.specs.Words.{each};
ghost use Rattle.model.specs.Item.{is_fine, found};
ghost use Rattle.model.specs.File.{top_of};
ghost use Rattle.chunks.specs.Kept.{chunks_in};
ghost use Rattle.reading.specs.Stages.{tops_answer, Countable};

use super::top::check_top;
use model::Refusal;

pub fn check_tops(s: &[u8], start: usize, end: usize) -> Result<usize, Refusal>
    requires start_le_end { (start ≤ end) × (end ≤ length s.now) × (length s.now ≤ 65536) }
    requires end_value { is_fine (chunks_in s.now start end) ≡ true }
    ensures value { result ≡ tops_answer (each (top_of s.now) (found (chunks_in s.now start end))) }
    ensures countable { Countable result }
{
    let mut rows: usize = 0;
    let mut at = start;
    while at < end {
        let Some(chunk) = chunks::read_chunk(s, end, at) else {
            return Ok(rows);
        };
        rows += check_top(s, at, chunk.size)?;
        at = chunk.next;
    }
    Ok(rows)
}
