// The first readable track of an accepted file, to which the reading head walks. Chunks before it are leaves, of one row each, so its row
// number is one more than the chunks that were passed.
ghost use Rattle.std.specs.Prelude.{◌≡◌, true, ◌≤◌, length};
ghost use Rattle.model.specs.Item.{is_fine};
ghost use Rattle.model.specs.File.{contents_of};
ghost use Rattle.reading.specs.Stages.{tops_of};
ghost use Rattle.lines.specs.Tops.{first_of};

use super::head::read_top;
use model::{FirstTrack, TopChunk};

#[tactic(auto, using(crate::proofs::Firsts::nearing))]
pub fn first_track(s: &[u8]) -> Option<FirstTrack>
    requires s_len_bound { length s.now ≤ 65536 }
    requires s_value { is_fine (contents_of s.now) ≡ true }
    ensures { result ≡ first_of 1 (tops_of (contents_of s.now)) }
{
    let end = s.len() - 2;
    let mut row: usize = 1;
    let mut at: usize = 8;
    while at < end {
        match read_top(s, at)? {
            TopChunk::Track { milliseconds } => {
                return Some(FirstTrack { row, milliseconds });
            }
            TopChunk::Leaf { next } => {
                row += 1;
                at = next;
            }
        }
    }
    None
}
