// The track that a row of a file names: 1; 2 to 14 on the whole file; 16.
ghost use Rattle.std.specs.Prelude.{◌≡◌, true, ◌≤◌, length, take};
ghost use Rattle.model.specs.Item.{is_fine};
ghost use Rattle.model.specs.File.{contents_of};
ghost use Rattle.model.specs.Answer.{track_named};
ghost use Rattle.giving.specs.Giving.{row_named, Names};

use model::{Bodies, Refusal, refused};

#[tactic(auto, using(crate::proofs::TrackNamed::rows_named))]
fn open_row(s: &[u8], row: usize) -> Result<Bodies, Refusal>
    requires s_len_bound { length s.now ≤ 65536 }
    requires s_value { is_fine (contents_of s.now) ≡ true }
    ensures { Names s.now (row_named (contents_of s.now) row) result }
{
    playing::open_track(s, row).ok_or(Refusal {
        number: 16,
        place: 0,
    })
}

#[tactic(auto, using(crate::proofs::TrackNamed::stated_named))]
fn open_stated(s: &[u8], row: usize) -> Result<Bodies, Refusal>
    requires { length s.now ≤ 65536 }
    ensures { Names s.now (row_named (contents_of s.now) row) result }
{
    reading::check_file(s)?;
    open_row(s, row)
}

#[tactic(auto, using(model::proofs::Parts::front_length, crate::proofs::TrackNamed::buffers_named))]
pub fn name_track(buffer: &[u8], n: usize, row: usize) -> Result<Bodies, Refusal>
    ensures { Names (take n buffer.now) (track_named buffer.now n row) result }
{
    if buffer.len() < n {
        return refused(1, 0);
    }
    if 65536 < n {
        return refused(1, 0);
    }
    open_stated(&buffer[..n], row)
}
