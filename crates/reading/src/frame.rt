// The frame: the file's own header, the top-level list, its first chunk and that there is a track.
ghost use Rattle.std.specs.Prelude.{◌≡◌, true, ◌≤◌, ◌-◌, length};
ghost use Rattle.model.specs.Item.{is_fine, found, check_answer};
ghost use Rattle.model.specs.File.{opens_with_contents, frame_of};
ghost use Rattle.chunks.specs.Kept.{chunks_in};
ghost use Rattle.reading.specs.Stages.{contents_hold};

use model::{ListOf, Refusal, Wanted, refused};

// Whether the list that begins at 8 begins with a CNTI chunk of 5 bytes and more.
fn opens_with_contents(s: &[u8], end: usize) -> bool
    requires le_end { (8 ≤ end) × (end ≤ length s.now) × (end ≤ 65536) }
    requires end_value { is_fine (chunks_in s.now 8 end) ≡ true }
    ensures { result ≡ opens_with_contents (found (chunks_in s.now 8 end)) }
{
    if end <= 8 {
        return false;
    }
    let Some(chunk) = chunks::read_chunk(s, end, 8) else {
        return false;
    };
    numbers::stands_at(s, 8, b"CNTI") && 5 <= chunk.size
}

pub fn check_frame(s: &[u8]) -> Result<(), Refusal>
    requires { length s.now ≤ 65536 }
    ensures { result ≡ check_answer (frame_of s.now) }
{
    if s.len() < 10 || !numbers::stands_at(s, 0, b"MMMD") {
        return refused(2, 0);
    }
    if numbers::number_at::<4>(s, 4) as usize + 8 != s.len() {
        return refused(3, 4);
    }
    let end = s.len() - 2;
    chunks::check_list(ListOf::File, s, 8, end)?;
    check_contents(s, end)
}

// 5 and 7, of a list that passed its check.
fn check_contents(s: &[u8], end: usize) -> Result<(), Refusal>
    requires le_end { (8 ≤ end) × (end ≤ length s.now) × (end ≤ 65536) }
    requires end_value { is_fine (chunks_in s.now 8 end) ≡ true }
    ensures { result ≡ check_answer (contents_hold end (found (chunks_in s.now 8 end))) }
{
    if !opens_with_contents(s, end) {
        return refused(5, 8);
    }
    if !chunks::has_chunk(s, 8, end, Wanted::Track) {
        return refused(7, end);
    }
    Ok(())
}
