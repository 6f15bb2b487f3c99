// The whole read of the stated bytes: 2 to 14, and how many rows the file has.
ghost use Rattle.std.specs.Prelude.{◌≡◌, ◌≤◌, length};
ghost use Rattle.model.specs.File.{contents_of};
ghost use Rattle.reading.specs.Stages.{file_answer};

use super::frame::check_frame;
use super::tops::check_tops;
use model::Refusal;

pub fn check_file(s: &[u8]) -> Result<usize, Refusal>
    requires { length s.now ≤ 65536 }
    ensures { result ≡ file_answer (contents_of s.now) }
{
    check_frame(s)?;
    let end = s.len() - 2;
    let count = check_tops(s, 8, end)?;
    Ok(1 + count)
}
