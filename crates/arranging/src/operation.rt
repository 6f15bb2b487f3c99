// WRITE: the answer and the room are those of model/specs/Answer, for any tables and any room.
ghost use Rattle.std.specs.Prelude.{◌≡◌, true, ◌++◌, ◌+◌, ◌≤◌, length, take};
ghost use Rattle.std.proofs.lemmas.List.Edits.{sets};
ghost use Rattle.model.specs.CheckCode.{check_code};
ghost use Rattle.model.specs.Item.{is_fine};
ghost use Rattle.model.specs.Tables.{given_in, tracks_from};
ghost use Rattle.model.specs.Answer.{write_of, write_answer, write_room};
ghost use Rattle.writing.specs.Parts.{limited};
ghost use Rattle.arranging.specs.Stages.{tracks_given_bytes, bare_bytes, whole_bytes, sized_of};

use super::all::{check_tracks, write_tracks};
use super::tables::count_tracks;
use entries::{write_header, write_number};
use model::{Refusal, refused};
use writing::copy_part;

// All but the check code: the file's header, the contents chunk, the tracks, which take so many bytes. Returns the place after them.
fn write_bare(numbers: &[u32], bytes: &[u8], count: usize, size: usize, out: &mut [u8]) -> usize
    requires in_bounds { 5 ≤ length bytes.now }
    requires count_value { count ≡ length (given_in numbers.now bytes.now) }
    requires bytes_value { is_fine (tracks_from 0 (given_in numbers.now bytes.now)) ≡ true }
    requires size_value { size ≡ length (tracks_given_bytes (tracks_from 0 (given_in numbers.now bytes.now))) }
    requires size_bound { (size ≤ 65513) × (size + 23 ≤ length out.old) }
    ensures value { result ≡ 21 + size }
    ensures out_after { out.new ≡ sets out.old 0 (bare_bytes (take 5 bytes.now) (tracks_given_bytes (tracks_from 0 (given_in numbers.now bytes.now)))) }
{
    let contents = write_header(out, 0, 0x4D4D4D44, size + 15);
    let body = write_header(out, contents, 0x434E5449, 5);
    let tracks = copy_part(bytes, 0, 5, out, body);
    write_tracks(numbers, bytes, count, out, tracks)
}

// The check code of so many bytes.
fn code_over(s: &[u8], end: usize) -> u16
    requires { end ≤ length s.now }
    ensures { result ≡ check_code (take end s.now) }
{
    checkcode::check_code(&s[..end])
}

// A file that can be written, into room for it. Returns how many bytes it takes.
fn write_whole(numbers: &[u32], bytes: &[u8], count: usize, size: usize, out: &mut [u8]) -> usize
    requires in_bounds { 5 ≤ length bytes.now }
    requires count_value { count ≡ length (given_in numbers.now bytes.now) }
    requires bytes_value { is_fine (tracks_from 0 (given_in numbers.now bytes.now)) ≡ true }
    requires size_value { size ≡ length (tracks_given_bytes (tracks_from 0 (given_in numbers.now bytes.now))) }
    requires size_bound { (size ≤ 65513) × (size + 23 ≤ length out.old) }
    ensures value { result ≡ 23 + size }
    ensures out_after { out.new ≡ sets out.old 0 (whole_bytes (take 5 bytes.now) (tracks_given_bytes (tracks_from 0 (given_in numbers.now bytes.now)))) }
{
    let end = write_bare(numbers, bytes, count, size, out);
    let code = code_over(out, end);
    write_number::<2>(out, end, code as u32)
}

// The tracks are so many, and take so many bytes.
#[tactic(auto, using(crate::proofs::Whole::sized_answers))]
fn write_sized(
    numbers: &[u32],
    bytes: &[u8],
    count: usize,
    size: usize,
    out: &mut [u8],
) -> Result<usize, Refusal>
    requires in_bounds { 5 ≤ length bytes.now }
    requires count_value { count ≡ length (given_in numbers.now bytes.now) }
    requires bytes_value { is_fine (tracks_from 0 (given_in numbers.now bytes.now)) ≡ true }
    requires size_value { size ≡ limited (length (tracks_given_bytes (tracks_from 0 (given_in numbers.now bytes.now)))) }
    ensures value { result ≡ write_answer (sized_of numbers.now bytes.now (length out.old)) }
    ensures out_after { out.new ≡ write_room out.old (sized_of numbers.now bytes.now (length out.old)) }
{
    if 16 < count {
        return refused(24, 0);
    }
    if 65513 < size {
        return refused(24, 0);
    }
    if out.len() < size + 23 {
        return refused(24, 0);
    }
    Ok(write_whole(numbers, bytes, count, size, out))
}

#[tactic(auto, using(crate::proofs::Operations::written))]
pub fn write_file(numbers: &[u32], bytes: &[u8], out: &mut [u8]) -> Result<usize, Refusal>
    ensures value { result ≡ write_answer (write_of numbers.now bytes.now (length out.old)) }
    ensures out_after { out.new ≡ write_room out.old (write_of numbers.now bytes.now (length out.old)) }
{
    let count = count_tracks(numbers, bytes)?;
    let length = check_tracks(numbers, bytes, count)?;
    write_sized(numbers, bytes, count, length, out)
}
