// All tracks, one after the other.
ghost use Rattle.std.specs.Prelude.{◌≡◌, true, ◌+◌, ◌≤◌, length};
ghost use Rattle.std.proofs.lemmas.List.Edits.{sets};
ghost use Rattle.model.specs.Item.{is_fine};
ghost use Rattle.model.specs.Tables.{given_in, tracks_from};
ghost use Rattle.arranging.specs.Stages.{tracks_answer, tracks_given_bytes};

use super::tables::{find_stretches, further};
use super::track::{check_at, write_at};
use model::Refusal;
use writing::limited_sum;

// How many bytes they take, or what is wrong with the first that is at fault.
#[tactic(auto, using(crate::proofs::Checking::checks))]
pub fn check_tracks(numbers: &[u32], bytes: &[u8], count: usize) -> Result<usize, Refusal>
    requires { count ≡ length (given_in numbers.now bytes.now) }
    ensures { result ≡ tracks_answer (tracks_from 0 (given_in numbers.now bytes.now)) }
{
    let mut p: usize = 0;
    let mut q = further(0, 5, bytes.len());
    let mut size: usize = 0;
    for i in 0..count {
        let parts = find_stretches(numbers, p, bytes, q);
        let length = check_at(i, numbers, p, bytes, q, parts)?;
        size = limited_sum(size, length);
        p = parts.numbers;
        q = parts.bytes;
    }
    Ok(size)
}

// Tracks that can be written, at a place with room for them. Returns the place after them.
#[tactic(auto, using(crate::proofs::Filling::fills))]
pub fn write_tracks(numbers: &[u32], bytes: &[u8], count: usize, out: &mut [u8], at: usize) -> usize
    requires count_value { count ≡ length (given_in numbers.now bytes.now) }
    requires bytes_value { is_fine (tracks_from 0 (given_in numbers.now bytes.now)) ≡ true }
    requires bytes_in_bounds { at + length (tracks_given_bytes (tracks_from 0 (given_in numbers.now bytes.now))) ≤ length out.old }
    requires bytes_len_bound { length (tracks_given_bytes (tracks_from 0 (given_in numbers.now bytes.now))) ≤ 65536 }
    ensures value { result ≡ at + length (tracks_given_bytes (tracks_from 0 (given_in numbers.now bytes.now))) }
    ensures out_after { out.new ≡ sets out.old at (tracks_given_bytes (tracks_from 0 (given_in numbers.now bytes.now))) }
{
    let mut p: usize = 0;
    let mut q = further(0, 5, bytes.len());
    let mut next = at;
    for _i in 0..count {
        let parts = find_stretches(numbers, p, bytes, q);
        next = write_at(numbers, p, bytes, q, parts, out, next);
        p = parts.numbers;
        q = parts.bytes;
    }
    next
}
