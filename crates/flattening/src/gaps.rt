// The gap before a message and the rest before the end: how many bytes they take, and the bytes. Writers return the place after what they
// wrote.
ghost use Rattle.std.specs.Prelude.{◌≡◌, [], ◌∷◌, ◌+◌, ◌*◌, ◌≤◌, length};
ghost use Rattle.std.proofs.lemmas.List.Edits.{sets};
ghost use Rattle.model.specs.Plain.{bytes_of, times, left, waits, rest};
ghost use Rattle.model.specs.Content.{handy_phone};
ghost use Rattle.flattening.specs.Parts.{gap_bytes};

use writing::{duration_size, write_duration};

fn times_of(gap: u64) -> u64
    ensures value { result ≡ times 16511 gap }
    ensures result_bound { result * 16511 ≤ gap }
{
    if gap == 0 {
        return 0;
    }
    (gap - 1) / 16511
}

// What is left of a gap when the waits are written.
pub fn left_of(gap: u64) -> u32
    ensures value { result ≡ left 16511 gap }
    ensures upper_bound { result ≤ 16511 }
{
    (gap - times_of(gap) * 16511) as u32
}

fn waits_size(gap: u64) -> usize
    ensures value { result ≡ length (bytes_of handy_phone (waits handy_phone gap)) }
    ensures result_bound { result * 4127 ≤ gap }
{
    times_of(gap) as usize * 4
}

// How many bytes a gap takes, with the duration that is left of it.
pub fn gap_size(gap: u64) -> usize
    requires { gap ≤ 4611686018427387904 }
    ensures value { result ≡ length (gap_bytes gap) }
    ensures upper_bound { result ≤ gap + 2 }
{
    waits_size(gap) + duration_size(left_of(gap))
}

pub fn rest_size(gap: u64) -> usize
    requires { gap ≤ 4611686018427387904 }
    ensures value { result ≡ length (bytes_of handy_phone (rest handy_phone gap)) }
    ensures upper_bound { result ≤ gap + 4 }
{
    let left = left_of(gap);
    if left == 0 {
        return waits_size(gap);
    }
    waits_size(gap) + duration_size(left) + 2
}

// The longest duration with a NOP.
fn write_wait(out: &mut [u8], at: usize) -> usize
    requires { at + 4 ≤ length out.old }
    ensures value { result ≡ at + 4 }
    ensures out_after { out.new ≡ sets out.old at (0xFF ∷ 0x7F ∷ 0xFF ∷ 0x00 ∷ []) }
{
    out[at] = 0xFF;
    out[at + 1] = 0x7F;
    out[at + 2] = 0xFF;
    out[at + 3] = 0x00;
    at + 4
}

// What is written while a gap exceeds the longest duration.
pub fn write_waits(out: &mut [u8], at: usize, gap: u64) -> usize
    requires { at + length (bytes_of handy_phone (waits handy_phone gap)) ≤ length out.old }
    ensures value { result ≡ at + length (bytes_of handy_phone (waits handy_phone gap)) }
    ensures out_after { out.new ≡ sets out.old at (bytes_of handy_phone (waits handy_phone gap)) }
{
    let mut place = at;
    let mut more = gap;
    while 16511 < more {
        place = write_wait(out, place);
        more -= 16511;
    }
    place
}

// A gap, with the duration that is left of it.
pub fn write_gap(out: &mut [u8], at: usize, gap: u64) -> usize
    requires { at + length (gap_bytes gap) ≤ length out.old }
    ensures value { result ≡ at + length (gap_bytes gap) }
    ensures out_after { out.new ≡ sets out.old at (gap_bytes gap) }
{
    let middle = write_waits(out, at, gap);
    write_duration(out, middle, left_of(gap))
}

fn write_nop(out: &mut [u8], at: usize) -> usize
    requires { at + 2 ≤ length out.old }
    ensures value { result ≡ at + 2 }
    ensures out_after { out.new ≡ sets out.old at (0xFF ∷ 0x00 ∷ []) }
{
    out[at] = 0xFF;
    out[at + 1] = 0x00;
    at + 2
}

pub fn write_rest(out: &mut [u8], at: usize, gap: u64) -> usize
    requires { at + length (bytes_of handy_phone (rest handy_phone gap)) ≤ length out.old }
    ensures value { result ≡ at + length (bytes_of handy_phone (rest handy_phone gap)) }
    ensures out_after { out.new ≡ sets out.old at (bytes_of handy_phone (rest handy_phone gap)) }
{
    let place = write_waits(out, at, gap);
    let left = left_of(gap);
    if left == 0 {
        return place;
    }
    let middle = write_duration(out, place, left);
    write_nop(out, middle)
}
