// Numbers and chunk headers as bytes, the most significant one first, at a place with room for them. Each writer returns the place after them.
ghost use Rattle.std.specs.Prelude.{◌≡◌, ◌++◌, ◌+◌, ◌≤◌, length};
ghost use Rattle.std.proofs.lemmas.List.Edits.{sets};
ghost use Rattle.model.specs.ChunkBytes.{number_bytes};
ghost use Rattle.model.specs.Track.{point_width};

// So many bytes of a number.
#[tactic(auto, using(crate::proofs::Numbers::number_turns))]
pub fn write_number<const N: usize>(out: &mut [u8], at: usize, number: u32) -> usize
    requires { at + N ≤ length out.old }
    ensures value { result ≡ at + N }
    ensures out_after { out.new ≡ sets out.old at (number_bytes N number) }
{
    let mut left = number;
    for i in (0..N).rev() {
        out[at + i] = (left % 256) as u8;
        left /= 256;
    }
    at + N
}

// Two numbers of four bytes.
#[tactic(auto, using(crate::proofs::Numbers::pairs))]
pub fn write_pair(out: &mut [u8], at: usize, first: u32, second: u32) -> usize
    requires { at + 8 ≤ length out.old }
    ensures value { result ≡ at + 8 }
    ensures out_after { out.new ≡ sets out.old at (number_bytes 4 first ++ number_bytes 4 second) }
{
    let middle = write_number::<4>(out, at, first);
    write_number::<4>(out, middle, second)
}

// A chunk's ID and the size of its body.
pub fn write_header(out: &mut [u8], at: usize, id: u32, size: usize) -> usize
    requires at_in_bounds { at + 8 ≤ length out.old }
    requires size_bound { size ≤ 65536 }
    ensures value { result ≡ at + 8 }
    ensures out_after { out.new ≡ sets out.old at (number_bytes 4 id ++ number_bytes 4 size) }
{
    write_pair(out, at, id, size as u32)
}

// A number of one byte with phrases, of four in a stream.
#[tactic(auto, using(crate::proofs::Numbers::point_bytes))]
pub fn write_point(phrases: bool, value: u32, out: &mut [u8], at: usize) -> usize
    requires { at + point_width phrases ≤ length out.old }
    ensures value { result ≡ at + point_width phrases }
    ensures out_after { out.new ≡ sets out.old at (number_bytes (point_width phrases) value) }
{
    if phrases {
        return write_number::<1>(out, at, value);
    }
    write_number::<4>(out, at, value)
}
