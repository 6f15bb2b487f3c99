// Texts and numbers at a place of lent memory. Writers return the place after what they wrote.
ghost use Rattle.std.specs.Prelude.{◌≡◌, ◌+◌, ◌≤◌, length, pos, ◌-ℤ◌};
ghost use Rattle.std.proofs.lemmas.List.Edits.{sets};
ghost use Rattle.model.specs.ListingText.{decimal, signed};
ghost use Rattle.lines.specs.Fields.{closed};

#[tactic(auto, using(model::proofs::Stores::part_stored))]
pub fn write_text(out: &mut [u8], at: usize, text: &[u8]) -> usize
    requires { at + length text.now ≤ length out.old }
    ensures value { result ≡ at + length text.now }
    ensures out_after { out.new ≡ sets out.old at text.now }
{
    let end = at + text.len();
    out[at..end].copy_from_slice(text);
    end
}

#[tactic(auto, using(crate::proofs::Numbers::digits))]
fn write_decimal(out: &mut [u8], at: usize, number: u64) -> usize
    requires { at + length (decimal number) ≤ length out.old }
    ensures value { result ≡ at + length (decimal number) }
    ensures out_after { out.new ≡ sets out.old at (decimal number) }
{
    if number < 10 {
        out[at] = 0x30 + number as u8;
        return at + 1;
    }
    let last = write_decimal(out, at, number / 10);
    out[last] = 0x30 + (number % 10) as u8;
    last + 1
}

// A number and the byte that closes its field.
#[tactic(auto, using(crate::proofs::Numbers::closes))]
pub fn write_number(out: &mut [u8], at: usize, number: u64, close: u8) -> usize
    requires { at + 21 ≤ length out.old }
    ensures value { result ≡ at + length (closed (decimal number) close) }
    ensures within { result ≤ at + 21 }
    ensures out_after { out.new ≡ sets out.old at (closed (decimal number) close) }
{
    let end = write_decimal(out, at, number);
    out[end] = close;
    end + 1
}

// The difference of two numbers, with a sign where it is below 0, and the byte that closes its field.
#[tactic(auto, using(crate::proofs::Numbers::signs))]
pub fn write_difference(out: &mut [u8], at: usize, up: u64, down: u64, close: u8) -> usize
    requires { at + 22 ≤ length out.old }
    ensures value { result ≡ at + length (closed (signed (pos up -ℤ pos down)) close) }
    ensures within { result ≤ at + 22 }
    ensures out_after { out.new ≡ sets out.old at (closed (signed (pos up -ℤ pos down)) close) }
{
    if up < down {
        out[at] = b'-';
        return write_number(out, at + 1, down - up, close);
    }
    write_number(out, at, up - down, close)
}
