// The names of kinds.
ghost use Rattle.std.specs.Prelude.{◌≡◌, ◌+◌, ◌≤◌, length};
ghost use Rattle.std.proofs.lemmas.List.Edits.{sets};
ghost use Rattle.model.specs.ListingText.{kind_name, space};
ghost use Rattle.lines.specs.Fields.{closed};

use super::number::write_text;

#[tactic(auto, using(model::proofs::Tests::tests), unfolding(model::specs::ListingText::kind_name, model::specs::ListingText::bytes))]
fn kind_name(kind: u8) -> &'static [u8]
    ensures value { result.now ≡ kind_name kind }
    ensures within { length result.now ≤ 11 }
{
    match kind {
        1 => b"note",
        2 => b"wave",
        3 => b"program",
        4 => b"bank",
        5 => b"octaveshift",
        6 => b"modulation",
        7 => b"pitchbend",
        8 => b"volume",
        9 => b"pan",
        10 => b"expression",
        14 => b"exclusive",
        _ => b"",
    }
}

// A kind's name and the space that closes its field.
#[tactic(auto, using(crate::proofs::Numbers::closes))]
pub fn write_kind(out: &mut [u8], at: usize, kind: u8) -> usize
    requires { at + 12 ≤ length out.old }
    ensures value { result ≡ at + length (closed (kind_name kind) space) }
    ensures within { result ≤ at + 12 }
    ensures out_after { out.new ≡ sets out.old at (closed (kind_name kind) space) }
{
    let end = write_text(out, at, kind_name(kind));
    out[end] = b' ';
    end + 1
}
