// Durations and gate times of at most 16,511 steps, in one byte or two.
ghost use Rattle.std.specs.Prelude.{◌≡◌, ◌+◌, ◌≤◌, length};
ghost use Rattle.std.proofs.lemmas.List.Edits.{sets};
ghost use Rattle.model.specs.Duration.{duration_bytes};

#[tactic(auto, using(crate::proofs::Durations::sizes))]
pub fn duration_size(value: u32) -> usize
    ensures { (result ≡ length (duration_bytes value)) × (result ≤ 2) }
{
    if value < 128 {
        return 1;
    }
    2
}

// At a place with room for it. Returns the place after it.
pub fn write_duration(out: &mut [u8], at: usize, value: u32) -> usize
    requires value_bound { value ≤ 16511 }
    requires value_in_bounds { at + length (duration_bytes value) ≤ length out.old }
    ensures value { result ≡ at + length (duration_bytes value) }
    ensures out_after { out.new ≡ sets out.old at (duration_bytes value) }
{
    if value < 128 {
        out[at] = value as u8;
        return at + 1;
    }
    let above = value - 128;
    out[at] = (above / 128 + 128) as u8;
    out[at + 1] = (above % 128) as u8;
    at + 2
}
