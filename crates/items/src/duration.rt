// Durations and gate times.
ghost use Rattle.std.specs.Prelude.{◌≡◌, ◌≤◌};
ghost use Rattle.model.specs.Duration.{duration_at, gate_at, two_byte_value};

use model::{Read, Refusal, refused};

fn two_byte_value(one: u8, two: u8) -> u32
    requires { 128 ≤ one }
    ensures { result ≡ two_byte_value one two }
{
    128 * (u32::from(one) - 128) + u32::from(two) + 128
}

#[tactic(auto, using(model::proofs::Tests::tests), unfolding(model::specs::Duration::duration_at))]
pub fn read_duration(s: &[u8], at: usize) -> Result<Read<u32>, Refusal>
    ensures { result ≡ duration_at s.now at }
{
    if s.len() <= at {
        return refused(20, s.len());
    }
    let one = s[at];
    let next = at + 1;
    if one < 128 {
        return Ok(Read {
            what: u32::from(one),
            next,
        });
    }
    if s.len() <= next {
        return refused(20, s.len());
    }
    let two = s[next];
    if two < 128 {
        return Ok(Read {
            what: two_byte_value(one, two),
            next: at + 2,
        });
    }
    refused(23, next)
}

#[tactic(auto, using(model::proofs::Tests::tests), unfolding(model::specs::Duration::gate_at, model::specs::Duration::not_zero))]
pub fn read_gate(s: &[u8], at: usize) -> Result<Read<u32>, Refusal>
    ensures { result ≡ gate_at s.now at }
{
    let Read { what: value, next } = read_duration(s, at)?;
    if value == 0 {
        return refused(21, at);
    }
    Ok(Read { what: value, next })
}
