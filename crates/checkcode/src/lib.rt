// The check code of any bytes, eight at a time by eight tables of 256 remainders, and what is left a byte at a time by the first of
// them. It is the one that model/specs/CheckCode defines bit by bit.
#![tactic(auto)]

ghost use Rattle.std.specs.Prelude.{◌≡◌, ◌<◌, ◌∷◌, replicate};
ghost use Rattle.std.specs.List.{concat};
ghost use Rattle.model.specs.CheckCode.{byte_step, remainder_from, check_code};

mod tables;

use tables::TABLES;

// The remainder of a byte that so many zero bytes follow.
fn followed(byte: u8, zeros: usize) -> u16
    requires { zeros < 8 }
    ensures { result ≡ remainder_from 0 (byte ∷ replicate zeros 0) }
{
    TABLES[zeros][byte as usize]
}

// The remainder of four bytes that so many zero bytes follow.
#[tactic(auto, using(crate::proofs::Slices::four_by_tables))]
fn four_followed(a: u8, b: u8, c: u8, d: u8, zeros: usize) -> u16
    requires { zeros < 5 }
    ensures { result ≡ remainder_from 0 (a ∷ b ∷ c ∷ d ∷ replicate zeros 0) }
{
    followed(a, zeros + 3) ^ followed(b, zeros + 2) ^ followed(c, zeros + 1) ^ followed(d, zeros)
}

// The remainder after one byte more.
#[tactic(auto, using(crate::proofs::Slices::step_by_table))]
fn step(remainder: u16, byte: u8) -> u16
    ensures { result ≡ byte_step remainder byte }
{
    followed((remainder / 256) as u8 ^ byte, 0) ^ (remainder % 256 * 256)
}

// The remainder after eight bytes more.
#[tactic(auto, using(crate::proofs::Slices::eight_by_tables))]
fn eight_steps(remainder: u16, s: &[u8; 8]) -> u16
    ensures { result ≡ remainder_from remainder s.now }
{
    let first = (remainder / 256) as u8 ^ s[0];
    let second = (remainder % 256) as u8 ^ s[1];
    four_followed(first, second, s[2], s[3], 4) ^ four_followed(s[4], s[5], s[6], s[7], 0)
}

// The remainder after all bytes of so many eights.
#[tactic(auto, using(crate::proofs::Parts::next_part), unfolding(model::specs::CheckCode::remainder_from))]
fn over_eights(start: u16, eights: &[[u8; 8]]) -> u16
    ensures { result ≡ remainder_from start (concat eights.now) }
{
    let mut remainder = start;
    for eight in eights {
        remainder = eight_steps(remainder, eight);
    }
    remainder
}

// The remainder after all bytes of `s`.
#[tactic(auto, using(crate::proofs::Parts::next_byte), unfolding(model::specs::CheckCode::remainder_from))]
fn over_bytes(start: u16, s: &[u8]) -> u16
    ensures { result ≡ remainder_from start s.now }
{
    let mut remainder = start;
    for &byte in s {
        remainder = step(remainder, byte);
    }
    remainder
}

// The remainder after all bytes of `s`, from all ones: the whole eights, and then the rest.
#[tactic(auto, using(crate::proofs::Parts::one_after_the_other, crate::proofs::Parts::chunks_and_rest))]
fn over_all(s: &[u8]) -> u16
    ensures { result ≡ remainder_from 0xFFFF s.now }
{
    let (eights, rest) = s.as_chunks::<8>();
    over_bytes(over_eights(0xFFFF, eights), rest)
}

#[tactic(auto, unfolding(model::specs::CheckCode::check_code))]
pub fn check_code(s: &[u8]) -> u16
    ensures { result ≡ check_code s.now }
{
    0xFFFF - over_all(s)
}
