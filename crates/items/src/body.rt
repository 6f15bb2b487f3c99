// Whole bodies: one walk of a sequence body, and a setup body.
ghost use Rattle.std.specs.Prelude.{◌≡◌, ◌≤◌, length};
ghost use Rattle.model.specs.Item.{body_of, body_answer, setup_message_at, setup_of, check_answer};

use super::event::read_exclusive;
use super::item::read_item;
use super::pass::is_short;
use model::{Event, Read, ReadItem, Refusal, Voice, WalkedBody, refused};

pub fn read_body(voice: Voice, s: &[u8]) -> Result<WalkedBody, Refusal>
    requires { length s.now ≤ 65536 }
    ensures { result ≡ body_answer (body_of voice s.now) }
{
    if s.len() == 0 {
        return refused(11, 0);
    }
    let mut at: usize = 0;
    let mut count: usize = 0;
    let mut lasts: u64 = 0;
    while at < s.len() {
        if is_short(voice, s, at) {
            let duration = s[at];
            count += 1;
            lasts += duration as u64;
            at += 3;
        } else {
            match read_item(voice, s, at)? {
                ReadItem::Timed { duration, next, .. } => {
                    count += 1;
                    lasts += duration as u64;
                    at = next;
                }
                ReadItem::EndMark { next } => {
                    count += 1;
                    at = next;
                }
            }
        }
    }
    Ok(WalkedBody {
        count,
        duration: lasts,
    })
}

// A message of a setup body at a place.
#[tactic(auto, using(model::proofs::Tests::tests, model::proofs::Tests::junctions, crate::proofs::Setup::twos), unfolding(model::specs::Item::setup_message_at))]
fn read_setup_message(s: &[u8], at: usize) -> Result<Read<Event>, Refusal>
    requires { at ≤ length s.now }
    ensures { result ≡ setup_message_at s.now at }
{
    if s.len() - at < 2 || s[at] != 0xFF || s[at + 1] != 0xF0 {
        return refused(10, at);
    }
    read_exclusive(s, at)
}

pub fn read_setup(s: &[u8]) -> Result<(), Refusal>
    ensures { result ≡ check_answer (setup_of s.now) }
{
    if s.len() == 0 {
        return refused(10, 0);
    }
    let mut at: usize = 0;
    while at < s.len() {
        let Ok(message) = read_setup_message(s, at) else {
            return refused(10, at);
        };
        at = message.next;
    }
    Ok(())
}
