// The items of a sequence body, two numbers each: a duration and a word.
ghost use Rattle.std.specs.Prelude.{◌≡◌, true, ◌*◌, ◌≤◌, length};
ghost use Rattle.std.proofs.lemmas.List.Edits.{sets};
ghost use Rattle.model.specs.Item.{body_of, is_fine, items_of};
ghost use Rattle.model.specs.Writing.{items_numbers};
ghost use Rattle.model.specs.Answer.{items_answer, items_table};
ghost use Rattle.playing.specs.Performing.{bytes_in, Inside};
ghost use Rattle.giving.specs.Giving.{word_given, items_fitted};

use model::{Bodies, Refusal, Voice, refused};

#[tactic(auto, using(crate::proofs::ItemsGiven::counting))]
fn count_items(voice: Voice, body: &[u8]) -> usize
    requires body_len_bound { length body.now ≤ 65536 }
    requires body_value { is_fine (body_of voice body.now) ≡ true }
    ensures { result ≡ length (items_of voice body.now) }
{
    match items::read_body(voice, body) {
        Ok(walked) => walked.count,
        Err(_) => 0,
    }
}

// The word of an item, from that of its message: where it has none, that of an end mark or of a NOP.
#[tactic(auto, using(model::proofs::Tests::tests), unfolding(crate::specs::Giving::word_given))]
fn word_given(word: u32, mark: bool) -> u32
    ensures { result ≡ word_given word mark }
{
    if word != 0 {
        return word;
    }
    if mark {
        return 0x80000000;
    }
    0x78000000
}

#[tactic(auto, using(crate::proofs::ItemsGiven::gives))]
fn fill_items(voice: Voice, body: &[u8], table: &mut [u32])
    requires body_len_bound { length body.now ≤ 65536 }
    requires body_value { is_fine (body_of voice body.now) ≡ true }
    requires body_in_bounds { 2 * length (items_of voice body.now) ≤ length table.old }
    ensures { table.new ≡ sets table.old 0 (items_numbers (items_of voice body.now)) }
{
    let mut at: usize = 0;
    let mut place: usize = 0;
    while at < body.len() {
        let item = sections::take_item(voice, body, at);
        table[place] = item.duration;
        table[place + 1] = word_given(item.word, item.mark);
        place += 2;
        at = item.next;
    }
}

#[tactic(auto, using(crate::proofs::ItemsGiven::items_given_lem))]
pub fn give_items(s: &[u8], bodies: Bodies, table: &mut [u32]) -> Result<usize, Refusal>
    requires s_len_bound { length s.now ≤ 65536 }
    requires inside { Inside s.now bodies }
    ensures value { result ≡ items_answer (items_fitted (length table.old) (items_of bodies.voice (bytes_in s.now bodies.sequence))) }
    ensures table_after { table.new ≡ items_table table.old (items_fitted (length table.old) (items_of bodies.voice (bytes_in s.now bodies.sequence))) }
{
    let voice = bodies.voice;
    let body = playing::bytes_in(s, bodies.sequence);
    let count = count_items(voice, body);
    if table.len() / 2 < count {
        return refused(15, 0);
    }
    fill_items(voice, body, table);
    Ok(count)
}
