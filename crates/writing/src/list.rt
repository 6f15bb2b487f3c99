// A list of items, given in a lent table of two numbers each: checked, counted, and written into lent memory.
ghost use Rattle.std.specs.Prelude.{◌≡◌, true, ◌+◌, ◌≤◌, length};
ghost use Rattle.std.proofs.lemmas.List.Edits.{sets};
ghost use Rattle.model.specs.Item.{is_fine};
ghost use Rattle.model.specs.Writing.{items_given};
ghost use Rattle.model.specs.Answer.{write_items_of, write_answer, write_room};
ghost use Rattle.writing.specs.Parts.{CheckedTo, size_answer, list_bytes};

use super::given::{check_item, given_size, write_given};
use super::limit::within_limit;
use model::{Refusal, Voice, refused};

// The first item that is at fault, or how many bytes all of them take, 65,537 standing for more than 65,536. So many items before have no fault, and take so
// many bytes.
pub fn check_from(
    voice: Voice,
    source: &[u8],
    items: &[u32],
    checked: usize,
    taken: usize,
) -> Result<usize, Refusal>
    requires { CheckedTo voice source.now items.now checked taken }
    ensures { result ≡ size_answer (items_given voice source.now items.now) }
{
    let count = items.len() / 2;
    if count == 0 {
        return refused(11, 0);
    }
    let mut size = within_limit(taken);
    for i in checked..count {
        let duration = items[2 * i];
        let word = items[2 * i + 1];
        if let Err(why) = check_item(voice, source, duration, word) {
            return refused(why.number, i);
        }
        size = within_limit(size + given_size(duration, word));
    }
    Ok(size)
}

pub fn check_items(voice: Voice, source: &[u8], items: &[u32]) -> Result<usize, Refusal>
    ensures { result ≡ size_answer (items_given voice source.now items.now) }
{
    check_from(voice, source, items, 0, 0)
}

// Items that can be written, at a place with room for them. Returns the place after them.
pub fn write_list(voice: Voice, source: &[u8], items: &[u32], out: &mut [u8], at: usize) -> usize
    requires value { is_fine (items_given voice source.now items.now) ≡ true }
    requires in_bounds { at + length (list_bytes (items_given voice source.now items.now)) ≤ length out.old }
    ensures value_2 { result ≡ at + length (list_bytes (items_given voice source.now items.now)) }
    ensures out_after { out.new ≡ sets out.old at (list_bytes (items_given voice source.now items.now)) }
{
    let mut next = at;
    for item in items.chunks_exact(2) {
        next = write_given(voice, source, item[0], item[1], out, next);
    }
    next
}

pub fn write_items(
    voice: Voice,
    source: &[u8],
    items: &[u32],
    out: &mut [u8],
) -> Result<usize, Refusal>
    ensures value { result ≡ write_answer (write_items_of voice source.now items.now (length out.old)) }
    ensures out_after { out.new ≡ write_room out.old (write_items_of voice source.now items.now (length out.old)) }
{
    let length = check_items(voice, source, items)?;
    if 65536 < length || out.len() < length {
        return refused(24, 0);
    }
    Ok(write_list(voice, source, items, out, 0))
}
