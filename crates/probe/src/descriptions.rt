// `w`, `b`: the description of a file or of a body, laid out in the tables that the writer takes (model/specs/Tables). A body's table of bytes is
// its source. A description that is cut is none.
use super::cursor::Cursor;
use super::tables::Table;
use model::Voice;
use numbers::number_at;

const ORDER_LIST: u8 = 3;

// So many things of a description, and their bytes.
#[derive(Clone, Copy)]
struct Stretch<'a> {
    count: u32,
    bytes: &'a [u8],
}

// A number, and so many things of a width.
fn stretch_at<'a>(at: &mut Cursor<'a>, width: usize) -> Option<Stretch<'a>> {
    let count = at.number::<4>()?;
    let bytes = at.bytes((count as usize).checked_mul(width)?)?;
    Some(Stretch { count, bytes })
}

// An entry, with letters where it is an order list.
#[derive(Clone, Copy)]
struct Entry<'a> {
    kind: u8,
    letter: u8,
    from: u32,
    to: u32,
    letters: Option<Stretch<'a>>,
}

fn entry_at<'a>(at: &mut Cursor<'a>) -> Option<Entry<'a>> {
    let kind = at.byte()?;
    let letter = at.byte()?;
    let from = at.number::<4>()?;
    let to = at.number::<4>()?;
    let letters = letters_at(at, kind, from)?;
    Some(Entry {
        kind,
        letter,
        from,
        to,
        letters,
    })
}

fn letters_at<'a>(at: &mut Cursor<'a>, kind: u8, count: u32) -> Option<Option<Stretch<'a>>> {
    if kind != ORDER_LIST {
        return Some(None);
    }
    let bytes = at.bytes(count as usize)?;
    Some(Some(Stretch { count, bytes }))
}

// So many entries from a place on, and the letters of the first order list; of others none are laid out.
#[derive(Clone, Copy)]
struct Entries<'a> {
    count: u32,
    from: Cursor<'a>,
    letters: Stretch<'a>,
}

fn entries_at<'a>(at: &mut Cursor<'a>) -> Option<Entries<'a>> {
    let count = at.number::<2>()?;
    let from = *at;
    let mut letters = None;
    for _ in 0..count {
        let entry = entry_at(at)?;
        letters = letters.or(entry.letters);
    }
    Some(Entries {
        count,
        from,
        letters: letters.unwrap_or(Stretch {
            count: 0,
            bytes: &[],
        }),
    })
}

fn lay_entries(entries: Entries, numbers: &mut Table<u32>) -> Option<()> {
    let mut at = entries.from;
    for _ in 0..entries.count {
        let entry = entry_at(&mut at)?;
        numbers.extend(&[entry.kind as u32, entry.letter as u32, entry.from, entry.to]);
    }
    Some(())
}

fn lay_items(items: Stretch, numbers: &mut Table<u32>) {
    for number in items.bytes.chunks_exact(4) {
        numbers.push(number_at::<4>(number, 0));
    }
}

fn lay_track(at: &mut Cursor, numbers: &mut Table<u32>, bytes: &mut Table<u8>) -> Option<()> {
    let fixed = at.bytes(7)?;
    let entries = entries_at(at)?;
    let items = stretch_at(at, 8)?;
    let source = stretch_at(at, 1)?;
    let letters = entries.letters;
    numbers.extend(&[entries.count, items.count, letters.count, source.count]);
    lay_entries(entries, numbers)?;
    lay_items(items, numbers);
    bytes.extend(fixed);
    bytes.extend(letters.bytes);
    bytes.extend(source.bytes);
    Some(())
}

pub fn lay_file(buffer: &[u8], numbers: &mut Table<u32>, bytes: &mut Table<u8>) -> Option<()> {
    let mut at = Cursor::new(buffer);
    bytes.extend(at.bytes(5)?);
    let tracks = at.byte()?;
    for _ in 0..tracks {
        lay_track(&mut at, numbers, bytes)?;
    }
    Some(())
}

pub fn lay_body(buffer: &[u8], numbers: &mut Table<u32>, bytes: &mut Table<u8>) -> Option<Voice> {
    let mut at = Cursor::new(buffer);
    let voice = match at.byte()? {
        0 => Voice::Score,
        1 => Voice::Pcm,
        _ => return None,
    };
    let items = stretch_at(&mut at, 8)?;
    let source = stretch_at(&mut at, 1)?;
    lay_items(items, numbers);
    bytes.extend(source.bytes);
    Some(voice)
}
