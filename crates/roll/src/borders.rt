// The borders of a phrase track's sections, each with its letter: where the order list is played, by the proved span of each letter
// that is heard; and the end marks there.
ghost use Rattle.std.specs.Prelude.{◌≡◌, true, ◌≤◌, length};
ghost use Rattle.playing.specs.Performing.{entries_said, Inside, Named, Ready};

use super::endings::{draw_passed, draw_stop, draw_stream};
use super::layout::{Layout, Tenths, draw_upright, milliseconds};
use super::marks::{count_whole, marked_letters};
use model::{Bodies, Span, Voice};
use std::fmt;
use std::fmt::Write;
use text::Page;

fn draw_letter(page: &mut Page, x: u64, letter: u8) -> fmt::Result {
    write!(
        page,
        "<text y=\"82\" dx=\"4\" font-weight=\"bold\" fill=\"#6b4f9b\" x=\"{}\">",
        Tenths(x)
    )?;
    page.put(&[letter]);
    writeln!(page, "</text>")
}

// The start of a section, as long as there is room for its border and its letter.
fn draw_start(page: &mut Page, layout: Layout, left: u64, right: u64, letter: u8) -> fmt::Result {
    let wide = right.saturating_sub(left);
    if wide < 30 {
        return Ok(());
    }
    draw_upright(
        page,
        layout,
        left,
        "stroke=\"#6b4f9b\" stroke-width=\"1\" stroke-dasharray=\"4 3\" y1=\"68\"",
    )?;
    if wide < 120 {
        return Ok(());
    }
    draw_letter(page, left, letter)
}

// The section of a letter from a time to another, and the mark at its end, if one stands there.
fn draw_section(
    page: &mut Page,
    layout: Layout,
    from: u64,
    to: u64,
    letter: u8,
    marked: bool,
) -> fmt::Result {
    let left = layout.across(from);
    let right = layout.across(to);
    draw_start(page, layout, left, right, letter)?;
    if marked {
        return draw_passed(page, layout, left, right);
    }
    Ok(())
}

// Sections one after the other, so many of them to their ends, with the marks that are passed.
fn draw_sections(
    page: &mut Page,
    layout: Layout,
    base: u64,
    spans: [Span; 256],
    marked: [bool; 256],
    letters: &[u8],
    whole: usize,
) -> fmt::Result {
    let mut before: u64 = 0;
    for (i, letter) in letters.iter().enumerate() {
        let slot = *letter as usize;
        let after = before.saturating_add(spans[slot].lasts);
        draw_section(
            page,
            layout,
            milliseconds(before, base),
            milliseconds(after, base),
            *letter,
            i < whole && marked[slot],
        )?;
        before = after;
    }
    Ok(())
}

// The sections of the letters that are heard, so many of them to their ends, and the mark where playing stops.
fn draw_heard(
    page: &mut Page,
    layout: Layout,
    base: u64,
    spans: [Span; 256],
    marked: [bool; 256],
    letters: &[u8],
    heard: usize,
    whole: usize,
) -> fmt::Result
    requires { heard ≤ length letters.now }
{
    draw_sections(page, layout, base, spans, marked, &letters[..heard], whole)?;
    if whole == heard {
        return Ok(());
    }
    draw_stop(page, layout, letters.len() - heard, "letter")
}

fn draw_planned(
    page: &mut Page,
    layout: Layout,
    base: u64,
    voice: Voice,
    body: &[u8],
    seek: &[u8],
    letters: &[u8],
) -> fmt::Result
    requires ready { Ready voice true body.now seek.now }
    requires letters_len_bound { length letters.now ≤ 65536 }
    requires named { Named (entries_said true seek.now) letters.now }
{
    let found = playing::find_spans(voice, body, seek, letters);
    let spans = found.spans;
    let heard = found.letters;
    let whole = count_whole(voice, body, seek, letters, heard);
    let marked = marked_letters(voice, body, spans);
    draw_heard(page, layout, base, spans, marked, letters, heard, whole)
}

fn draw_phrases(
    page: &mut Page,
    layout: Layout,
    base: u64,
    voice: Voice,
    body: &[u8],
    seek: &[u8],
) -> fmt::Result
    requires { Ready voice true body.now seek.now }
{
    let points = playing::points_of(true, seek);
    if !points.ordered {
        return Ok(());
    }
    draw_planned(
        page,
        layout,
        base,
        voice,
        body,
        seek,
        playing::letters_played(seek, points),
    )
}

pub fn draw_borders(
    page: &mut Page,
    layout: Layout,
    base: u64,
    file: &[u8],
    bodies: Bodies,
) -> fmt::Result
    requires file_len_bound { length file.now ≤ 65536 }
    requires inside { Inside file.now bodies }
{
    let voice = bodies.voice;
    let body = playing::bytes_in(file, bodies.sequence);
    let seek = playing::bytes_in(file, bodies.seek);
    if bodies.phrases {
        return draw_phrases(page, layout, base, voice, body, seek);
    }
    draw_stream(page, layout, voice, body, seek)
}
