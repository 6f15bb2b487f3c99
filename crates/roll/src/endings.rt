// End marks in the picture: a thin line where playing stops at one, which tells what is not played for it, and a fainter one where a mark
// stands at the end of a section that does not reach it. So a tune that ends in its mark, as most do, is drawn with it.
ghost use Rattle.std.specs.Prelude.{false};
ghost use Rattle.playing.specs.Performing.{Ready};

use super::layout::{Layout, Many, Tenths, draw_upright};
use super::marks::{after_mark, ends_at_mark, messages_between};
use model::{Passage, Voice};
use std::fmt;
use std::fmt::Write;
use text::Page;

// Two pixels before a border; where the picture ends there is none.
fn beside(x: u64) -> u64 {
    if 11700 <= x {
        return x;
    }
    x.saturating_sub(20)
}

// The mark at the end of a section, as long as there is room for it and its name.
pub fn draw_passed(page: &mut Page, layout: Layout, left: u64, right: u64) -> fmt::Result {
    let x = beside(right);
    let wide = right.saturating_sub(left);
    if wide < 120 {
        return Ok(());
    }
    draw_upright(
        page,
        layout,
        x,
        "stroke=\"#a61e4d\" stroke-width=\"0.75\" stroke-opacity=\"0.6\" y1=\"68\"",
    )?;
    if wide < 750 {
        return Ok(());
    }
    writeln!(
        page,
        "<text y=\"82\" dx=\"-4\" text-anchor=\"end\" font-size=\"10\" fill=\"#a61e4d\" fill-opacity=\"0.7\" x=\"{}\">end mark</text>",
        Tenths(x)
    )
}

// On the side where there is room.
fn side(x: u64) -> &'static str {
    if x < 6000 {
        "dx=\"5\""
    } else {
        "dx=\"-5\" text-anchor=\"end\""
    }
}

// The mark where playing stops, and how much of something is not played for it.
pub fn draw_stop(page: &mut Page, layout: Layout, many: usize, one: &str) -> fmt::Result {
    let x = layout.across(layout.total);
    draw_upright(
        page,
        layout,
        x,
        "stroke=\"#a61e4d\" stroke-width=\"0.75\" y1=\"56\"",
    )?;
    write!(
        page,
        "<text y=\"65\" fill=\"#a61e4d\" x=\"{}\" {}>stops at end mark",
        Tenths(x),
        side(x)
    )?;
    if 0 < many {
        write!(page, ", {} not played", Many(many as u64, one))?;
    }
    writeln!(page, "</text>")
}

// The first mark from a place on, where playing stops, and how many messages stand behind it up to another place.
fn draw_reached(
    page: &mut Page,
    layout: Layout,
    voice: Voice,
    body: &[u8],
    from: usize,
    to: usize,
) -> fmt::Result {
    match after_mark(voice, body, from) {
        Some(next) => draw_stop(
            page,
            layout,
            messages_between(voice, body, next, to),
            "message",
        ),
        None => Ok(()),
    }
}

// The section of a stream from a place up to another: it stops at a mark, or one may stand at its end.
fn draw_passage(
    page: &mut Page,
    layout: Layout,
    voice: Voice,
    body: &[u8],
    passage: Passage,
    from: usize,
    to: usize,
) -> fmt::Result {
    if passage.stops {
        return draw_reached(page, layout, voice, body, from, to);
    }
    if ends_at_mark(voice, body, passage.span) {
        return draw_passed(page, layout, 700, layout.across(layout.total));
    }
    Ok(())
}

pub fn draw_stream(
    page: &mut Page,
    layout: Layout,
    voice: Voice,
    body: &[u8],
    seek: &[u8],
) -> fmt::Result
    requires { Ready voice false body.now seek.now }
{
    let points = playing::points_of(false, seek);
    let start = points.start as usize;
    if points.stops {
        let stop = points.stop as usize;
        let passage = sections::span_between(voice, body, start, stop);
        return draw_passage(page, layout, voice, body, passage, start, stop);
    }
    draw_reached(page, layout, voice, body, start, body.len())
}
