// The messages in the picture: a note as long as its gate at its pitch, a wave in its lane, anything else as a mark in the lane below.
use super::layout::{Bases, Layout, NoteName, Seconds, Tenths, colour, milliseconds};
use super::messages::{Kind, Message, Shifts};
use std::fmt;
use std::fmt::Write;
use text::Page;

// A message, the row of its note, and the milliseconds from which to which it lasts.
#[derive(Clone, Copy)]
struct Heard {
    message: Message,
    row: u64,
    from: u64,
    to: u64,
}

// How wide it is, in tenths of a pixel: a pixel and a half at least.
fn width(layout: Layout, heard: Heard) -> u64 {
    let wide = layout
        .across(heard.to)
        .saturating_sub(layout.across(heard.from));
    wide.max(15)
}

// A bar as long as a message's gate.
fn put_bar(page: &mut Page, layout: Layout, heard: Heard) -> fmt::Result {
    write!(
        page,
        "<rect rx=\"2\" stroke=\"#fff\" stroke-width=\"0.6\" fill-opacity=\"0.88\" x=\"{}\" width=\"{}\" fill=\"{}\"",
        Tenths(layout.across(heard.from)),
        Tenths(width(layout, heard)),
        colour(heard.message.channel)
    )
}

// What is told of a message where the mouse rests on it: its channel and its time.
fn put_told(page: &mut Page, heard: Heard) -> fmt::Result {
    writeln!(
        page,
        ", channel {}, at {} s</title></rect>",
        heard.message.channel,
        Seconds(heard.from)
    )
}

fn draw_note(page: &mut Page, layout: Layout, heard: Heard) -> fmt::Result {
    put_bar(page, layout, heard)?;
    write!(
        page,
        " y=\"{}.0\" height=\"{}.0\"><title>{}",
        layout.edge(heard.row),
        layout.row_height,
        NoteName(heard.row)
    )?;
    put_told(page, heard)
}

// A wave's number on its bar, where the bar is wide enough for it.
fn draw_number(page: &mut Page, layout: Layout, heard: Heard) -> fmt::Result {
    if width(layout, heard) < 180 {
        return Ok(());
    }
    writeln!(
        page,
        "<text fill=\"#fff\" font-size=\"11\" font-weight=\"bold\" dx=\"4\" dy=\"15\" x=\"{}\" y=\"{}.0\">{}</text>",
        Tenths(layout.across(heard.from)),
        layout.waves,
        heard.message.value
    )
}

fn draw_wave(page: &mut Page, layout: Layout, heard: Heard) -> fmt::Result {
    put_bar(page, layout, heard)?;
    write!(
        page,
        " y=\"{}.0\" height=\"22\"><title>wave {}",
        layout.waves, heard.message.value
    )?;
    put_told(page, heard)?;
    draw_number(page, layout, heard)
}

// An exclusive is no channel's.
fn stroke(message: Message) -> &'static str {
    match message.kind {
        Kind::Exclusive => "#444",
        _ => colour(message.channel),
    }
}

fn draw_other(page: &mut Page, layout: Layout, heard: Heard) -> fmt::Result {
    writeln!(
        page,
        "<rect width=\"2\" height=\"14\" fill=\"{}\" x=\"{}\" y=\"{}.0\"/>",
        stroke(heard.message),
        Tenths(layout.across(heard.from)),
        layout.others
    )
}

fn draw_message(page: &mut Page, layout: Layout, heard: Heard) -> fmt::Result {
    match heard.message.kind {
        Kind::Note => draw_note(page, layout, heard),
        Kind::Wave => draw_wave(page, layout, heard),
        _ => draw_other(page, layout, heard),
    }
}

pub fn draw_messages(
    page: &mut Page,
    layout: Layout,
    bases: Bases,
    steps: &[u64],
    words: &[u32],
    count: usize,
) -> fmt::Result {
    let mut shifts = Shifts::none();
    for (step, word) in steps.iter().zip(words).take(count) {
        let message = Message::of(*word);
        let from = milliseconds(*step, bases.step);
        let heard = Heard {
            message,
            row: shifts.row_of(message),
            from,
            to: from.saturating_add(milliseconds(message.gate, bases.gate)),
        };
        draw_message(page, layout, heard)?;
        shifts = shifts.after(message);
    }
    Ok(())
}
