// The frame of the picture: how large it is, its title, the rows with their note names, the seconds, the names of the lanes.
use super::layout::{
    Bases, Layout, Many, NoteName, Played, Seconds, TOP, Tenths, above_c, colour, draw_upright,
    is_black, is_natural_c, milliseconds,
};
use super::messages::Survey;
use std::fmt;
use std::fmt::Write;
use text::Page;

// How high a row of so many is.
fn height_of_row(rows: u64) -> u64 {
    match rows {
        0..=25 => 14,
        26..=49 => 10,
        50..=73 => 7,
        _ => 5,
    }
}

// The C at or below the lowest note.
fn lowest_shown(found: Survey) -> u64 {
    let lowest = found.lowest;
    if 143 < lowest {
        return 0;
    }
    lowest.saturating_sub(above_c(lowest))
}

// How many rows there are up to the C at or above the highest note; none without a note.
fn rows_shown(found: Survey, lowest: u64) -> u64 {
    let highest = found.highest;
    if found.notes == 0 || 143 < highest {
        return 0;
    }
    if highest <= lowest {
        return 13;
    }
    (highest - lowest + 11) / 12 * 12 + 1
}

// How deep a lane of something that may not be there is.
fn lane_depth(many: u64, depth: u64) -> u64 {
    match many {
        0 => 0,
        _ => depth,
    }
}

pub fn layout_of(played: Played, bases: Bases, found: Survey) -> Layout {
    let lowest = lowest_shown(found);
    let rows = rows_shown(found, lowest);
    let row_height = height_of_row(rows);
    let waves = rows.saturating_mul(row_height).saturating_add(TOP + 8);
    let others = waves.saturating_add(lane_depth(found.waves, 30));
    let bottom = others.saturating_add(lane_depth(found.others, 24));
    Layout {
        lowest,
        rows,
        row_height,
        total: milliseconds(played.end, bases.step),
        waves,
        others,
        bottom,
        height: bottom.saturating_add(46),
    }
}

fn draw_head(page: &mut Page, layout: Layout) -> fmt::Result {
    let height = layout.height;
    writeln!(
        page,
        "<svg xmlns=\"http://www.w3.org/2000/svg\" width=\"1200\" height=\"{height}\" viewBox=\"0 0 1200 {height}\" font-family=\"Helvetica, Arial, sans-serif\" font-size=\"12\" fill=\"#222\">"
    )?;
    writeln!(
        page,
        "<rect width=\"1200\" height=\"100%\" fill=\"#fafbfc\"/>"
    )
}

fn draw_title(page: &mut Page, layout: Layout, found: Survey, played: Played) -> fmt::Result {
    writeln!(
        page,
        "<text x=\"70\" y=\"30\" font-size=\"18\" font-weight=\"bold\">{} s, {}</text>",
        Seconds(layout.total),
        Many(played.count as u64, "message")
    )?;
    writeln!(
        page,
        "<text x=\"70\" y=\"50\" fill=\"#555\">{}, {}, {}; row {} of the file</text>",
        Many(found.notes, "note"),
        Many(found.waves, "wave"),
        Many(found.others, "other message"),
        played.row
    )
}

// The colour of a channel and its number.
fn draw_channel(page: &mut Page, channel: u8) -> fmt::Result {
    let x = Tenths(7800 + 1000 * channel as u64);
    let colour = colour(channel);
    writeln!(
        page,
        "<rect y=\"38\" width=\"12\" height=\"12\" rx=\"2\" x=\"{x}\" fill=\"{colour}\"/>"
    )?;
    writeln!(
        page,
        "<text y=\"49\" dx=\"17\" x=\"{x}\">channel {channel}</text>"
    )
}

fn draw_channels(page: &mut Page, channels: [bool; 4]) -> fmt::Result {
    for (channel, heard) in (0..4u8).zip(channels) {
        if heard {
            draw_channel(page, channel)?;
        }
    }
    Ok(())
}

// The band of a row: darker for a black key.
fn draw_band(page: &mut Page, layout: Layout, row: u64) -> fmt::Result {
    let fill = if is_black(row) { "#f0f1f4" } else { "#ffffff" };
    writeln!(
        page,
        "<rect x=\"70\" width=\"1100\" y=\"{}.0\" height=\"{}.0\" fill=\"{fill}\"/>",
        layout.edge(row),
        layout.row_height
    )
}

// The line under a C.
fn draw_octave(page: &mut Page, layout: Layout, row: u64) -> fmt::Result {
    let y = layout.edge(row).saturating_add(layout.row_height);
    writeln!(
        page,
        "<line x1=\"70\" x2=\"1170\" stroke=\"#8a93a6\" stroke-width=\"0.8\" y1=\"{y}.0\" y2=\"{y}.0\"/>"
    )
}

fn draw_row_name(page: &mut Page, layout: Layout, row: u64) -> fmt::Result {
    let style = if is_natural_c(row) {
        "font-weight=\"bold\""
    } else {
        "fill=\"#777\" font-size=\"10\""
    };
    writeln!(
        page,
        "<text x=\"62\" text-anchor=\"end\" dy=\"3.5\" y=\"{}.0\" {style}>{}</text>",
        layout.edge(row).saturating_add(layout.row_height / 2),
        NoteName(row)
    )
}

// One row. A C has a line and its name; the other white keys have theirs where there is room.
fn draw_row(page: &mut Page, layout: Layout, row: u64) -> fmt::Result {
    draw_band(page, layout, row)?;
    if is_natural_c(row) {
        draw_octave(page, layout, row)?;
        return draw_row_name(page, layout, row);
    }
    if is_black(row) || layout.row_height < 10 {
        return Ok(());
    }
    draw_row_name(page, layout, row)
}

fn draw_rows(page: &mut Page, layout: Layout) -> fmt::Result {
    for row in layout.lowest..layout.lowest.saturating_add(layout.rows) {
        draw_row(page, layout, row)?;
    }
    Ok(())
}

// Milliseconds from one line of the time's grid to the next, so that there are no more than about twelve.
fn grid_step(total: u64) -> u64 {
    let least = total / 12;
    let steps = [
        100, 200, 500, 1000, 2000, 5000, 10000, 20000, 30000, 60000, 120000, 300000, 600000,
        1800000, 3600000,
    ];
    steps
        .iter()
        .copied()
        .find(|step| least <= *step)
        .unwrap_or(least)
}

// A time of the grid: whole seconds, or with one decimal.
#[derive(Clone, Copy)]
struct GridTime(u64);

impl fmt::Display for GridTime {
    fn fmt<W: fmt::Write>(&self, f: &mut fmt::Formatter<W>) -> fmt::Result {
        let seconds = self.0 / 1000;
        if self.0 % 1000 == 0 {
            return write!(f, "{seconds} s");
        }
        write!(f, "{seconds}.{} s", self.0 / 100 % 10)
    }
}

fn draw_second(page: &mut Page, layout: Layout, time: u64) -> fmt::Result {
    let x = layout.across(time);
    draw_upright(
        page,
        layout,
        x,
        "stroke=\"#c9cfda\" stroke-width=\"0.7\" y1=\"90\"",
    )?;
    writeln!(
        page,
        "<text text-anchor=\"middle\" fill=\"#555\" dy=\"22\" x=\"{}\" y=\"{}.0\">{}</text>",
        Tenths(x),
        layout.bottom,
        GridTime(time)
    )
}

fn draw_seconds(page: &mut Page, layout: Layout) -> fmt::Result {
    let step = grid_step(layout.total);
    for line in 0..14u64 {
        let time = step.saturating_mul(line);
        if time <= layout.total {
            draw_second(page, layout, time)?;
        }
    }
    Ok(())
}

fn draw_lane_name(page: &mut Page, from: u64, to: u64, name: &str) -> fmt::Result {
    if to <= from {
        return Ok(());
    }
    writeln!(
        page,
        "<text x=\"62\" text-anchor=\"end\" fill=\"#555\" dy=\"15\" y=\"{from}.0\">{name}</text>"
    )
}

pub fn draw_frame(page: &mut Page, layout: Layout, found: Survey, played: Played) -> fmt::Result {
    draw_head(page, layout)?;
    draw_title(page, layout, found, played)?;
    draw_channels(page, found.channels)?;
    draw_rows(page, layout)?;
    draw_seconds(page, layout)?;
    draw_lane_name(page, layout.waves, layout.others, "waves")?;
    draw_lane_name(page, layout.others, layout.bottom, "other")
}
