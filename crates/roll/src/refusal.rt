// The picture of a refused file: its number, its place, and what the number means.
use model::Refusal;
use std::fmt;
use std::fmt::Write;
use text::Page;

fn reason(number: u32) -> &'static str {
    match number {
        0..=3 => "this is no whole SMAF file",
        4..=7 => "the list of its chunks is damaged",
        8..=9 => "a track is of an unknown kind, or lacks a part",
        10 => "a setup is damaged",
        11 => "a sequence is empty",
        12..=14 => "points, phrases or the order list are damaged",
        15 => "it has more than 65,536 messages",
        16 => "no track of it can be read",
        17..=19 => "a track with phrases has no order list",
        20 => "a sequence ends here, and its last item needs more bytes",
        21 => "a forbidden note or wave number, or a gate time of 0",
        22 => "a reserved event or control",
        _ => "a reserved value, or a bad byte of a time or an exclusive",
    }
}

fn draw_card(page: &mut Page) -> fmt::Result {
    writeln!(
        page,
        "<svg xmlns=\"http://www.w3.org/2000/svg\" width=\"520\" height=\"120\" viewBox=\"0 0 520 120\" font-family=\"Helvetica, Arial, sans-serif\">"
    )?;
    writeln!(
        page,
        "<rect x=\"1\" y=\"1\" width=\"518\" height=\"118\" rx=\"8\" fill=\"#fff5f5\" stroke=\"#c92a2a\" stroke-width=\"2\"/>"
    )
}

pub fn draw_refusal(page: &mut Page, why: Refusal) -> fmt::Result {
    draw_card(page)?;
    writeln!(
        page,
        "<text x=\"28\" y=\"54\" font-size=\"24\" font-weight=\"bold\" fill=\"#c92a2a\">refused {} at byte {}</text>",
        why.number, why.place
    )?;
    let reason = reason(why.number);
    writeln!(
        page,
        "<text x=\"28\" y=\"86\" font-size=\"15\" fill=\"#555\">{reason}</text>"
    )?;
    writeln!(page, "</svg>")
}
