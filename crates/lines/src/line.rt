// One line: what a message prints, under the shifts that are in force, and its text.
ghost use Rattle.std.specs.Prelude.{◌≡◌, ◌+◌, ◌≤◌, length, get_or, set};
ghost use Rattle.std.proofs.lemmas.List.Edits.{sets};
ghost use Rattle.model.specs.Listing.{shifts_after, long_kind_of, long_value_of, line_of};
ghost use Rattle.model.specs.ListingText.{channel_name, space, line_text};
ghost use Rattle.lines.specs.Fields.{closed, said, octaves_up, semitones_up, semitones_down, note_line, voiced_line, unvoiced_line, times_text, source_text, value_text};

use super::name::write_kind;
use super::number::{write_difference, write_number, write_text};
use model::Event;

// The numbers of a line. Its value is a difference.
#[derive(Clone, Copy)]
pub struct Printed {
    pub step: u64,
    pub ms: u64,
    pub channel: Option<u8>,
    pub kind: u8,
    pub up: u64,
    pub down: u64,
    pub gate: u32,
}

#[tactic(auto, using(crate::proofs::Pitches::no_shift))]
fn shift_of(shifts: [u8; 4], channel: u8) -> u8
    ensures { result ≡ get_or shifts channel 0 }
{
    match shifts.get(usize::from(channel)) {
        Some(shift) => *shift,
        None => 0,
    }
}

#[tactic(auto, using(crate::proofs::Pitches::none_shifted))]
fn shifted(shifts: [u8; 4], channel: u8, value: u8) -> [u8; 4]
    ensures { result ≡ set shifts channel value }
{
    let mut next = shifts;
    let at = usize::from(channel);
    if 4 <= at {
        return next;
    }
    next[at] = value;
    next
}

// The shifts in force after a message.
#[tactic(auto, using(model::proofs::Tests::tests), unfolding(model::specs::Listing::shifts_after))]
pub fn shifts_after(shifts: [u8; 4], event: Event) -> [u8; 4]
    ensures { result ≡ shifts_after shifts event }
{
    match event {
        Event::Control {
            kind,
            channel,
            value,
        } => {
            if kind == 5 {
                return shifted(shifts, channel, value);
            }
            shifts
        }
        Event::Nop | Event::Note { .. } | Event::Wave { .. } | Event::Exclusive { .. } => shifts,
    }
}

#[tactic(auto, using(model::proofs::Tests::tests), unfolding(model::specs::Listing::long_kind_of))]
fn long_kind(kind: u8) -> u8
    ensures { result ≡ long_kind_of kind }
{
    match kind {
        11 => 6,
        12 => 7,
        13 => 10,
        _ => kind,
    }
}

#[tactic(auto, using(model::proofs::Tests::tests), unfolding(model::specs::Listing::long_value_of))]
fn long_value(kind: u8, value: u8) -> u8
    ensures { result ≡ long_value_of kind value }
{
    if kind < 11 {
        return value;
    }
    items::standard_value(kind, value)
}

// How many octaves up a shift is.
#[tactic(auto, using(model::proofs::Tests::tests), unfolding(crate::specs::Fields::octaves_up))]
fn octaves_up(shift: u8) -> u64
    ensures { (result ≡ octaves_up shift) × (result ≤ 4) }
{
    if shift <= 0x04 {
        return u64::from(shift);
    }
    0
}

// A pitch is semitones up less semitones down.
#[tactic(auto, unfolding(crate::specs::Fields::semitones_up))]
fn semitones_up(key: u8, shift: u8) -> u64
    ensures { result ≡ semitones_up key shift }
{
    12 * u64::from(key / 16) + u64::from(key % 16) + 12 * octaves_up(shift)
}

#[tactic(auto, unfolding(crate::specs::Fields::semitones_down))]
fn semitones_down(shift: u8) -> u64
    ensures { result ≡ semitones_down shift }
{
    33 + 12 * u64::from(shift.saturating_sub(0x80))
}

#[tactic(auto, using(crate::proofs::Pitches::note_said))]
fn print_note(shift: u8, step: u64, ms: u64, channel: u8, key: u8, gate: u32) -> Printed
    ensures { said result ≡ note_line shift step ms channel key gate }
{
    Printed {
        step,
        ms,
        channel: Some(channel),
        kind: 1,
        up: semitones_up(key, shift),
        down: semitones_down(shift),
        gate,
    }
}

// What has a channel and is no note.
#[tactic(auto, using(crate::proofs::Pitches::voiced_said))]
fn print_voiced(step: u64, ms: u64, channel: u8, kind: u8, value: u8, gate: u32) -> Printed
    ensures { said result ≡ voiced_line step ms channel kind value gate }
{
    Printed {
        step,
        ms,
        channel: Some(channel),
        kind,
        up: u64::from(value),
        down: 0,
        gate,
    }
}

#[tactic(auto, using(crate::proofs::Pitches::unvoiced_said))]
fn print_unvoiced(step: u64, ms: u64, kind: u8, value: u8) -> Printed
    ensures { said result ≡ unvoiced_line step ms kind value }
{
    Printed {
        step,
        ms,
        channel: None,
        kind,
        up: u64::from(value),
        down: 0,
        gate: 0,
    }
}

#[tactic(auto, using(crate::proofs::Lines::printed))]
pub fn print_event(shifts: [u8; 4], step: u64, ms: u64, event: Event) -> Printed
    ensures { said result ≡ line_of shifts step ms event }
{
    match event {
        Event::Note { channel, key, gate } => {
            let shift = shift_of(shifts, channel);
            print_note(shift, step, ms, channel, key, gate)
        }
        Event::Wave {
            channel,
            number,
            gate,
        } => print_voiced(step, ms, channel, 2, number, gate),
        Event::Control {
            kind,
            channel,
            value,
        } => print_voiced(
            step,
            ms,
            channel,
            long_kind(kind),
            long_value(kind, value),
            0,
        ),
        Event::Exclusive { size, .. } => print_unvoiced(step, ms, 14, size),
        Event::Nop => print_unvoiced(step, ms, 0, 0),
    }
}

// A line's step and milliseconds.
#[tactic(auto, using(crate::proofs::Numbers::joins), unfolding(crate::specs::Fields::times_text))]
fn write_times(out: &mut [u8], at: usize, step: u64, ms: u64) -> usize
    requires { at + 42 ≤ length out.old }
    ensures value { result ≡ at + length (times_text step ms) }
    ensures within { result ≤ at + 42 }
    ensures out_after { out.new ≡ sets out.old at (times_text step ms) }
{
    let middle = write_number(out, at, step, b' ');
    write_number(out, middle, ms, b' ')
}

#[tactic(auto, using(crate::proofs::Names::channels))]
fn write_channel(out: &mut [u8], at: usize, channel: Option<u8>) -> usize
    requires { at + 21 ≤ length out.old }
    ensures value { result ≡ at + length (closed (channel_name channel) space) }
    ensures within { result ≤ at + 21 }
    ensures out_after { out.new ≡ sets out.old at (closed (channel_name channel) space) }
{
    match channel {
        Some(number) => write_number(out, at, number as u64, b' '),
        None => write_text(out, at, b"- "),
    }
}

// A line's channel and kind.
#[tactic(auto, using(crate::proofs::Numbers::joins), unfolding(crate::specs::Fields::source_text))]
fn write_source(out: &mut [u8], at: usize, line: Printed) -> usize
    requires { at + 33 ≤ length out.old }
    ensures value { result ≡ at + length (source_text line) }
    ensures within { result ≤ at + 33 }
    ensures out_after { out.new ≡ sets out.old at (source_text line) }
{
    let kind = write_channel(out, at, line.channel);
    write_kind(out, kind, line.kind)
}

// A line's value and gate.
#[tactic(auto, using(crate::proofs::Numbers::joins), unfolding(crate::specs::Fields::value_text))]
fn write_value(out: &mut [u8], at: usize, line: Printed) -> usize
    requires { at + 43 ≤ length out.old }
    ensures value { result ≡ at + length (value_text line) }
    ensures within { result ≤ at + 43 }
    ensures out_after { out.new ≡ sets out.old at (value_text line) }
{
    let gate = write_difference(out, at, line.up, line.down, b' ');
    write_number(out, gate, u64::from(line.gate), b'\n')
}

#[tactic(auto, using(crate::proofs::Lines::line_joins))]
pub fn write_line(out: &mut [u8], at: usize, line: Printed) -> usize
    requires { at + 118 ≤ length out.old }
    ensures value { result ≡ at + length (line_text (said line)) }
    ensures within { result ≤ at + 118 }
    ensures out_after { out.new ≡ sets out.old at (line_text (said line)) }
{
    let source = write_times(out, at, line.step, line.ms);
    let value = write_source(out, source, line);
    write_value(out, value, line)
}
