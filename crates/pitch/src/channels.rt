// What the four channels have, as an array by value, stepped with each message that is played (model/specs/Channels).
ghost use Rattle.std.specs.Prelude.{◌≡◌, set};
ghost use Rattle.model.specs.Channels.{at_first, channels_at_first, channel_at, channel_after, channels_after};

use model::{Channel, Event};

fn at_first() -> Channel
    ensures { result ≡ at_first }
{
    Channel {
        bank: 0,
        shift: 0,
        bank_in_force: 0,
    }
}

pub fn channels_at_first() -> [Channel; 4]
    ensures { result ≡ channels_at_first }
{
    [at_first(); 4]
}

pub fn channel_at(channels: [Channel; 4], number: u8) -> Channel
    ensures { result ≡ channel_at channels number }
{
    match channels.get(number as usize) {
        Some(channel) => *channel,
        None => at_first(),
    }
}

// A channel after a control of its own.
fn channel_after(channel: Channel, kind: u8, value: u8) -> Channel
    ensures { result ≡ channel_after channel kind value }
{
    match kind {
        3 => Channel {
            bank_in_force: channel.bank,
            ..channel
        },
        4 => Channel {
            bank: value,
            ..channel
        },
        5 => Channel {
            shift: value,
            ..channel
        },
        _ => channel,
    }
}

fn with_channel(channels: [Channel; 4], number: u8, channel: Channel) -> [Channel; 4]
    ensures { result ≡ set channels number channel }
{
    let mut next = channels;
    let at = number as usize;
    if 4 <= at {
        return next;
    }
    next[at] = channel;
    next
}

// The channels after a message.
pub fn channels_after(channels: [Channel; 4], event: Event) -> [Channel; 4]
    ensures { result ≡ channels_after channels event }
{
    match event {
        Event::Control {
            kind,
            channel,
            value,
        } => {
            let stepped = channel_after(channel_at(channels, channel), kind, value);
            with_channel(channels, channel, stepped)
        }
        Event::Nop | Event::Note { .. } | Event::Wave { .. } | Event::Exclusive { .. } => channels,
    }
}
