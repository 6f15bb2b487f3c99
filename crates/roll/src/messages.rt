// The messages of a play, taken apart from their words, and what there is to be shown of them.
use model::Pitch;

#[derive(Clone, Copy)]
pub enum Kind {
    Note,
    Wave,
    Shift,
    Exclusive,
    Other,
}

#[derive(Clone, Copy)]
pub struct Message {
    pub kind: Kind,
    pub channel: u8,
    pub value: u8,
    pub gate: u64,
}

impl Message {
    pub fn of(word: u32) -> Message {
        let kind = match word / 134217728 % 32 {
            1 => Kind::Note,
            2 => Kind::Wave,
            5 => Kind::Shift,
            14 => Kind::Exclusive,
            _ => Kind::Other,
        };
        Message {
            kind,
            channel: (word / 33554432 % 4) as u8,
            value: (word / 131072 % 256) as u8,
            gate: (word / 4 % 32768) as u64,
        }
    }
}

// The last octave shift of each channel.
#[derive(Clone, Copy)]
pub struct Shifts([u8; 4]);

impl Shifts {
    pub fn none() -> Shifts {
        Shifts([0; 4])
    }

    pub fn after(self, message: Message) -> Shifts {
        let mut shifts = self.0;
        if let Kind::Shift = message.kind {
            if let Some(shift) = shifts.get_mut(message.channel as usize) {
                *shift = message.value;
            }
        }
        Shifts(shifts)
    }

    // The row of a note, from 0 for the lowest pitch that there is to 143 for the highest; 144 where it is none.
    pub fn row_of(self, message: Message) -> u64 {
        let Some(shift) = self.0.get(message.channel as usize) else {
            return 144;
        };
        match pitch::pitch_of(message.value, *shift) {
            Ok(Pitch { above }) => row_above(above),
            Err(_) => 144,
        }
    }
}

fn row_above(above: i32) -> u64 {
    match u64::try_from(above.saturating_add(80)) {
        Ok(row) => row.min(144),
        Err(_) => 144,
    }
}

// The lowest and the highest row of notes, how many notes, waves and other messages there are, and which channels they are of.
#[derive(Clone, Copy)]
pub struct Survey {
    pub lowest: u64,
    pub highest: u64,
    pub notes: u64,
    pub waves: u64,
    pub others: u64,
    pub channels: [bool; 4],
}

impl Survey {
    fn add(&mut self, shifts: Shifts, message: Message) {
        match message.kind {
            Kind::Note => {
                let row = shifts.row_of(message);
                self.lowest = row.min(self.lowest);
                self.highest = row.max(self.highest);
                self.notes = self.notes.saturating_add(1);
                self.add_channel(message.channel);
            }
            Kind::Wave => {
                self.waves = self.waves.saturating_add(1);
                self.add_channel(message.channel);
            }
            _ => self.others = self.others.saturating_add(1),
        }
    }

    fn add_channel(&mut self, channel: u8) {
        if let Some(heard) = self.channels.get_mut(channel as usize) {
            *heard = true;
        }
    }
}

pub fn look_over(words: &[u32], count: usize) -> Survey {
    let mut found = Survey {
        lowest: 144,
        highest: 0,
        notes: 0,
        waves: 0,
        others: 0,
        channels: [false; 4],
    };
    let mut shifts = Shifts::none();
    for word in words.iter().take(count) {
        let message = Message::of(*word);
        found.add(shifts, message);
        shifts = shifts.after(message);
    }
    found
}
