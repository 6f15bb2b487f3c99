// The head of a case, and its buffer.
ghost use Rattle.std.specs.Prelude.{◌≤◌};

use numbers::number_at;
use std::fmt;

// A case's room, its buffer, and the buffer of a case that describes a file or a body, are no larger.
pub const ROOM: usize = 70000;

const BUFFER: u32 = 70000;

pub const DESCRIPTION: usize = 300000;

// Why no case is answered any more.
#[derive(Drop)]
pub enum Stopped {
    BadCase,
    Unwritten,
}

impl From<fmt::Error> for Stopped {
    fn from(_: fmt::Error) -> Stopped {
        Stopped::Unwritten
    }
}

#[derive(Clone, Copy)]
pub enum Operation {
    Read,
    Play,
    Flatten,
    List,
    Pitch,
    WriteFile,
    WriteBody,
    Items,
    Entries,
}

impl Operation {
    fn of(letter: u8) -> Option<Operation> {
        match letter {
            b'r' => Some(Operation::Read),
            b'p' => Some(Operation::Play),
            b'f' => Some(Operation::Flatten),
            b'l' => Some(Operation::List),
            b't' => Some(Operation::Pitch),
            b'w' => Some(Operation::WriteFile),
            b'b' => Some(Operation::WriteBody),
            b'm' => Some(Operation::Items),
            b's' => Some(Operation::Entries),
            _ => None,
        }
    }

    // How many bytes its buffer may have.
    fn largest_buffer(self) -> u32
        ensures { result ≤ 300000 }
    {
        match self {
            Operation::WriteFile | Operation::WriteBody => DESCRIPTION as u32,
            _ => BUFFER,
        }
    }
}

// A case within bounds: so many bytes of the buffer are its own.
#[derive(Clone, Copy)]
pub struct Case {
    pub operation: Operation,
    pub stated: usize,
    pub row: usize,
    pub room: usize,
    pub size: usize,
    ghost room_within: { room ≤ 70000 },
    ghost size_within: { size ≤ 300000 },
}

fn case_of(head: &[u8; 17]) -> Option<Case> {
    let operation = Operation::of(head[0])?;
    let room = number_at::<4>(head, 9) as usize;
    let size = number_at::<4>(head, 13);
    if ROOM < room || operation.largest_buffer() < size {
        return None;
    }
    Some(Case {
        operation,
        stated: number_at::<4>(head, 1) as usize,
        row: number_at::<4>(head, 5) as usize,
        room,
        size: size as usize,
    })
}

// The next case, whose buffer is read; none after the last.
pub fn next_case(buffer: &mut [u8; DESCRIPTION]) -> Result<Option<Case>, Stopped> {
    let mut head = [0u8; 17];
    let bytes = io::read_full(0, &mut head);
    if bytes == 0 {
        return Ok(None);
    }
    if bytes < 17 {
        return Err(Stopped::BadCase);
    }
    let case = case_of(&head).ok_or(Stopped::BadCase)?;
    if io::read_full(0, &mut buffer[..case.size]) < case.size {
        return Err(Stopped::BadCase);
    }
    Ok(Some(case))
}
