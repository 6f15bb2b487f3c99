// Text on its way to standard output: it is gathered on a page, and the page is written out whenever it is full.
#![tactic(auto)]

ghost use Rattle.io.specs.Digits.{hex_digit_ascii};
ghost use Rattle.std.specs.Prelude.{◌≡◌, ◌+◌, ◌/◌, ◌%◌, ◌<◌, ◌≤◌, [], ◌∷◌, ◌++◌, length, max, min};

use std::fmt;

const LENGTH: usize = 65536;

// A page has no end of its own, so that no text is lost: `finish` ends it.
pub struct Page {
    bytes: [u8; LENGTH],
    used: usize,
    ghost within: { used ≤ length bytes },
}

impl Page {
    ghost use Rattle.text.specs.Paper.{on_page, Put, PutNumber};

    pub fn new() -> Page
        ensures { on_page result ≡ [] }
    {
        Page {
            bytes: [0; LENGTH],
            used: 0,
        }
    }

    // Writes out what is on the page.
    fn flush(&mut self)
        ensures { self.new.used ≡ 0 }
    {
        io::write_all(1, &self.bytes[..self.used]);
        self.used = 0;
    }

    // Writes out what is left.
    pub fn finish(self) {
        let Page { bytes, used } = self;
        io::write_all(1, &bytes[..used]);
    }

    pub fn put(&mut self, text: &[u8])
        ensures { length text.now ≤ 65536 → Put (on_page self.old) text.now (on_page self.new) }
    {
        if LENGTH - self.used < text.len() {
            self.flush();
        }
        self.put_next(text);
    }

    // Text that is longer than a page is written out at once.
    fn put_next(&mut self, text: &[u8])
        ensures { self.old.used + length text.now ≤ 65536 → on_page self.new ≡ on_page self.old ++ text.now }
    {
        let used = self.used;
        if LENGTH - used < text.len() {
            io::write_all(1, text);
            return;
        }
        let end = used + text.len();
        self.bytes[used..end].copy_from_slice(text);
        self.used = end;
    }

    pub fn put_byte(&mut self, byte: u8)
        ensures { Put (on_page self.old) (byte ∷ []) (on_page self.new) }
    {
        if self.used == LENGTH {
            self.flush();
        }
        let used = self.used;
        self.bytes[used] = byte;
        self.used = used + 1;
    }

    pub fn put_decimal(&mut self, number: u64)
        ensures { PutNumber 10 1 number (on_page self.old) (on_page self.new) }
    {
        let mut digits = [0; 20];
        let count = io::decimal(number, &mut digits);
        self.put(&digits[..count]);
    }

    // In lower case, with zeros in front up to a width.
    pub fn put_hex(&mut self, number: u64, width: usize)
        ensures { PutNumber 16 (min (max width 1) 16) number (on_page self.old) (on_page self.new) }
    {
        let mut digits = [0; 16];
        let count = io::hex(number, width, &mut digits);
        self.put(&digits[..count]);
    }

    // A byte as two hex digits.
    pub fn put_hex_byte(&mut self, byte: u8)
        ensures { Put (on_page self.old) (hex_digit_ascii (byte / 16) ∷ hex_digit_ascii (byte % 16) ∷ []) (on_page self.new) }
    {
        if LENGTH - self.used < 2 {
            self.flush();
        }
        let used = self.used;
        self.bytes[used] = hex_digit(byte / 16);
        self.bytes[used + 1] = hex_digit(byte % 16);
        self.used = used + 2;
    }
}

const DIGITS: [u8; 16] = *b"0123456789abcdef";

fn hex_digit(digit: u8) -> u8
    requires { digit < 16 }
    ensures { result ≡ hex_digit_ascii digit }
{
    DIGITS[digit as usize]
}

// A page takes any text, so no write to it fails.
impl fmt::Write for Page {
    fn write_str(&mut self, text: &str) -> fmt::Result {
        self.put(text.as_bytes());
        Ok(())
    }
}
