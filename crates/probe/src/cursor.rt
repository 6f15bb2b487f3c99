// A buffer as it is read from its front, which may be cut: there is nothing past its end.
ghost use Rattle.std.specs.Prelude.{◌≡◌, ◌≤◌, IfSome, length};

#[derive(Clone, Copy)]
pub struct Cursor<'a> {
    rest: &'a [u8],
}

impl<'a> Cursor<'a> {
    pub fn new(rest: &'a [u8]) -> Cursor<'a> {
        Cursor { rest }
    }

    pub fn bytes(&mut self, count: usize) -> Option<&'a [u8]>
        ensures { IfSome result (λ front. length front.now ≡ count) }
    {
        if self.rest.len() < count {
            return None;
        }
        let (front, rest) = self.rest.split_at(count);
        self.rest = rest;
        Some(front)
    }

    pub fn byte(&mut self) -> Option<u8> {
        let (first, rest) = self.rest.split_first()?;
        self.rest = rest;
        Some(*first)
    }

    pub fn number<const WIDTH: usize>(&mut self) -> Option<u32>
        requires { WIDTH ≤ 4 }
    {
        let bytes = self.bytes(WIDTH)?;
        Some(numbers::number_at::<WIDTH>(bytes, 0))
    }
}
