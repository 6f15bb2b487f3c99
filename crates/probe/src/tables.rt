// A lent table that the writer takes, of numbers or of bytes, as it is filled. A full table takes no more.
ghost use Rattle.std.specs.Prelude.{◌≤◌, length};

#[derive(Drop)]
pub struct Table<'a, T> {
    places: &'a mut [T],
    filled: usize,
    ghost within: { filled ≤ length places.now },
}

impl<'a, T: Copy> Table<'a, T> {
    pub fn new(places: &'a mut [T]) -> Table<'a, T> {
        Table { places, filled: 0 }
    }

    pub fn push(&mut self, one: T) {
        if self.places.len() <= self.filled {
            return;
        }
        self.places[self.filled] = one;
        self.filled += 1;
    }

    pub fn extend(&mut self, more: &[T]) {
        for one in more {
            self.push(*one);
        }
    }

    pub fn filled(&self) -> &[T] {
        &self.places[..self.filled]
    }
}
