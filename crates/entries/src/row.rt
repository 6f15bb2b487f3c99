// A seek entry as it is given: a row of four numbers in a lent table.
ghost use Rattle.std.specs.Prelude.{◌≡◌, ◌/◌, ◌<◌, length};
ghost use Rattle.entries.specs.Rows.{row_at};

// The kind is 0 for a start point, 1 for a stop point, 2 for a phrase, 3 for an order list. Numbers that a kind does not use are not looked at.
#[derive(Clone, Copy)]
pub struct Row {
    pub kind: u32,
    pub letter: u32,
    pub from: u32,
    pub to: u32,
}

#[tactic(auto, unfolding(crate::specs::Rows::row_at))]
pub fn row_at(entries: &[u32], i: usize) -> Row
    requires { i < length entries.now / 4 }
    ensures { result ≡ row_at entries.now i }
{
    let kind = entries[4 * i];
    let letter = entries[4 * i + 1];
    let from = entries[4 * i + 2];
    let to = entries[4 * i + 3];
    Row {
        kind,
        letter,
        from,
        to,
    }
}
