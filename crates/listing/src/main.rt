// The listing program: a file from standard input, its listing on standard output. What it prints is the text of `lines::list`, whose room
// is large enough for any.
#![tactic(auto)]

// One byte more than a file may have shows one that is too long.
fn main() {
    let mut input = [0u8; 65537];
    let mut room = [0u8; 500000];
    let size = io::read_full(0, &mut input);
    let Some(length) = lines::list(&input[..size], &mut room) else {
        return;
    };
    if let Some(listing) = room.get(..length) {
        io::write_all(1, listing);
    }
}
