// A reading head, which remembers a body and its place. It walks the chunks of a file: what stands at its place is `top_at`'s to say, and
// `read_top` serves the loop, with plain parameters.
ghost use Rattle.std.specs.Prelude.{◌≡◌};
ghost use Rattle.lines.specs.Tops.{top_met};

use super::top::top_at;
use model::TopChunk;

#[derive(Clone, Copy)]
pub struct Head<'a> {
    pub body: &'a [u8],
    pub at: usize,
}

fn open<'a>(body: &'a [u8], at: usize) -> Head<'a>
    ensures { (result.body ≡ body.entry) × (result.at ≡ at) }
{
    Head { body, at }
}

fn next<'a>(head: Head<'a>) -> Option<TopChunk>
    ensures { result ≡ top_met head.entry.body.now head.entry.at }
{
    top_at(head.body, head.at)
}

pub fn read_top(body: &[u8], at: usize) -> Option<TopChunk>
    ensures { result ≡ top_met body.now at }
{
    next(open(body, at))
}
