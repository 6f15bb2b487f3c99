// What stands at a place of a file's list of chunks: the step that the reading head takes.
ghost use Rattle.std.specs.Prelude.{◌≡◌, ◌+◌, ◌≤◌, length};
ghost use Rattle.model.specs.Bytes.{◌!◌};
ghost use Rattle.model.specs.TimeBase.{milliseconds};
ghost use Rattle.model.specs.Track.{place_of_d, voice_of};
ghost use Rattle.reading.specs.Stages.{placed};
ghost use Rattle.lines.specs.Tops.{voiced_top, top_met};

use model::{ReadChunk, TimeBase, TopChunk, Voice};

fn milliseconds_of(code: u8) -> u32
    ensures { result ≡ milliseconds code }
{
    TimeBase { code }.milliseconds()
}

// The milliseconds of a track's time base D.
fn base_of(voice: Voice, s: &[u8], body: usize) -> u32
    requires { body + 6 ≤ length s.now }
    ensures { result ≡ milliseconds (s.now ! (body + place_of_d voice)) }
{
    match voice {
        Voice::Score => milliseconds_of(s[body + 2]),
        Voice::Pcm => milliseconds_of(s[body + 4]),
    }
}

// The chunk of a size whose header is at a place.
#[tactic(auto, using(model::proofs::Tests::tests), unfolding(crate::specs::Tops::voiced_top))]
fn open_top(s: &[u8], at: usize, size: usize, next: usize) -> Option<TopChunk>
    requires { at + 8 + size ≤ length s.now }
    ensures { result ≡ voiced_top s.now at size next (voice_of s.now (placed s.now at size)) }
{
    match reading::voice_of(s, at, size) {
        Err(_) => None,
        Ok(None) => Some(TopChunk::Leaf { next }),
        Ok(Some(voice)) => {
            if size < 6 {
                return None;
            }
            Some(TopChunk::Track {
                milliseconds: base_of(voice, s, at + 8),
            })
        }
    }
}

#[tactic(auto, using(model::proofs::Tests::tests, crate::proofs::Tops::chunk_there), unfolding(crate::specs::Tops::top_met, crate::specs::Tops::chunk_top))]
pub fn top_at(s: &[u8], at: usize) -> Option<TopChunk>
    ensures { result ≡ top_met s.now at }
{
    if 65536 < s.len() {
        return None;
    }
    if s.len() < 10 {
        return None;
    }
    let end = s.len() - 2;
    if end <= at {
        return None;
    }
    let ReadChunk { size, next, .. } = chunks::read_chunk(s, end, at)?;
    open_top(s, at, size, next)
}
