// The sub-chunks of a track whose list passed its check, and their bodies.
ghost use Rattle.std.specs.Prelude.{◌≡◌, true, ◌+◌, ◌≤◌, length};
ghost use Rattle.model.specs.Bytes.{number, part};
ghost use Rattle.model.specs.Item.{is_fine, found};
ghost use Rattle.model.specs.Chunk.{found_chunk};
ghost use Rattle.model.specs.Track.{part_id, part_named, has_waves};
ghost use Rattle.chunks.specs.Kept.{chunks_in};

use model::{FoundChunk, Part, Voice, Wanted};

// The body of a chunk whose header is at a place: that stretch of the file and no more.
pub fn body_of<'a>(s: &'a [u8], place: usize, size: usize) -> &'a [u8]
    requires { place + 8 + size ≤ length s.now }
    ensures { result.now ≡ part s.now (place + 8) size }
{
    let start = place + 8;
    let end = start + size;
    &s[start..end]
}

fn id_of(part: Part, voice: Voice) -> &'static [u8; 4]
    ensures { number 4 result.now 0 ≡ part_id part voice }
{
    match (part, voice) {
        (Part::Seek, Voice::Score) => b"MspI",
        (Part::Seek, Voice::Pcm) => b"AspI",
        (Part::Setup, Voice::Score) => b"Mtsu",
        (Part::Setup, Voice::Pcm) => b"Atsu",
        (Part::Sequence, Voice::Score) => b"Mtsq",
        (Part::Sequence, Voice::Pcm) => b"Atsq",
    }
}

// The sub-chunk of a kind.
pub fn find_part(part: Part, voice: Voice, s: &[u8], start: usize, end: usize) -> Option<FoundChunk>
    requires start_le_end { (start ≤ end) × (end ≤ length s.now) × (end ≤ 65536) }
    requires end_value { is_fine (chunks_in s.now start end) ≡ true }
    ensures { result ≡ found_chunk (part_named (part_id part voice) (found (chunks_in s.now start end))) }
{
    chunks::find_chunk(s, start, end, id_of(part, voice))
}

#[tactic(auto, using(crate::proofs::Parts::voices))]
pub fn has_waves(voice: Voice, s: &[u8], start: usize, end: usize) -> bool
    requires start_le_end { (start ≤ end) × (end ≤ length s.now) × (end ≤ 65536) }
    requires end_value { is_fine (chunks_in s.now start end) ≡ true }
    ensures { result ≡ has_waves voice (found (chunks_in s.now start end)) }
{
    match voice {
        Voice::Score => true,
        Voice::Pcm => chunks::has_chunk(s, start, end, Wanted::Wave),
    }
}
