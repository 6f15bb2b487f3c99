// The bodies of the track that a row of an accepted file names: its sequence body, and its seek body where it has one.
ghost use Rattle.std.specs.Prelude.{◌≡◌, true, ◌+◌, ◌≤◌, length};
ghost use Rattle.model.specs.Item.{is_fine};
ghost use Rattle.model.specs.Track.{track_of};
ghost use Rattle.model.specs.File.{contents_of};
ghost use Rattle.reading.specs.Stages.{placed};
ghost use Rattle.playing.specs.Performing.{bytes_in, Opens, track_in, track_named};

use model::{Bodies, Extent, Part, Voice};

// The bytes of an extent, and no more.
pub fn bytes_in<'a>(s: &'a [u8], extent: Extent) -> &'a [u8]
    requires { (extent.place + extent.size ≤ length s.now) × (length s.now ≤ 65536) }
    ensures { result.now ≡ bytes_in s.now extent }
{
    let start = extent.place;
    let end = start + extent.size;
    &s[start..end]
}

// The track whose header is at a place and whose body has a size.
fn open_at(voice: Voice, s: &[u8], place: usize, size: usize) -> Option<Bodies>
    requires size_in_bounds { (place + 8 + size ≤ length s.now) × (length s.now ≤ 65536) }
    requires size_value { is_fine (track_of s.now voice (placed s.now place size)) ≡ true }
    ensures { Opens s.now (track_in (track_of s.now voice (placed s.now place size))) result }
{
    let start = place + 8 + 6;
    let end = place + 8 + size;
    let sequence = tracks::find_part(Part::Sequence, voice, s, start, end)?;
    let seek = match tracks::find_part(Part::Seek, voice, s, start, end) {
        Some(chunk) => Extent {
            place: chunk.place + 8,
            size: chunk.size,
        },
        None => Extent { place: 0, size: 0 },
    };
    Some(Bodies {
        header: place,
        voice,
        phrases: s[place + 8 + 1] == 1,
        sequence: Extent {
            place: sequence.place + 8,
            size: sequence.size,
        },
        seek,
    })
}

pub fn open_track(s: &[u8], row: usize) -> Option<Bodies>
    requires s_len_bound { length s.now ≤ 65536 }
    requires s_value { is_fine (contents_of s.now) ≡ true }
    ensures { Opens s.now (track_named (contents_of s.now) row) result }
{
    let track = reading::find_track(s, row)?;
    open_at(track.voice, s, track.place, track.size)
}
