// The six fixed bytes of a readable track.
ghost use Rattle.std.specs.Prelude.{◌≡◌, ◌+◌, ◌<◌, ◌≤◌, length};
ghost use Rattle.model.specs.Item.{check_answer};
ghost use Rattle.model.specs.TimeBase.{is_time_base};
ghost use Rattle.model.specs.Track.{place_of_d, place_of_g, fixed_fits, fixed_holds};
ghost use Rattle.tracks.specs.Stages.{bare};

use model::{Refusal, TimeBase, Voice, refused};

#[tactic(auto, using(crate::proofs::Parts::base_known))]
fn is_time_base(code: u8) -> bool
    ensures { result ≡ is_time_base code }
{
    TimeBase::of(code).is_some()
}

// Where in a track's body the codes of its time bases D and G stand.
fn places_of_bases(voice: Voice) -> (usize, usize)
    ensures { (result.0 ≡ place_of_d voice) × (result.1 ≡ place_of_g voice) × (result.0 < 6) × (result.1 < 6) }
{
    match voice {
        Voice::Score => (2, 3),
        Voice::Pcm => (4, 5),
    }
}

// Whether the six bytes from a place on hold, but for the first, the format.
#[tactic(auto, using(model::proofs::Tests::tests, model::proofs::Tests::junctions, crate::proofs::Parts::base_at), unfolding(model::specs::Track::fixed_fits))]
pub fn fixed_fits(voice: Voice, s: &[u8], body: usize) -> bool
    requires { body + 6 ≤ length s.now }
    ensures { result ≡ fixed_fits voice s.now body }
{
    let (d, g) = places_of_bases(voice);
    s[body + 1] <= 1 && is_time_base(s[body + d]) && is_time_base(s[body + g])
}

// The body of the track whose header is at a place is there.
#[tactic(auto, using(model::proofs::Tests::tests, model::proofs::Answers::answers), unfolding(model::specs::Track::fixed_holds))]
pub fn check_fixed(voice: Voice, s: &[u8], place: usize, size: usize) -> Result<(), Refusal>
    requires { place + 8 + size ≤ length s.now }
    ensures { result ≡ check_answer (fixed_holds voice s.now (bare place size)) }
{
    let body = place + 8;
    if size < 6 || !fixed_fits(voice, s, body) {
        return refused(8, body);
    }
    Ok(())
}
