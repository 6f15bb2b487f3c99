// Sections as stretches of a body: between two addresses, and from an address on; each up to the end mark that it reaches.
ghost use Rattle.std.specs.Prelude.{◌≡◌, true, ◌≤◌, length};
ghost use Rattle.model.specs.Item.{body_of, is_fine, items_of};
ghost use Rattle.model.specs.Points.{is_address};
ghost use Rattle.sections.specs.Spans.{passage_between, span_from, Small};
ghost use Rattle.sections.specs.Reaching.{at_head, span_on, span_to, passage_to, Arrived};

use super::walk::walk_to;
use model::{Passage, Reached, Span, Voice};

// Where a walk begins.
pub fn at_head() -> Reached
    ensures { result ≡ at_head }
{
    Reached {
        at: 0,
        time: 0,
        messages: 0,
        first: 0,
        past: 0,
        passed: 0,
    }
}

// From what is reached on, with so many messages, and so long.
pub fn span_on(reached: Reached, messages: usize, lasts: u64) -> Span
    ensures { result ≡ span_on reached messages lasts }
{
    Span {
        first: reached.first,
        past: reached.past,
        start: reached.time,
        messages,
        lasts,
    }
}

// From what is reached on, up to so many messages and a time.
#[tactic(auto, unfolding(crate::specs::Reaching::span_to))]
fn span_to(reached: Reached, messages: usize, time: u64) -> Span
    requires passed_le_messages { reached.passed ≤ messages }
    requires time_le_time { reached.time ≤ time }
    ensures { result ≡ span_to reached messages time }
{
    span_on(reached, messages - reached.passed, time - reached.time)
}

// From what is reached on: up to where a walk went, if that is before the time of the stop, and else up to the stop.
#[tactic(auto, using(crate::proofs::Spanning::passages))]
fn passage_to(from: Reached, went: Reached, to: Reached) -> Passage
    requires passed_le_messages { from.passed ≤ went.messages }
    requires time_le_time { from.time ≤ went.time }
    requires passed_le_passed { from.passed ≤ to.passed }
    requires time_le_time_2 { from.time ≤ to.time }
    ensures { result ≡ passage_to from went to }
{
    if went.time < to.time {
        return Passage {
            span: span_to(from, went.messages, went.time),
            stops: true,
        };
    }
    Passage {
        span: span_to(from, to.passed, to.time),
        stops: false,
    }
}

// From an address that is reached to another.
fn passage_on(voice: Voice, body: &[u8], from: Reached, stop: usize) -> Passage
    requires body_len_bound { length body.now ≤ 65536 }
    requires body_value { is_fine (body_of voice body.now) ≡ true }
    requires arrived { Arrived (items_of voice body.now) (length body.now) from.at from.at from }
    requires stop_value { is_address (items_of voice body.now) (length body.now) stop ≡ true }
    requires at_le_stop { from.at ≤ stop }
    ensures { result ≡ passage_between (items_of voice body.now) (length body.now) from.at stop }
{
    let went = walk_to(voice, body, from, from.at, stop);
    let to = walk_to(voice, body, went, stop, stop);
    passage_to(from, went, to)
}

// Between two addresses: up to the second, or up to the first end mark from the first on, where that is before the second's time. The body is
// walked once.
pub fn span_between(voice: Voice, body: &[u8], start: usize, stop: usize) -> Passage
    requires body_len_bound { length body.now ≤ 65536 }
    requires body_value { is_fine (body_of voice body.now) ≡ true }
    requires start_value { is_address (items_of voice body.now) (length body.now) start ≡ true }
    requires stop_value { is_address (items_of voice body.now) (length body.now) stop ≡ true }
    requires start_le_stop { start ≤ stop }
    ensures value { result ≡ passage_between (items_of voice body.now) (length body.now) start stop }
    ensures small { Small (length body.now) result.span }
{
    let from = walk_to(voice, body, at_head(), start, start);
    passage_on(voice, body, from, stop)
}

// From an address that is reached on.
fn span_rest(voice: Voice, body: &[u8], from: Reached) -> Span
    requires body_len_bound { length body.now ≤ 65536 }
    requires body_value { is_fine (body_of voice body.now) ≡ true }
    requires arrived { Arrived (items_of voice body.now) (length body.now) from.at from.at from }
    ensures { result ≡ span_from (items_of voice body.now) (length body.now) from.at }
{
    let to = walk_to(voice, body, from, from.at, body.len());
    span_to(from, to.messages, to.time)
}

// From an address on, with no bound on onsets: to the body's end, or up to the first end mark from there on.
pub fn span_from(voice: Voice, body: &[u8], start: usize) -> Span
    requires body_len_bound { length body.now ≤ 65536 }
    requires body_value { is_fine (body_of voice body.now) ≡ true }
    requires start_value { is_address (items_of voice body.now) (length body.now) start ≡ true }
    ensures value { result ≡ span_from (items_of voice body.now) (length body.now) start }
    ensures small { Small (length body.now) result }
{
    let from = walk_to(voice, body, at_head(), start, start);
    span_rest(voice, body, from)
}
