// The size of the plain form of an order, before a byte of it is written: the shape of each span that the order names is found once, where
// its letter comes first, and the shapes are added letter by letter.
ghost use Rattle.std.specs.Prelude.{◌≡◌, true, ◌≤◌, length};
ghost use Rattle.model.specs.Item.{body_of, is_fine, items_of};
ghost use Rattle.playing.specs.Performing.{AllPlayable, AllRise, AllShort};
ghost use Rattle.flattening.specs.Orders.{no_shape, Slight, add_shape, whole_size, Measured};

use super::gaps::{gap_size, rest_size};
use super::section::shape_of;
use super::{Measure, Size};
use model::{Shape, Span, Voice};

fn no_shape() -> Shape
    ensures { result ≡ no_shape }
{
    Shape {
        heard: false,
        lead: 0,
        bytes: 0,
        tail: 0,
    }
}

fn add_shape(size: Size, shape: Shape) -> Size
    requires bytes_bound { size.bytes ≤ 65536 }
    requires gap_bound { size.gap ≤ 70914205024256 }
    requires slight { Slight shape }
    ensures value { result ≡ add_shape size shape }
    ensures bytes_bound_2 { result.bytes ≤ 300000000000000 }
{
    if shape.heard {
        return Size {
            bytes: size.bytes + (gap_size(size.gap + shape.lead) + shape.bytes),
            gap: shape.tail,
        };
    }
    Size {
        bytes: size.bytes,
        gap: size.gap + shape.tail,
    }
}

// With the rest before the end and the end mark.
fn whole_size(size: Size) -> usize
    requires bytes_bound { size.bytes ≤ 300000000000000 }
    requires gap_bound { size.gap ≤ 70914205024256 }
    ensures { result ≡ whole_size size }
{
    size.bytes + rest_size(size.gap) + 4
}

// No more is counted once the bytes are too many.
pub fn measure_order(voice: Voice, body: &[u8], spans: [Span; 256], letters: &[u8]) -> Measure
    requires body_len_bound { length body.now ≤ 65536 }
    requires body_value { is_fine (body_of voice body.now) ≡ true }
    requires letters_len_bound { length letters.now ≤ 65536 }
    requires all_playable { AllPlayable (items_of voice body.now) (length body.now) spans letters.now }
    requires all_rise { AllRise (items_of voice body.now) spans letters.now }
    requires all_short { AllShort spans letters.now }
    ensures { Measured body.now (items_of voice body.now) spans letters.now result }
{
    let mut shapes = [no_shape(); 256];
    let mut known = [false; 256];
    let mut size = Size { bytes: 0, gap: 0 };
    for letter in letters {
        if 65536 < size.bytes {
            return Measure {
                shapes,
                bytes: size.bytes,
            };
        }
        let slot = *letter as usize;
        if !known[slot] {
            shapes[slot] = shape_of(voice, body, spans[slot]);
            known[slot] = true;
        }
        let shape = shapes[slot];
        size = add_shape(size, shape);
    }
    Measure {
        shapes,
        bytes: whole_size(size),
    }
}
