// Short to standard values.
ghost use Rattle.std.specs.Prelude.{◌≡◌};
ghost use Rattle.model.specs.Event.{standard_value};

const MODULATION: [u8; 15] = [
    0, 0x00, 0x08, 0x10, 0x18, 0x20, 0x28, 0x30, 0x38, 0x40, 0x48, 0x50, 0x60, 0x70, 0x7F,
];

const PITCH_BEND: [u8; 15] = [
    0, 0x08, 0x10, 0x18, 0x20, 0x28, 0x30, 0x38, 0x40, 0x48, 0x50, 0x58, 0x60, 0x68, 0x70,
];

const EXPRESSION: [u8; 15] = [
    0, 0x00, 0x1F, 0x27, 0x2F, 0x37, 0x3F, 0x47, 0x4F, 0x57, 0x5F, 0x67, 0x6F, 0x77, 0x7F,
];

// The standard value of a short form's 4 bits, by its kind; 0 past the 14 that there are.
#[tactic(auto, using(model::proofs::Tests::tests, crate::proofs::Matches::standard_past), unfolding(model::specs::Event::standard_value))]
pub fn standard_value(kind: u8, short: u8) -> u8
    ensures { result ≡ standard_value kind short }
{
    if 15 <= short {
        return 0;
    }
    let at = short as usize;
    if kind == 11 {
        return MODULATION[at];
    }
    if kind == 12 {
        return PITCH_BEND[at];
    }
    EXPRESSION[at]
}
