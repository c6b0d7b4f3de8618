// What every refused call tells: a number, a place, and the layer that refused.
#![tactic(auto)]

ghost use Rattle.std.specs.Prelude.{Some};
ghost use Rattle.refusal.specs.Texts.{layer_text, refusal_text};

use std::fmt;

// Where a refusal comes from.
#[derive(Clone, Copy, Debug, PartialEq, Eq)]
pub enum Layer {
    Tray,
    Page,
    Program,
}

// What a refusal tells. The number names the cause; what the place counts (points, bytes, entries) depends on it.
// A number and no enum: the causes are enums of the crates above, and this is what is printed of them and handed to C.
#[derive(Clone, Copy, Debug, PartialEq, Eq)]
pub struct Told {
    pub number: u16,
    pub place: usize,
    pub layer: Layer,
}

// The word of the layer.
impl fmt::Display for Layer {
    ghost output = { λ layer. Some (layer_text layer) };

    fn fmt<W: fmt::Write>(&self, f: &mut fmt::Formatter<W>) -> fmt::Result {
        let word = match self {
            Layer::Tray => "tray",
            Layer::Page => "page",
            Layer::Program => "program",
        };
        f.write_str(word)
    }
}

// As `tray refused 1 at 2`.
impl fmt::Display for Told {
    ghost output = { λ told. Some (refusal_text told) };

    fn fmt<W: fmt::Write>(&self, f: &mut fmt::Formatter<W>) -> fmt::Result {
        let Told {
            number,
            place,
            layer,
        } = self;
        write!(f, "{layer} refused {number} at {place}")
    }
}
