// The parts of the product that refuse.
ghost use Rattle.std.specs.Prelude.{◌≡◌, Some};
ghost use Rattle.faults.specs.Layers.{layer_name};

use std::fmt;

// The part of the product that refuses.
#[derive(Clone, Copy, PartialEq, Eq, Debug)]
pub enum Layer {
    Text,
    Terms,
    Block,
    Planner,
    Answer,
}

impl Layer {
    // The word that a fault line shows for the layer.
    pub fn name(self) -> &'static str
        ensures { result.now ≡ layer_name self }
    {
        match self {
            Layer::Text => "text",
            Layer::Terms => "terms",
            Layer::Block => "block",
            Layer::Planner => "planner",
            Layer::Answer => "answer",
        }
    }
}

// The word.
impl fmt::Display for Layer {
    ghost output = { λ layer. Some (layer_name layer) };

    fn fmt<W: fmt::Write>(&self, f: &mut fmt::Formatter<W>) -> fmt::Result {
        let name = self.name();
        write!(f, "{name}")
    }
}
