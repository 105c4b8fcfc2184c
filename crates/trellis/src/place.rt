// A place of the trellis: one grade and one number of bits of a block.
ghost use Rattle.std.specs.Prelude.{◌≡◌, if◌then◌else◌, Some, None};
ghost use Rattle.trellis.specs.Places.{unreached, relaxed};

use costs::Kind;

// Reached where some choice ends there, and then with the least cost of such choices. A record and no Option, as the form was
// asked for: it lies in lent memory, and where it is not reached it holds the start value.
#[derive(Clone, Copy, PartialEq, Eq, Debug)]
pub struct Place<K> {
    pub reached: bool,
    pub cost: K,
}

impl<K: Kind> Place<K> {
    // A place that no choice reaches.
    pub fn unreached() -> Place<K>
        ensures { result ≡ unreached K.Kind.model }
    {
        Place {
            reached: false,
            cost: K::start(),
        }
    }

    // The cost that it keeps, none where no choice reaches it.
    pub fn kept(self) -> Option<K>
        ensures { result ≡ (if self.reached then Some self.cost else None) }
    {
        self.reached.then_some(self.cost)
    }

    // One step of the trellis: this place, or the earlier place joined with the distortion where that is reached and this one is
    // not, or is dearer.
    pub fn relaxed(self, earlier: Place<K>, distortion: u32) -> Place<K>
        ensures { result ≡ relaxed K.Kind.model distortion self earlier }
    {
        if earlier.reached {
            let cost = earlier.cost.join(distortion);
            if self.reached && self.cost.no_dearer(cost) {
                self
            } else {
                Place {
                    reached: true,
                    cost,
                }
            }
        } else {
            self
        }
    }
}
