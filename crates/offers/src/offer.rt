// An offer of a grade: so many bits for so much distortion.
ghost use Rattle.std.specs.Prelude.{◌≡◌};
ghost use Rattle.offers.specs.Offers.{offer_of};

#[derive(Clone, Copy, PartialEq, Eq, Debug)]
pub struct Offer {
    rate: u16,
    distortion: u32,
}

impl Offer {
    // The offer of these numbers, or none where one is out of range. The distortion is wide, so that a caller may hand over a
    // product.
    pub fn new(rate: u32, distortion: u64) -> Option<Offer>
        ensures { result ≡ offer_of rate distortion }
    {
        if rate <= 65535 && distortion <= 16777215 {
            let rate = rate as u16;
            let distortion = distortion as u32;
            Some(Offer { rate, distortion })
        } else {
            None
        }
    }

    pub fn rate(self) -> u16
        ensures { result ≡ self.rate }
    {
        self.rate
    }

    pub fn distortion(self) -> u32
        ensures { result ≡ self.distortion }
    {
        self.distortion
    }
}
