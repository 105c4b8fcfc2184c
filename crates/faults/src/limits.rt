// Numbers that have limits.
ghost use Rattle.std.specs.Prelude.{◌≡◌, ◌||◌, Ok, Err, if◌then◌else◌, nat_lt};

// The least and the most that a number may be.
#[derive(Clone, Copy, PartialEq, Eq, Debug)]
pub struct Limits {
    pub least: u32,
    pub most: u32,
}

impl Limits {
    // The number where it keeps the limits, and the fault where it does not.
    pub fn check<F: Drop>(self, number: u32, fault: F) -> Result<u32, F>
        ensures { result ≡ (if nat_lt number self.least || nat_lt self.most number then Err fault else Ok number) }
    {
        if number < self.least || number > self.most {
            return Err(fault);
        }
        Ok(number)
    }
}
