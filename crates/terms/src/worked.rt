// Worked values of the definitions, as one theorem.
ghost use Rattle.std.specs.Prelude.{◌≡◌, length};
ghost use Rattle.terms.specs.Worked.{worked, AsWorked};

// How many worked values there are. Each is what the definitions give.
pub fn worked_values() -> u32
    ensures count { result ≡ length worked }
    ensures stand { AsWorked }
{
    14
}
