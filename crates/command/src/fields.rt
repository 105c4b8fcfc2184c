// A field of a line. Fields are numbered from 1, as in a fault.
ghost use Rattle.std.specs.Prelude.{◌≤◌};

#[derive(Clone, Copy)]
pub(crate) struct Field<'a> {
    line: &'a [u8],
    number: u32,
    ghost counted: { 1 ≤ number },
}

pub(crate) mod calls;
