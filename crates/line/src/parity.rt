// Parity: "P makes the number of ones in the field and P even".
ghost use Rattle.std.specs.Prelude.{◌≡◌};
ghost use Rattle.line.specs.Parity.{parity_of, parity_holds, EvenAtEveryWidth, HoldsAtEveryWidth};

// The level that P has after a field of any width, from the field's number.
#[tactic(auto, unfolding(crate::specs::Parity::parity_of))]
pub fn parity(field: u32) -> u32
    ensures value { result ≡ parity_of field }
    ensures even { EvenAtEveryWidth field result }
{
    u32::count_ones(field) % 2
}

// Whether a field and the level that was read in its P slot have an even number of ones together.
#[tactic(auto, unfolding(crate::specs::Parity::parity_holds))]
pub fn parity_holds(field: u32, p: bool) -> bool
    ensures value { result ≡ parity_holds field p }
    ensures even { HoldsAtEveryWidth field p result }
{
    parity(field) == p as u32
}
