// Numbers with places after the point.
ghost use Rattle.std.specs.Prelude.{◌≤◌};

/// The most places after the point that a number has.
pub const MAX_PLACES: u8 = 6;

/// A number of so many units, with so many places after the point.
#[derive(Clone, Copy, Debug)]
pub struct Number {
    pub units: i64,
    pub places: u8,
    ghost few: { places ≤ 6 },
}
