// What operators make of numbers. Units are exact in i128; a result outside i64 is none.
ghost use Rattle.std.specs.Prelude.{◌≡◌, ◌≢◌, ◌≤◌, ◌<◌, ◌+◌, ◌-◌, ◌*◌, ◌/◌, ◌^◌, ◌+ℤ◌, ◌-ℤ◌, ◌*ℤ◌, ◌≤ℤ◌, pos, negsuc, max, int_div, unsigned_abs, Some};
ghost use Rattle.expr_lang.specs.Words.{units, units_if, times_ten, ordering, plus, minus, times, over};
ghost use Rattle.expr_lang.specs.Words.{opposite_number, size, rounded, with_places, seen_number, IsSmall};

use crate::number::{MAX_PLACES, Number};
use std::cmp::Ordering;

// Ten to the power.
fn power_of_ten(power: u8) -> i128
    requires { power ≤ 6 }
    ensures value { result ≡ pos (10 ^ power) }
    ensures small { result ≤ℤ pos 1000000 }
    ensures positive { pos 1 ≤ℤ result }
{
    match power {
        0 => 1,
        1 => 10,
        2 => 100,
        3 => 1_000,
        4 => 10_000,
        5 => 100_000,
        _ => 1_000_000,
    }
}

/// The number of these units and places, where it is one.
#[tactic(auto, unfolding(crate::specs::Values::units_if), using(crate::proofs::Units::inside, crate::proofs::Units::too_many))]
pub fn number_of(units: i64, places: u8) -> Option<Number>
    ensures { seen_number result ≡ units_if units places }
{
    if places > MAX_PLACES {
        return None;
    }
    Some(Number { units, places })
}

// The same of units that may not fit.
#[tactic(auto, using(crate::proofs::Units::outside))]
fn narrowed(units: i128, places: u8) -> Option<Number>
    ensures { seen_number result ≡ units_if units places }
{
    match i64::try_from(units) {
        Ok(units) => number_of(units, places),
        Err(_) => None,
    }
}

// The units of a number with so many places more.
fn times_ten(units: i64, places: u8) -> i128
    requires { places ≤ 6 }
    ensures value { result ≡ times_ten units places }
    ensures small { IsSmall result }
{
    i128::from(units) * power_of_ten(places)
}

// A sum of units of which neither is large.
fn added(left: i128, right: i128, places: u8) -> Option<Number>
    requires left { IsSmall left }
    requires right { IsSmall right }
    ensures { seen_number result ≡ units_if (left +ℤ right) places }
{
    narrowed(left + right, places)
}

// A difference of units of which neither is large.
fn subtracted(left: i128, right: i128, places: u8) -> Option<Number>
    requires left { IsSmall left }
    requires right { IsSmall right }
    ensures { seen_number result ≡ units_if (left -ℤ right) places }
{
    narrowed(left - right, places)
}

/// How two numbers are ordered.
pub fn compare(x: Number, y: Number) -> Ordering
    ensures { Some result ≡ ordering (units x.units x.places) (units y.units y.places) }
{
    times_ten(x.units, y.places).cmp(&times_ten(y.units, x.places))
}

pub fn sum(x: Number, y: Number) -> Option<Number>
    ensures { seen_number result ≡ plus (units x.units x.places) (units y.units y.places) }
{
    let places = x.places.max(y.places);
    let left = times_ten(x.units, places - x.places);
    added(left, times_ten(y.units, places - y.places), places)
}

pub fn difference(x: Number, y: Number) -> Option<Number>
    ensures { seen_number result ≡ minus (units x.units x.places) (units y.units y.places) }
{
    let places = x.places.max(y.places);
    let left = times_ten(x.units, places - x.places);
    subtracted(left, times_ten(y.units, places - y.places), places)
}

pub fn product(x: Number, y: Number) -> Option<Number>
    ensures { seen_number result ≡ times (units x.units x.places) (units y.units y.places) }
{
    narrowed(
        i128::from(x.units) * i128::from(y.units),
        x.places + y.places,
    )
}

// A quotient, cut toward zero.
fn divided(dividend: i128, divisor: i64, places: u8) -> Option<Number>
    requires dividend { IsSmall dividend }
    requires divisor { divisor ≢ pos 0 }
    ensures { seen_number result ≡ units_if (int_div dividend divisor) places }
{
    narrowed(dividend / i128::from(divisor), places)
}

/// The quotient, cut toward zero, unless the divisor is zero.
pub fn quotient(x: Number, y: Number) -> Option<Number>
    ensures { seen_number result ≡ over (units x.units x.places) (units y.units y.places) }
{
    if y.units == 0 {
        return None;
    }
    divided(times_ten(x.units, y.places), y.units, x.places)
}

pub fn opposite(x: Number) -> Option<Number>
    ensures { seen_number result ≡ opposite_number (units x.units x.places) }
{
    narrowed(0 - i128::from(x.units), x.places)
}

pub fn absolute(x: Number) -> Option<Number>
    ensures { seen_number result ≡ size (units x.units x.places) }
{
    narrowed(i128::from(x.units).abs(), x.places)
}

// The quotient by a divisor above zero, rounded with halves away from zero.
fn rounded(units: i64, divisor: i128) -> i128
    requires low { pos 1 ≤ℤ divisor }
    requires high { divisor ≤ℤ pos 1000000 }
    ensures { result ≡ rounded units (unsigned_abs divisor) }
{
    let half = divisor / 2;
    if units < 0 {
        (i128::from(units) - half) / divisor
    } else {
        (i128::from(units) + half) / divisor
    }
}

/// The number with so many places: exact, or rounded with halves away from zero.
pub fn rescaled(x: Number, places: u8) -> Option<Number>
    ensures { seen_number result ≡ with_places places (units x.units x.places) }
{
    if places > MAX_PLACES {
        return None;
    }
    if x.places <= places {
        return narrowed(times_ten(x.units, places - x.places), places);
    }
    narrowed(rounded(x.units, power_of_ten(x.places - places)), places)
}
