// The scaled value of a cell, by the factor and the zero of its column.
ghost use Rattle.std.specs.Prelude.{◌≡◌, ◌&&◌, ℤ, ◌+ℤ◌, ◌≤ℤ◌, ◌<ℤ◌, ◌≤◌, pos, neg_ℤ, nat_abs};
ghost use Rattle.std.specs.Float.{binary64, float_one};
ghost use Rattle.std.specs.Float.Ieee.{add, mul, eq, of_int, to_bits};
ghost use Rattle.cell.specs.declared.DataValue.TheVariants.{UnsignedByte};
ghost use Rattle.cell.specs.Scaled.{scaled_double, double_of, scaled_whole, shifts_by, unsigned_or, scaled_value};

use super::DataValue;
use layout::Scaling;
use std::num;

// The product is rounded once and the sum once: no `mul_add`. All NaNs have one pattern.
fn scaled(scaling: Scaling, stored: f64) -> DataValue
    ensures { result ≡ double_of (scaled_double scaling stored) }
{
    let value = scaling.zero + scaling.factor * stored;
    DataValue::Double {
        value,
        bits: num::f64_to_bits_with_nan(value),
    }
}

fn scaled_whole(scaling: Scaling, stored: i64) -> DataValue
    ensures { result ≡ scaled_whole scaling stored }
{
    scaled(scaling, num::nearest_i64_to_f64(stored))
}

// Whether the scaling is the factor 1 and this zero.
fn shifts_by(scaling: Scaling, zero: f64) -> bool
    ensures { result ≡ (eq scaling.factor float_one && eq scaling.zero zero) }
{
    scaling.factor == 1.0 && scaling.zero == zero
}

// A byte less 128.
fn signed_byte(n: u8) -> i64
    ensures { result ≡ pos n +ℤ neg_ℤ (pos 128) }
{
    n as i64 - 128
}

// A number and the zero that makes its type unsigned.
fn unsigned(stored: i64, zero: u64) -> u64
    requires { (neg_ℤ (pos zero) ≤ℤ stored) × (zero ≤ 9223372036854775808) }
    ensures { result ≡ nat_abs (stored +ℤ pos zero) }
{
    zero.wrapping_add(stored.cast_unsigned())
}

// The exact sum where the scaling only makes the type unsigned.
#[tactic(auto, unfolding(crate::specs::Scaled::shifts_by))]
fn unsigned_or(scaling: Scaling, stored: i64, zero: u64) -> DataValue
    requires { (neg_ℤ (pos zero) ≤ℤ stored) × (zero ≤ 9223372036854775808) }
    ensures { result ≡ unsigned_or zero scaling stored }
{
    if shifts_by(scaling, num::nearest_u64_to_f64(zero)) {
        return DataValue::UnsignedLong(unsigned(stored, zero));
    }
    scaled_whole(scaling, stored)
}

#[tactic(auto, unfolding(crate::specs::Scaled::shifts_by))]
fn scaled_byte(scaling: Scaling, n: u8) -> DataValue
    ensures { result ≡ scaled_value scaling (UnsignedByte n) }
{
    if shifts_by(scaling, num::nearest_i64_to_f64(-128)) {
        return DataValue::Long(signed_byte(n));
    }
    scaled_whole(scaling, n as i64)
}

// The scaled value of a cell's plain value. A value of another type, or a descriptor, stays.
pub fn scaled_value(scaling: Scaling, value: DataValue) -> DataValue
    ensures { result ≡ scaled_value scaling value }
{
    match value {
        DataValue::UnsignedByte(n) => scaled_byte(scaling, n),
        DataValue::Short(n) => unsigned_or(scaling, n as i64, 32768),
        DataValue::Integer(n) => unsigned_or(scaling, n as i64, 2147483648),
        DataValue::Long(n) => unsigned_or(scaling, n, 9223372036854775808),
        DataValue::Float { value, .. } => scaled(scaling, num::f32_to_f64_with_nan(value)),
        DataValue::Double { value, .. } => scaled(scaling, value),
        _ => value,
    }
}
