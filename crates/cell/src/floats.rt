// The float of a bit pattern, of a NaN's pattern a NaN: the library's calls, by the names that callers have.
ghost use Rattle.std.specs.Prelude.{◌≡◌};
ghost use Rattle.std.specs.Float.{binary32, binary64};
ghost use Rattle.std.specs.Float.Ieee.{of_bits};

use std::num;

pub fn single(bits: u32) -> f32
    ensures { result ≡ of_bits binary32 bits }
{
    num::f32_from_bits_with_nan(bits)
}

pub fn double(bits: u64) -> f64
    ensures { result ≡ of_bits binary64 bits }
{
    num::f64_from_bits_with_nan(bits)
}
