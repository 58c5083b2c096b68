// Numbers that calls carry, in 65,536ths, rounded down, within 2^47, and 2^47 more.
ghost use Rattle.std.specs.Prelude.{◌≡◌, ◌<◌, ◌≤◌, ◌^◌};
ghost use Rattle.osc_drawing.specs.Numbers as spec;

/// Where 0 stands, and 1.
pub(crate) const ZERO: u64 = 140_737_488_355_328;

pub(crate) const ONE: u64 = 140_737_488_420_864;

/// The number of an integer by its 32 bits.
pub(crate) fn of_integer(bits: u32) -> u64
    ensures { result ≡ spec.of_integer bits }
{
    (u64::from(bits) + 2_147_483_648) % 4_294_967_296 * 65_536
}

/// How far up an integer of these 64 bits stands from the least of 64 bits.
fn raised(bits: u64) -> u64
    ensures { result ≡ spec.raised bits }
{
    ((u128::from(bits) + 9_223_372_036_854_775_808) % 18_446_744_073_709_551_616) as u64
}

/// The number of an integer by its 64 bits.
pub(crate) fn of_long(bits: u64) -> u64
    ensures { result ≡ spec.of_long bits }
{
    raised(bits)
        .saturating_sub(9_223_372_034_707_292_160)
        .min(4_294_967_296)
        * 65_536
}

/// A part of 2^shift, up or down from 0.
fn of_parts(below: bool, mantissa: u64, shift: u32) -> u64
    requires small { mantissa < 2 ^ 53 }
    requires within { shift ≤ 63 }
    ensures { result ≡ spec.of_parts below mantissa shift }
{
    let whole = 1u64 << shift;
    if below {
        ZERO - ((mantissa + (whole - 1)) / whole).min(ZERO)
    } else {
        ZERO + (mantissa / whole).min(ZERO)
    }
}

/// The number of a float by its bits, unless it is infinite or none.
pub(crate) fn of_float(bits: u32) -> Option<u64>
    ensures { result ≡ spec.of_float bits }
{
    let exponent = bits / 8_388_608 % 256;
    if exponent == 255 {
        return None;
    }
    let lead = if exponent == 0 { 0 } else { 8_388_608 };
    let mantissa = u64::from(bits % 8_388_608 + lead) * 536_870_912;
    let shift = 163u32.saturating_sub(exponent.max(1)).min(63);
    Some(of_parts(bits >= 2_147_483_648, mantissa, shift))
}

/// The same of a double.
pub(crate) fn of_double(bits: u64) -> Option<u64>
    ensures { result ≡ spec.of_double bits }
{
    let exponent = bits / 4_503_599_627_370_496 % 2048;
    if exponent == 2047 {
        return None;
    }
    let lead = if exponent == 0 {
        0
    } else {
        4_503_599_627_370_496
    };
    let mantissa = bits % 4_503_599_627_370_496 + lead;
    let shift = 1059u64.saturating_sub(exponent.max(1)).min(63) as u32;
    Some(of_parts(bits >= 9_223_372_036_854_775_808, mantissa, shift))
}
