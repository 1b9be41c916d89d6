//! Powers of 2 and of 10 as fractions of whole numbers, `upper / lower`.

ghost use Rattle.std.specs.Prelude.{◌≡◌, ◌^◌, ◌≤◌, pos, ◌<ℤ◌, ◌≤ℤ◌};
ghost use Rattle.pm_num.specs.Value.{upper, lower};
ghost use Rattle.pm_num.specs.Formats.{IsExponent, IsDecimal};

/// `2^n`.
pub fn power_of_two(n: u32) -> i64
    requires { n ≤ 31 }
    ensures value { result ≡ pos (2 ^ n) }
    ensures positive { pos 0 <ℤ result }
    ensures small { result ≤ℤ pos (2 ^ 31) }
{
    1 << n
}

/// The numerator of `2^n`.
pub fn upper_of_two(n: i8) -> i64
    requires { IsExponent n }
    ensures value { result ≡ pos (upper 2 n) }
    ensures positive { pos 0 <ℤ result }
    ensures small { result ≤ℤ pos (2 ^ 15) }
{
    if n < 0 { 1 } else { 1 << n }
}

/// The denominator of `2^n`.
pub fn lower_of_two(n: i8) -> i64
    requires { IsExponent n }
    ensures value { result ≡ pos (lower 2 n) }
    ensures positive { pos 0 <ℤ result }
    ensures small { result ≤ℤ pos (2 ^ 16) }
{
    if n < 0 { 1 << -n } else { 1 }
}

/// The numerator of `10^r`.
pub fn upper_of_ten(r: i8) -> i64
    requires { IsDecimal r }
    ensures value { result ≡ pos (upper 10 r) }
    ensures positive { pos 0 <ℤ result }
    ensures small { result ≤ℤ pos (10 ^ 12) }
{
    if r < 0 {
        1
    } else {
        power_of_ten(r.unsigned_abs())
    }
}

/// The denominator of `10^r`.
pub fn lower_of_ten(r: i8) -> i64
    requires { IsDecimal r }
    ensures value { result ≡ pos (lower 10 r) }
    ensures positive { pos 0 <ℤ result }
    ensures small { result ≤ℤ pos (10 ^ 12) }
{
    if r < 0 {
        power_of_ten(r.unsigned_abs())
    } else {
        1
    }
}

// `10^n`. Each value of DIRECT asks for one, so they stand here and aren't multiplied out.
fn power_of_ten(n: u8) -> i64
    requires { n ≤ 12 }
    ensures value { result ≡ pos (10 ^ n) }
    ensures positive { pos 0 <ℤ result }
    ensures small { result ≤ℤ pos (10 ^ 12) }
{
    match n {
        0 => 1,
        1 => 10,
        2 => 100,
        3 => 1000,
        4 => 10_000,
        5 => 100_000,
        6 => 1_000_000,
        7 => 10_000_000,
        8 => 100_000_000,
        9 => 1_000_000_000,
        10 => 10_000_000_000,
        11 => 100_000_000_000,
        _ => 1_000_000_000_000,
    }
}
