//! Quotients of whole numbers.

ghost use Rattle.std.specs.Prelude.{◌≡◌, ◌*◌, ◌^◌, ◌<◌, ◌≤◌, pos, ◌*ℤ◌, ◌<ℤ◌, unsigned_abs};
ghost use Rattle.pm_num.specs.Steps.{IsFloor, IsCeiling, IsRounded};

/// The greatest whole number that is not above `a / d`. Numbers that fit into 64 bits are divided in 64, which takes a
/// processor of 32 bits a tenth of the time.
// It isn't inlined: a division of 128 bits is long.
#[inline(never)]
pub fn floor(a: i128, d: i128) -> i128
    requires positive { pos 0 <ℤ d }
    ensures { IsFloor a d result }
{
    match (i64::try_from(a), i64::try_from(d)) {
        (Ok(near), Ok(by)) => i128::from(near.div_euclid(by)),
        _ => a.div_euclid(d),
    }
}

/// The least whole number that is not below `a / d`.
#[inline(never)]
pub fn ceiling(a: i128, d: i128) -> i128
    requires positive { pos 0 <ℤ d }
    requires small { unsigned_abs a < 2 ^ 120 }
    ensures { IsCeiling a d result }
{
    -floor(-a, d)
}

/// The whole number nearest to `a / d`; of two that are equally near, the lower.
#[inline(never)]
pub fn rounded(a: i128, d: i128) -> i128
    requires positive { pos 0 <ℤ d }
    requires small { unsigned_abs a < 2 ^ 120 }
    requires divisor_small { unsigned_abs d < 2 ^ 120 }
    ensures { IsRounded a d result }
{
    floor(2 * a + d - 1, 2 * d)
}

/// The product of two numbers of at most 2^55 in size.
pub fn product(a: i64, b: i64) -> i128
    requires left { unsigned_abs a ≤ 2 ^ 55 }
    requires right { unsigned_abs b ≤ 2 ^ 55 }
    ensures value { result ≡ a *ℤ b }
    ensures size { unsigned_abs result ≡ unsigned_abs a * unsigned_abs b }
    ensures small { unsigned_abs result ≤ 2 ^ 110 }
{
    i128::from(a) * i128::from(b)
}

/// The product of two numbers, if it is at most 2^55 in size.
pub fn short_product(a: i64, b: i64) -> i64
    requires { unsigned_abs a * unsigned_abs b ≤ 2 ^ 55 }
    ensures value { result ≡ a *ℤ b }
    ensures size { unsigned_abs result ≡ unsigned_abs a * unsigned_abs b }
{
    a * b
}
