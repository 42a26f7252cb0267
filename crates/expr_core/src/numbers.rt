ghost use Rattle.std.specs.Prelude.{◌≡◌};
ghost use Rattle.expr_core.specs.Division.{quotient, remainder};

/// The quotient whose remainder is not negative, if the divisor is not 0 and the quotient is in range.
pub(crate) fn quotient(dividend: i128, divisor: i128) -> Option<i128>
    ensures { result ≡ quotient dividend divisor }
{
    dividend.checked_div_euclid(divisor)
}

/// That remainder. It is always in range, also where the quotient is not.
pub(crate) fn remainder(dividend: i128, divisor: i128) -> Option<i128>
    ensures { result ≡ remainder dividend divisor }
{
    if divisor == -1 {
        return Some(0);
    }
    dividend.checked_rem_euclid(divisor)
}
