ghost use Rattle.std.specs.Prelude.{◌≡◌, ◌*◌, ◌/◌, ◌<◌, ◌≤◌, ◌^◌, ◌≢◌, ◌↔◌, ℕ, ℤ, pos, ◌+ℤ◌, ◌-ℤ◌, ◌*ℤ◌, ◌<ℤ◌, ◌≤ℤ◌, unsigned_abs, IfSome, IsSome, SomeIff, None};
ghost use Rattle.std.specs.Int.{IsGcd};
ghost use Rattle.std.specs.Ordering.{int_cmp};
ghost use Rattle.pc_num.specs.Signs.{Fits, differ};
ghost use Rattle.pc_num.specs.Scaled.{signed};
ghost use Rattle.pc_num.specs.Fractions.{AllFit, DifferenceFits, IsFrac, IsQuotient, IsReducedOf, SumFits};

use crate::divisor::common_divisor;
use crate::fit::{fit_add, fit_mul};
use crate::order::compare_fractions;
use std::cmp::Ordering;

// The greatest size of a number that fits.
const LARGEST: u128 = 170_141_183_460_469_231_731_687_303_715_884_105_727;

/// A fraction in lowest terms. Its `den` is at least 1.
#[derive(Clone, Copy, Debug, PartialEq, Eq)]
pub struct Frac {
    pub num: i128,
    pub den: i128,
}

impl Frac {
    /// The fraction `n / d`, or `None` where its numbers in lowest terms do not fit.
    pub fn new(n: i128, d: i128) -> Option<Frac>
        requires { d ≢ pos 0 }
        ensures some { IfSome result (IsQuotient n d) }
        ensures none { result ≡ None → (f : Frac) → IsQuotient n d f → ⊥ }
        ensures fits { Fits n → Fits d → IsSome result }
    {
        let (num, den) = lowest(n.unsigned_abs(), d.unsigned_abs());
        made(differ(n, d), num, den)
    }

    /// Compares two fractions.
    pub fn cmp(&self, other: &Frac) -> Ordering
        requires own { IsFrac self.now }
        requires others { IsFrac other.now }
        ensures { result ≡ int_cmp (self.now.num *ℤ other.now.den) (other.now.num *ℤ self.now.den) }
    {
        compare_fractions(self.num, self.den, other.num, other.den)
    }

    /// The sum. With g the greatest common divisor of the denominators b and d of a/b and c/d, it is `None` where one of
    /// `a * (d / g)`, `c * (b / g)`, their sum and `(b / g) * d` does not fit.
    pub fn add(&self, other: &Frac) -> Option<Frac>
        requires own { IsFrac self.now }
        requires others { IsFrac other.now }
        ensures some { IfSome result (IsQuotient ((self.now.num *ℤ other.now.den) +ℤ (other.now.num *ℤ self.now.den)) (self.now.den *ℤ other.now.den)) }
        ensures exact { IsSome result ↔ ((g : ℕ) → IsGcd (unsigned_abs self.now.den) (unsigned_abs other.now.den) g → SumFits self.now other.now g) }
    {
        let common = common_divisor(self.den.unsigned_abs(), other.den.unsigned_abs());
        let own = share(self.den, common);
        let others = share(other.den, common);
        match sum_over(self.num, other.num, own, others, other.den) {
            Some((total, den)) => Frac::new(total, den),
            None => None,
        }
    }

    /// The difference. It is `None` where one of the numbers that `add` names does not fit, with the difference for the sum.
    pub fn sub(&self, other: &Frac) -> Option<Frac>
        requires own { IsFrac self.now }
        requires others { IsFrac other.now }
        ensures some { IfSome result (IsQuotient ((self.now.num *ℤ other.now.den) -ℤ (other.now.num *ℤ self.now.den)) (self.now.den *ℤ other.now.den)) }
        ensures exact { IsSome result ↔ ((g : ℕ) → IsGcd (unsigned_abs self.now.den) (unsigned_abs other.now.den) g → DifferenceFits self.now other.now g) }
    {
        let negated = Frac {
            num: -other.num,
            den: other.den,
        };
        self.add(&negated)
    }

    /// The product, or `None` where its numbers in lowest terms do not fit.
    pub fn mul(&self, other: &Frac) -> Option<Frac>
        requires own { IsFrac self.now }
        requires others { IsFrac other.now }
        ensures some { IfSome result (IsQuotient (self.now.num *ℤ other.now.num) (self.now.den *ℤ other.now.den)) }
        ensures none { result ≡ None → (f : Frac) → IsQuotient (self.now.num *ℤ other.now.num) (self.now.den *ℤ other.now.den) f → ⊥ }
    {
        // What a top has in common with the other's bottom is taken out first, so that no product is too large early.
        let (a, d) = lowest(self.num.unsigned_abs(), other.den.unsigned_abs());
        let (c, b) = lowest(other.num.unsigned_abs(), self.den.unsigned_abs());
        made_product(differ(self.num, other.num), (a, c), (b, d))
    }

    /// The greatest whole number that is not above the fraction.
    pub fn floor(&self) -> i128
        requires { IsFrac self.now }
        ensures not_above { (result *ℤ self.now.den) ≤ℤ self.now.num }
        ensures next_above { self.now.num <ℤ ((result +ℤ pos 1) *ℤ self.now.den) }
    {
        self.num.div_euclid(self.den)
    }

    /// The least whole number that is not below the fraction.
    pub fn ceil(&self) -> i128
        requires { IsFrac self.now }
        ensures not_below { self.now.num ≤ℤ (result *ℤ self.now.den) }
        ensures one_before_below { ((result -ℤ pos 1) *ℤ self.now.den) <ℤ self.now.num }
    {
        -(-self.num).div_euclid(self.den)
    }
}

// The sizes of a fraction in lowest terms.
fn lowest(top: u128, bottom: u128) -> (u128, u128)
    requires { 0 < bottom }
    ensures reduced { IsReducedOf top bottom result.0 result.1 }
    ensures num_below { result.0 ≤ top }
    ensures den_below { result.1 ≤ bottom }
{
    let common = common_divisor(top, bottom);
    (top / common, bottom / common)
}

// The fraction of these sizes, below 0 where minus is set.
fn made(minus: bool, num: u128, den: u128) -> Option<Frac>
    ensures { SomeIff result ((num < 2 ^ 127) × (den < 2 ^ 127)) (record { num = signed minus num; den = pos den }) }
{
    if num > LARGEST || den > LARGEST {
        return None;
    }
    Some(Frac {
        num: with_sign(minus, num),
        den: den as i128,
    })
}

// One of the numbers is below 0, and the other is not.
fn differ(n: i128, d: i128) -> bool
    ensures { result ≡ differ n d }
{
    (n < 0) != (d < 0)
}

// The fraction of these products of sizes, below 0 where minus is set.
fn made_product(minus: bool, num: (u128, u128), den: (u128, u128)) -> Option<Frac>
    ensures { SomeIff result ((num.0 * num.1 < 2 ^ 127) × (den.0 * den.1 < 2 ^ 127)) (record { num = signed minus (num.0 * num.1); den = pos (den.0 * den.1) }) }
{
    let top = num.0.checked_mul(num.1)?;
    let bottom = den.0.checked_mul(den.1)?;
    made(minus, top, bottom)
}

fn with_sign(minus: bool, size: u128) -> i128
    requires { size < 2 ^ 127 }
    ensures { result ≡ signed minus size }
{
    let number = size as i128;
    if minus { -number } else { number }
}

// What a denominator does not have in common with another.
fn share(den: i128, common: u128) -> i128
    requires den_fits { Fits den }
    requires some { 0 < common }
    ensures { result ≡ pos (unsigned_abs den / common) }
{
    (den.unsigned_abs() / common) as i128
}

// The sum and its denominator, where own and others are the shares of two denominators, and den is the other's.
fn sum_over(a: i128, c: i128, own: i128, others: i128, den: i128) -> Option<(i128, i128)>
    ensures { SomeIff result (AllFit (a *ℤ others) (c *ℤ own) ((a *ℤ others) +ℤ (c *ℤ own)) (own *ℤ den)) ((a *ℤ others) +ℤ (c *ℤ own), own *ℤ den) }
{
    let left = fit_mul(a, others)?;
    let right = fit_mul(c, own)?;
    let total = fit_add(left, right)?;
    let bottom = fit_mul(own, den)?;
    Some((total, bottom))
}
