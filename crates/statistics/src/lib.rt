// The mean and the variance of a sample of results, as exact fractions in lowest terms.

#![tactic(auto)]

ghost use Rattle.std.specs.Prelude.{◌≡◌, ◌<◌};
ghost use Rattle.statistics.specs.Fractions.{gcd, lowest};
ghost use Rattle.statistics.specs.Samples.{sample_acceptance, Sample};
ghost use Rattle.statistics.specs.Summaries.{sums_of, summary_of};

use refusal::{Observation, Refusal};

// The most results, and the greatest.
pub const MOST_RESULTS: usize = 1000;

pub const GREATEST_RESULT: u64 = 1000000;

#[derive(Clone, Copy)]
pub struct Fraction {
    pub numerator: u64,
    pub denominator: u64,
}

#[derive(Clone, Copy)]
pub struct Moments {
    pub mean: Fraction,
    pub variance: Fraction,
}

// The sum of the results, and of their squares.
#[derive(Clone, Copy)]
struct Sums {
    total: u64,
    squares: u64,
}

// Whether the sample is accepted, or the first refusal.
fn check_sample(results: &[u64]) -> Result<(), Refusal>
    ensures { result ≡ sample_acceptance results.now }
{
    if results.is_empty() {
        return Err(Refusal::SampleSize);
    }
    if results.len() > MOST_RESULTS {
        return Err(Refusal::SampleSize);
    }
    for (i, x) in results.iter().enumerate() {
        if *x > GREATEST_RESULT {
            return Err(Refusal::TooLarge(Observation(i as u64)));
        }
    }
    Ok(())
}

fn add_up(results: &[u64]) -> Sums
    requires { Sample results.now }
    ensures { result ≡ sums_of results.now }
{
    let mut total: u64 = 0;
    let mut squares: u64 = 0;
    for x in results {
        total += *x;
        squares += *x * *x;
    }
    Sums { total, squares }
}

// The greatest number that divides both.
fn gcd(a: u64, b: u64) -> u64
    ensures { result ≡ gcd a b }
{
    // Kept: Euclid's loop counts no index, so `while` is its plain form.
    let mut high = a;
    let mut low = b;
    while low != 0 {
        let rest = high % low;
        high = low;
        low = rest;
    }
    high
}

fn lowest(numerator: u64, denominator: u64) -> Fraction
    requires { 0 < denominator }
    ensures { result ≡ lowest numerator denominator }
{
    let d = gcd(numerator, denominator);
    Fraction {
        numerator: numerator / d,
        denominator: denominator / d,
    }
}

// The mean and the variance of the results, or the refusal of the sample.
pub fn summarize(results: &[u64]) -> Result<Moments, Refusal>
    ensures { result ≡ summary_of results.now }
{
    check_sample(results)?;
    let sums = add_up(results);
    let count = results.len() as u64;
    let total = sums.total;
    let squares = sums.squares;
    let mean = lowest(total, count);
    let spread = count * squares - total * total;
    let variance = lowest(spread, count * count);
    Ok(Moments { mean, variance })
}
