// Numbers and samples, read from a word.
ghost use Rattle.std.specs.Prelude.{◌≡◌, ◌<◌, ◌≤◌, ◌⊎◌, length, IfErr, MatchResult, from_bits};
ghost use Rattle.std.specs.Float.{binary32};
ghost use Rattle.std.specs.Result.{OkIff};
ghost use Rattle.std.specs.Str.Parse.{IsNumeral, ParsesUnsigned, digits_value};
ghost use Rattle.cases.specs.Lists.{ramp_samples, longest_list};
ghost use Rattle.cases.specs.declared.fault.Fault.TheVariants.{NotANumber, NotASample, ListTooLong, Memory};

use crate::fault::Fault;
use std::alloc::Global;
use std::num::f32_from_bits_with_nan;

// One more than the sample cells that a player takes, so that handing in too many can be asked for.
pub const LONGEST_LIST: u64 = 16_777_217;

// A number in decimal digits, before which a plus may stand.
pub fn number(word: &str) -> Result<u64, Fault>
    ensures answer { ParsesUnsigned 64 10 word.now result }
    ensures refused { IfErr result (λ e. e ≡ NotANumber) }
{
    word.parse().map_err(|_| Fault::NotANumber)
}

// A sample by its bits, in eight hexadecimal digits.
pub fn sample(word: &str) -> Result<f32, Fault>
    ensures answer { OkIff result ((length word.now ≡ 8) × IsNumeral 16 word.now) (from_bits binary32 (digits_value 16 word.now)) }
    ensures refused { IfErr result (λ e. e ≡ NotASample) }
{
    if word.len() != 8 || word.starts_with('+') {
        return Err(Fault::NotASample);
    }
    let Ok(bits) = u32::from_str_radix(word, 16) else {
        return Err(Fault::NotASample);
    };
    Ok(f32_from_bits_with_nan(bits))
}

// The samples 0, 1, 2 .., n of them.
pub fn ramp(heap: Global, n: u64) -> Result<Vec<f32>, Fault>
    ensures answer { MatchResult result
        (λ v. (n ≤ longest_list) × (v.items ≡ ramp_samples n))
        (λ e. ((e ≡ ListTooLong) × (longest_list < n)) ⊎ ((e ≡ Memory) × (n ≤ longest_list))) }
{
    if n > LONGEST_LIST {
        return Err(Fault::ListTooLong);
    }
    Ok((0..n).map(|i| i as f32).collect(heap)?)
}
