// A span that knows how many samples it has: at least one, and no more than the limit.
ghost use Rattle.std.specs.Prelude.{◌≤◌, vec_len, ◌≡◌, ◌<◌, ◌⊎◌, MatchResult};
ghost use Rattle.source.specs.Meanings.{longest_known};

use common::format::Format;

pub const LONGEST_KNOWN: usize = 4_294_967_295;

#[derive(Drop)]
pub struct KnownSpan {
    pub(crate) format: Format,
    pub(crate) samples: Vec<f32>,
    ghost some: { 1 ≤ vec_len samples },
    ghost short: { vec_len samples ≤ longest_known },
}

impl KnownSpan {
    // The samples come back where there are none or too many.
    pub fn new(format: Format, samples: Vec<f32>) -> Result<KnownSpan, Vec<f32>>
        ensures answer { MatchResult result
            (λ s. (s.format ≡ format) × (s.samples ≡ samples))
            (λ v. (v ≡ samples) × ((vec_len samples ≡ 0) ⊎ (longest_known < vec_len samples))) }
    {
        if samples.is_empty() || samples.len() > LONGEST_KNOWN {
            return Err(samples);
        }
        Ok(KnownSpan { format, samples })
    }
}
