// A span that does not say how many samples it has, which are at least one.
ghost use Rattle.std.specs.Prelude.{◌≡◌, ◌≤◌, vec_len, MatchOption};

use common::format::Format;

#[derive(Drop)]
pub struct OpenSpan {
    pub(crate) format: Format,
    pub(crate) samples: Vec<f32>,
    ghost some: { 1 ≤ vec_len samples },
}

impl OpenSpan {
    // None where there are no samples.
    pub fn new(format: Format, samples: Vec<f32>) -> Option<OpenSpan>
        ensures answer { MatchOption result (vec_len samples ≡ 0) (λ s. (s.format ≡ format) × (s.samples ≡ samples)) }
    {
        if samples.is_empty() {
            return None;
        }
        Some(OpenSpan { format, samples })
    }
}
