// The two ways of a converter: equal rates touch no sample, other rates are resampled. They hold different things, and no third can come.
use resampler::Resampler;

#[derive(Drop)]
pub enum Way<I> {
    Same(I),
    Between(Resampler<I>),
}
