// Formats and buffers for tests.
use buffer::SamplesBuffer;
use common::format::Format;
use recorded::Recorded;
use std::test::Fail;

pub(crate) fn format(channels: u16, rate: u32) -> Result<Format, Fail> {
    Format::new(channels, rate).map_err(|_| Fail::new("no format"))
}

pub(crate) fn buffer<K: Recorded>(
    format: Format,
    cells: &[K],
) -> Result<SamplesBuffer<'_, K>, Fail> {
    SamplesBuffer::new(format, cells).map_err(|_| Fail::new("refused"))
}
