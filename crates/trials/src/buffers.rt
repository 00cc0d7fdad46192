// Buffers of both recorded kinds.
use crate::formats;
use common::format::Format;
use recorded::Recorded;
use source::Source;
use std::alloc::Global;
use std::num::f32_to_bits_with_nan;
use std::test::Fail;

// The bits of the samples that a buffer gives before its end, and at most ten, then what it rests at: channels, rate, and 1 where it is open.
fn played<K: Recorded>(heap: Global, format: Format, cells: &[K]) -> Result<Vec<u32>, Fail> {
    let mut buffer = formats::buffer(format, cells)?;
    let samples = (0..10).filter_map(|_| buffer.next());
    let mut all: Vec<u32> = samples
        .map(|sample| f32_to_bits_with_nan(sample))
        .collect(heap)?;
    all.push(u32::from(buffer.channels().get()))?;
    all.push(buffer.sample_rate().get())?;
    all.push(u32::from(buffer.current_span_len().is_none()))?;
    Ok(all)
}

#[test]
fn sixteen_bits_stand_for_their_share_of_32768(rt: HostRuntime) -> Result<(), Fail> {
    let cells: [i16; 6] = [-32768, -1, 0, 1, 16384, 32767];
    let bits = played(rt.alloc(), formats::format(2, 44_100)?, &cells[..])?;
    let wanted = [
        0xbf80_0000,
        0xb800_0000,
        0,
        0x3800_0000,
        0x3f00_0000,
        0x3f7f_fe00,
        2,
        44_100,
        1,
    ];
    assert_eq!(rt; bits.as_slice(), &wanted[..]);
    Ok(())
}

#[test]
fn floats_stand_for_themselves(rt: HostRuntime) -> Result<(), Fail> {
    let cells: [f32; 3] = [-0.0, 0.1, 3.0e38];
    let bits = played(rt.alloc(), formats::format(8, 65_536)?, &cells[..])?;
    let wanted = [0x8000_0000, 0x3dcc_cccd, 0x7f61_b1e6, 8, 65_536, 1];
    assert_eq!(rt; bits.as_slice(), &wanted[..]);
    Ok(())
}

#[test]
fn an_empty_buffer_rests_at_once(rt: HostRuntime) -> Result<(), Fail> {
    let cells: [f32; 0] = [];
    let bits = played(rt.alloc(), formats::format(3, 1)?, &cells[..])?;
    assert_eq!(rt; bits.as_slice(), &[3, 1, 1][..]);
    Ok(())
}
