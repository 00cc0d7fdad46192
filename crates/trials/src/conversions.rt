// Channel conversion around its end.
use crate::formats;
use channels::ChannelCountConverter;
use recorded::Recorded;
use source::flattened::Flattened;
use source::{Samples, Source};
use std::test::Fail;

// How many of n calls give a sample, and how many cells are left then.
fn given<K: Recorded>(cells: &[K], from: u16, to: u16, n: usize) -> Result<(usize, usize), Fail> {
    let format = formats::format(from, 48_000)?;
    let to = formats::format(to, 48_000)?;
    let input = Flattened::new(formats::buffer(format, cells)?);
    let mut converter = ChannelCountConverter::new(input, format.channels, to.channels);
    let given = (0..n).filter(|_| converter.next().is_some()).count();
    let mut input = converter.into_inner();
    let left = (0..cells.len()).filter(|_| input.next().is_some()).count();
    Ok((given, left))
}

#[test]
fn after_the_end_comes_the_end(rt: HostRuntime) -> Result<(), Fail> {
    let cells: [f32; 7] = [1.0, 2.0, 3.0, 4.0, 5.0, 6.0, 7.0];
    let (count, left) = given(&cells[..], 3, 2, 100)?;
    assert_eq!(rt; count, 5);
    assert_eq!(rt; left, 0);
    Ok(())
}

#[test]
fn the_input_is_given_back_where_it_stands(rt: HostRuntime) -> Result<(), Fail> {
    let cells: [f32; 7] = [1.0, 2.0, 3.0, 4.0, 5.0, 6.0, 7.0];
    let (count, left) = given(&cells[..], 3, 2, 2)?;
    assert_eq!(rt; count, 2);
    assert_eq!(rt; left, 4);
    Ok(())
}
