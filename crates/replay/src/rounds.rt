// Drawing from all lists of a bank in turn.
ghost use Rattle.std.specs.Prelude.{◌≡◌, ◌<◌, true, Ok};
ghost use Rattle.replay.specs.Left.{all_left};

use crate::lists::{Form, Listing};
use bank::Bank;
use std::alloc::{AllocError, Global};

// Draws once by each number that there is a listing for, and answers whether anything came.
fn write_round<B: Bank>(bank: &mut B, listings: &mut [Listing]) -> Result<bool, AllocError>
    ensures drawn { result ≡ Ok true → all_left (B.lists bank.new) < all_left (B.lists bank.old) }
{
    let mut drawn = false;
    for (i, listing) in listings.iter_mut().enumerate() {
        if let Some(sample) = bank.draw(i) {
            listing.push(sample)?;
            drawn = true;
        }
    }
    Ok(drawn)
}

// Draws round by round until nothing comes.
fn write_rounds<B: Bank>(bank: &mut B, listings: &mut [Listing]) -> Result<(), AllocError> {
    while write_round(bank, listings)? {}
    Ok(())
}

// The lists of a bank, each in the form of its number. They are drawn in rounds, so that each draw stands between
// draws from the others. A round ends with the number past the last, by which nothing comes: what came would be a list too many.
pub(crate) fn drawn_lists<B: Bank>(
    heap: Global,
    bank: &mut B,
    forms: &[Form],
) -> Result<Vec<Listing>, AllocError> {
    let mut listings = Vec::new(heap);
    // i is a list's number, and there may be fewer forms than lists
    for i in 0..bank.count() {
        let form = forms.get(i).copied().unwrap_or(Form::Full);
        listings.push(Listing::new(heap, form))?;
    }
    listings.push(Listing::new(heap, Form::Full))?;
    write_rounds(bank, &mut listings)?;
    listings.pop_if(|past| past.is_empty());
    Ok(listings)
}
