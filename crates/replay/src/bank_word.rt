// bank CHANNELS RATE SOURCE+SOURCE..: the lists of a bank that the sources are joined to.
ghost use Rattle.std.specs.Prelude.{◌≡◌, length};

use crate::formats::FormatNumbers;
use crate::lists::{Form, Listing};
use crate::rounds::drawn_lists;
use crate::sources;
use crate::words::Joined;
use bank::Bank;
use bank::bare::BareBank;
use cases::fault::Fault;
use joining::Visitor;
use joining::seventeen::join_all;
use joining::source_list::SourceList;
use source::Source;
use std::alloc::{AllocError, Global};

// Counts a bank's lists and writes them down, each in the form of its number.
#[derive(Drop)]
struct Lists {
    forms: Vec<Form>,
    count: usize,
    listings: Result<Vec<Listing>, AllocError>,
}

impl Visitor for Lists {
    ghost visited = { λ _ ls _ after. after.count ≡ length ls };

    fn visit<B: Bank>(&mut self, mut bank: B) -> B {
        self.count = bank.count();
        let heap = *self.forms.allocator();
        self.listings = drawn_lists(heap, &mut bank, self.forms.as_slice());
        bank
    }
}

pub(crate) fn bank_answer(heap: Global, fields: &[&str]) -> Result<String, Fault> {
    let [channels, rate, words] = fields else {
        return Err(Fault::WrongFields);
    };
    let numbers = FormatNumbers::read(channels, rate)?;
    let read = sources::sources(heap, words)?;
    let format = numbers.judged()?;
    let mut lists = Lists {
        forms: read.iter().map(|one| one.form).collect(heap)?,
        count: 0,
        listings: Ok(Vec::new(heap)),
    };
    let mut queue = SourceList::new(read);
    let _bank = join_all(BareBank::new(format), &mut queue, &mut lists);
    let count = lists.count;
    let listings = lists.listings?;
    Ok(format!(in heap; "{count} {}", Joined::new(&listings, '+'))?)
}
