// Words made of parts with a mark between them, `-` where there are none.
use cases::fault::Fault;
use std::alloc::Global;
use std::fmt;

// The parts of a word, each read by itself.
pub(crate) fn parts<T: Drop, F: Fn(&str) -> Result<T, Fault>>(
    heap: Global,
    word: &str,
    mark: char,
    read: F,
) -> Result<Vec<T>, Fault>
    requires { F.IsAlwaysCallable read }
{
    let mut all = Vec::new(heap);
    if word != "-" {
        for part in word.split(mark) {
            all.push(read(part)?)?;
        }
    }
    Ok(all)
}

// Parts as they are written in one word.
#[derive(Drop)]
pub(crate) struct Joined<'a, T> {
    parts: &'a [T],
    mark: char,
}

impl<T> Joined<'_, T> {
    pub(crate) fn new(parts: &[T], mark: char) -> Joined<'_, T> {
        Joined { parts, mark }
    }
}

impl<T: fmt::Display> fmt::Display for Joined<'_, T> {
    fn fmt<W: fmt::Write>(&self, f: &mut fmt::Formatter<W>) -> fmt::Result {
        let [first, others @ ..] = self.parts else {
            return f.write_str("-");
        };
        write!(f, "{first}")?;
        let mark = self.mark;
        for part in others {
            write!(f, "{mark}{part}")?;
        }
        Ok(())
    }
}
