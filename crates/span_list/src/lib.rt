// A source of any list of spans, held in memory: the model for a source of your own.
#![tactic(auto)]

pub mod known_span;
pub mod open_span;

ghost use Rattle.std.specs.Prelude.{◌<◌, slice_index_or, length, vec_len, ◌≡◌};
ghost use Rattle.std.specs.Option.{ForSome};
ghost use Rattle.span_list.specs.declared.known_span.KnownSpan.{KnownSpan as Known};
ghost use Rattle.source.specs.Meanings.{format_now};

use crate::known_span::KnownSpan;
use crate::open_span::OpenSpan;
use common::duration::Duration;
use common::format::{ChannelCount, Format, SampleRate};
use source::Source;
use std::collections::VecDeque;

// What a source answers once its spans are gone: a format in either case, and a span length of 0 if it is known.
#[derive(Clone, Copy, Debug, PartialEq, Eq)]
pub struct Rest {
    pub format: Format,
    pub known: bool,
}

// The known spans that are left, then an open one if there is one; a position in the first of them, which stays from call to call; and what the source rests at and how long it lasts.
#[derive(Drop)]
pub struct SpanList {
    known: VecDeque<KnownSpan>,
    open: Option<OpenSpan>,
    rest: Rest,
    duration: Option<Duration>,
    pos: usize,
    ghost inside: { ((d : Known) → 0 < length known.items → pos < vec_len (slice_index_or known.items 0 d).samples) },
    ghost inside_open: { length known.items ≡ 0 → ForSome «open» (λ o. pos < vec_len o.samples) },
}

impl SpanList {
    ghost use Rattle.span_list.specs.SpanLists.{list_meaning, list_of, list_of_spans};

    // Known spans in order, and then an open one told by its format and its samples, of which there is none where it has no samples;
    // what the source rests at is told by a format and a flag.
    pub fn new(
        known: Vec<KnownSpan>,
        open_format: Format,
        open: Vec<f32>,
        rests_at: Format,
        rests_known: bool,
        duration: Option<Duration>,
    ) -> SpanList
        ensures answer { list_meaning result ≡ list_of known.items open_format «open».items rests_at rests_known duration }
    {
        let rest = Rest {
            format: rests_at,
            known: rests_known,
        };
        SpanList::from_spans(known, OpenSpan::new(open_format, open), rest, duration)
    }

    // The same of spans that are made, and of what the source rests at.
    pub fn from_spans(
        known: Vec<KnownSpan>,
        open: Option<OpenSpan>,
        rest: Rest,
        duration: Option<Duration>,
    ) -> SpanList
        ensures answer { list_meaning result ≡ list_of_spans known.items «open» rest duration }
    {
        SpanList {
            known: VecDeque::from(known),
            open,
            rest,
            duration,
            pos: 0,
        }
    }

    fn format(&self) -> Format
        ensures answer { result ≡ format_now (list_meaning self.now) }
    {
        if let Some(span) = self.known.front() {
            return span.format;
        }
        match &self.open {
            Some(open) => open.format,
            None => self.rest.format,
        }
    }
}

impl Source for SpanList {
    ghost use Rattle.span_list.specs.SpanLists.{list_meaning};

    ghost meaning = { list_meaning };

    fn channels(&self) -> ChannelCount {
        self.format().channels
    }

    fn sample_rate(&self) -> SampleRate {
        self.format().rate
    }

    fn current_span_len(&self) -> Option<usize> {
        if let Some(span) = self.known.front() {
            return Some(span.samples.len() - self.pos);
        }
        match self.open {
            None if self.rest.known => Some(0),
            _ => None,
        }
    }

    fn total_duration(&self) -> Option<Duration> {
        self.duration
    }

    fn next(&mut self) -> Option<f32> {
        if let Some(span) = self.known.front() {
            let sample = span.samples[self.pos];
            let length = span.samples.len();
            self.pos += 1;
            if self.pos == length {
                self.pos = 0;
                let _ = self.known.pop_front();
            }
            return Some(sample);
        }
        let open = self.open.as_ref()?;
        let sample = open.samples[self.pos];
        let length = open.samples.len();
        self.pos += 1;
        if self.pos == length {
            self.open = None;
        }
        Some(sample)
    }
}
