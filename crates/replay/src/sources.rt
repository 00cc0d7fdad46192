// Sources, read from a word: TOTAL;REST;SPAN;SPAN.. with REST k/C/R or o/C/R and SPAN k/C/R/LIST or o/C/R/LIST.
ghost use Rattle.span_list.specs.SpanLists.{list_meaning};

use crate::formats::FormatNumbers;
use crate::lists::{Form, SampleList};
use crate::{lists, words};
use cases::fault::Fault;
use cases::reading;
use common::duration::Duration;
use common::format::{ChannelCount, Format, SampleRate};
use source::Source;
use span_list::known_span::KnownSpan;
use span_list::open_span::OpenSpan;
use span_list::{Rest, SpanList};
use std::alloc::Global;

// A source, and how an answer writes what is made of it.
#[derive(Drop)]
pub(crate) struct SourceRead {
    pub(crate) source: SpanList,
    pub(crate) form: Form,
}

// Whether the length of a span is known or open.
#[derive(Clone, Copy, PartialEq)]
enum Kind {
    Known,
    Open,
}

impl Kind {
    fn read(word: &str) -> Result<Kind, Fault> {
        match word {
            "k" => Ok(Kind::Known),
            "o" => Ok(Kind::Open),
            _ => Err(Fault::NotASource),
        }
    }
}

#[derive(Drop)]
struct Span {
    kind: Kind,
    format: Format,
    list: SampleList,
}

impl Span {
    fn read(heap: Global, word: &str) -> Result<Span, Fault> {
        let fields: Vec<&str> = word.split('/').collect(heap)?;
        let [kind, channels, rate, list] = fields.as_slice() else {
            return Err(Fault::NotASource);
        };
        let span = Span {
            kind: Kind::read(kind)?,
            format: format(channels, rate)?,
            list: lists::list(heap, list)?,
        };
        if span.list.samples.is_empty() {
            return Err(Fault::EmptySpan);
        }
        Ok(span)
    }
}

fn format(channels: &str, rate: &str) -> Result<Format, Fault> {
    let numbers = FormatNumbers::read(channels, rate)?;
    numbers.judged().map_err(|_| Fault::NoSuchFormat)
}

// What a source rests at.
fn resting(heap: Global, word: &str) -> Result<Rest, Fault> {
    let fields: Vec<&str> = word.split('/').collect(heap)?;
    let [kind, channels, rate] = fields.as_slice() else {
        return Err(Fault::NotASource);
    };
    let known = Kind::read(kind)? == Kind::Known;
    let format = format(channels, rate)?;
    Ok(Rest { format, known })
}

// `none`, or nanoseconds.
fn duration(word: &str) -> Result<Option<Duration>, Fault> {
    if word == "none" {
        return Ok(None);
    }
    Ok(Some(Duration::from_nanos(reading::number(word)?)))
}

pub(crate) fn source(heap: Global, word: &str) -> Result<SourceRead, Fault> {
    let parts: Vec<&str> = word.split(';').collect(heap)?;
    let [total, rest, spans @ ..] = parts.as_slice() else {
        return Err(Fault::NotASource);
    };
    let duration = duration(total)?;
    let rest = resting(heap, rest)?;
    let mut known = Vec::new(heap);
    let mut open = None;
    let mut form = Form::Full;
    for span in spans {
        if open.is_some() {
            return Err(Fault::OpenSpanNotLast);
        }
        let Span { kind, format, list } = Span::read(heap, span)?;
        form = form.or(list.form);
        match kind {
            Kind::Known => {
                known.push(KnownSpan::new(format, list.samples).map_err(|_| Fault::EmptySpan)?)?;
            }
            Kind::Open => {
                open = OpenSpan::new(format, list.samples);
            }
        }
    }
    let source = SpanList::from_spans(known, open, rest, duration);
    Ok(SourceRead { source, form })
}

// `-` for none, or sources joined by plus signs.
pub(crate) fn sources(heap: Global, word: &str) -> Result<Vec<SourceRead>, Fault> {
    words::parts(heap, word, '+', |part| source(heap, part))
}

// What was read is the source itself, so that a list of them is handed on as it is and none is copied to another list.
impl Source for SourceRead {
    ghost meaning = { λ r. list_meaning r.source };

    fn channels(&self) -> ChannelCount {
        self.source.channels()
    }

    fn sample_rate(&self) -> SampleRate {
        self.source.sample_rate()
    }

    fn current_span_len(&self) -> Option<usize> {
        self.source.current_span_len()
    }

    fn total_duration(&self) -> Option<Duration> {
        self.source.total_duration()
    }

    fn next(&mut self) -> Option<f32> {
        self.source.next()
    }
}
