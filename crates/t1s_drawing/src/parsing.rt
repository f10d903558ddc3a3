// How a line of a report is read.
ghost use Rattle.std.specs.Prelude.{◌≡◌};
ghost use Rattle.std.specs.List.{list_all};
ghost use Rattle.t1s_drawing.specs.Lines.{fields_of};
ghost use Rattle.t1s_drawing.specs.ReadLines.{is_plain, is_line_octet, is_kind, small_number, of_frame, heard_in, status_in, alone, told, happening_in, placed, event_in, settled_in, totals_in, offer_in, summary_in, line_in, line_of, is_summary_word};

use crate::fields::Fields;
use crate::report::{Event, Happening, ReportLine};
use t1s_base::read_number;
use t1s_waveform::Heard;

/// The greatest tick, and the greatest number of an offer.
const GREATEST: u64 = 4_294_967_295;

/// A small letter, a digit or a space.
fn is_line_octet(octet: u8) -> bool
    ensures { result ≡ is_line_octet octet }
{
    octet.is_ascii_lowercase() || octet.is_ascii_digit() || octet == b' '
}

/// Whether the line has no other octets than small letters, digits and spaces.
fn is_plain(line: &[u8]) -> bool
    ensures { result ≡ is_plain line.now }
{
    line.iter().all(|octet| is_line_octet(*octet))
}

/// The number that the field is, if it is below 2^32.
pub(crate) fn small_number(field: &[u8]) -> Option<u32>
    ensures { result ≡ small_number field.now }
{
    match read_number(field) {
        Some(number) if number <= GREATEST => Some(number as u32),
        _ => None,
    }
}

/// What happened to the frame of that number, by the word.
fn of_frame(word: &[u8], number: u32) -> Option<Happening>
    ensures { result ≡ of_frame word.now number }
{
    if word == b"taken".as_slice() {
        Some(Happening::Taken(number))
    } else if word == b"full".as_slice() {
        Some(Happening::Full(number))
    } else if word == b"off".as_slice() {
        Some(Happening::Off(number))
    } else if word == b"jam".as_slice() {
        Some(Happening::Jam(number))
    } else if word == b"drop".as_slice() {
        Some(Happening::Drop(number))
    } else if word == b"leave".as_slice() {
        Some(Happening::Leave(number))
    } else {
        None
    }
}

/// The word of a status.
fn status_in(field: &[u8]) -> Option<Happening>
    ensures { result ≡ status_in field.now }
{
    if field == b"ok".as_slice() {
        Some(Happening::InStep)
    } else if field == b"lost".as_slice() {
        Some(Happening::LostStep)
    } else {
        None
    }
}

/// The word of what is heard.
fn heard_in(field: &[u8]) -> Option<Happening>
    ensures { result ≡ heard_in field.now }
{
    if field == b"silence".as_slice() {
        Some(Happening::Hears(Heard::Silence))
    } else if field == b"beacon".as_slice() {
        Some(Happening::Hears(Heard::Beacon))
    } else if field == b"run".as_slice() {
        Some(Happening::Hears(Heard::Run))
    } else if field == b"bare".as_slice() {
        Some(Happening::Hears(Heard::Bare))
    } else if field == b"torn".as_slice() {
        Some(Happening::Hears(Heard::Torn))
    } else if field == b"blur".as_slice() {
        Some(Happening::Hears(Heard::Blur))
    } else {
        None
    }
}

/// Whether the field names a piece that is no good frame.
fn is_kind(field: &[u8]) -> bool
    ensures { result ≡ is_kind field.now }
{
    field == b"badfcs".as_slice()
        || field == b"odd".as_slice()
        || field == b"runt".as_slice()
        || field == b"nosfd".as_slice()
        || field == b"errored".as_slice()
        || field == b"jabber".as_slice()
}

/// What a word says with no field after the node.
fn alone(word: &[u8]) -> Option<Happening>
    ensures { result ≡ alone word.now }
{
    if word == b"beacon".as_slice() {
        Some(Happening::Beacon)
    } else if word == b"commit".as_slice() {
        Some(Happening::Commit)
    } else if word == b"quiet".as_slice() {
        Some(Happening::Quiet)
    } else {
        None
    }
}

/// What a word says with one field after the node.
fn told(word: &[u8], field: &[u8]) -> Option<Happening>
    ensures { result ≡ told word.now field.now }
{
    if word == b"status".as_slice() {
        status_in(field)
    } else if word == b"arrive".as_slice() {
        if is_kind(field) {
            Some(Happening::Bad)
        } else {
            None
        }
    } else if word == b"hears".as_slice() {
        heard_in(field)
    } else {
        match small_number(field) {
            Some(number) => of_frame(word, number),
            None => None,
        }
    }
}

/// What a word says with the fields after the node.
fn happening_in(word: &[u8], mut fields: Fields<'_>) -> Option<Happening>
    ensures { result ≡ happening_in word.now fields.entry }
{
    let Some(field) = fields.next() else {
        return alone(word);
    };
    if fields.next().is_none() {
        return told(word, field);
    }
    if fields.next().is_none() && word == b"arrive".as_slice() && field == b"good".as_slice() {
        Some(Happening::Good)
    } else {
        None
    }
}

/// The event of these parts.
fn placed(tick: Option<u32>, node: Option<u32>, what: Option<Happening>) -> Option<ReportLine>
    ensures { result ≡ placed tick node what }
{
    match (tick, node, what) {
        (Some(tick), Some(node), Some(what)) => {
            Some(ReportLine::Event(Event { tick, node, what }))
        }
        _ => None,
    }
}

/// The line of an event: its tick, its word, the node, and what else there is to tell.
fn event_in(tick: &[u8], mut fields: Fields<'_>) -> Option<ReportLine>
    ensures { result ≡ event_in tick.now fields.entry }
{
    let Some(word) = fields.next() else {
        return None;
    };
    let Some(node) = fields.next() else {
        return None;
    };
    placed(
        small_number(tick),
        small_number(node),
        happening_in(word, fields),
    )
}

/// The line of the tick in which all were in step.
fn settled_in(mut fields: Fields<'_>) -> Option<ReportLine>
    ensures { result ≡ settled_in fields.entry }
{
    let Some(tick) = fields.next() else {
        return None;
    };
    if fields.next().is_some() {
        return None;
    }
    if tick == b"never".as_slice() || small_number(tick).is_some() {
        Some(ReportLine::Settled)
    } else {
        None
    }
}

/// The line of what was counted at a node.
fn totals_in(mut fields: Fields<'_>) -> Option<ReportLine>
    ensures { result ≡ totals_in fields.entry }
{
    let Some(node) = fields.next() else {
        return None;
    };
    match small_number(node) {
        Some(node) => Some(ReportLine::Totals(node)),
        None => None,
    }
}

/// The line of what has become of an offer.
fn offer_in(mut fields: Fields<'_>) -> Option<ReportLine>
    ensures { result ≡ offer_in fields.entry }
{
    let Some(number) = fields.next() else {
        return None;
    };
    match small_number(number) {
        Some(_) => Some(ReportLine::Offer),
        None => None,
    }
}

/// Whether a line of the summary begins with the word.
fn is_summary_word(word: &[u8]) -> bool
    ensures { result ≡ is_summary_word word.now }
{
    word == b"settled".as_slice() || word == b"node".as_slice() || word == b"offer".as_slice()
}

/// A line of the summary, by its first word.
fn summary_in(word: &[u8], fields: Fields<'_>) -> Option<ReportLine>
    ensures { result ≡ summary_in word.now fields.entry }
{
    if word == b"settled".as_slice() {
        settled_in(fields)
    } else if word == b"node".as_slice() {
        totals_in(fields)
    } else {
        offer_in(fields)
    }
}

/// A line of plain octets.
fn line_in(mut fields: Fields<'_>) -> Option<ReportLine>
    ensures { result ≡ line_in fields.entry }
{
    let Some(word) = fields.next() else {
        return None;
    };
    if !is_summary_word(word) {
        event_in(word, fields)
    } else {
        summary_in(word, fields)
    }
}

/// What the line says, if it is one of a report.
pub(crate) fn line_of(line: &[u8]) -> Option<ReportLine>
    ensures { result ≡ line_of line.now }
{
    if is_plain(line) {
        line_in(Fields::of(line))
    } else {
        None
    }
}
