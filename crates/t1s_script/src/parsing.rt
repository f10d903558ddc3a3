// How one line is parsed, by itself.
ghost use Rattle.std.specs.Prelude.{◌≡◌, ◌≤◌, IfOk};
ghost use Rattle.t1s_script.specs.ParsedLine.{fill_in, is_skipped, line_by_word, line_in, noise_in, offer_in, one_number, parsed_line, three_numbers, three_within, two_numbers, two_within};
ghost use Rattle.t1s_script.specs.Lines.{fields_of};
ghost use Rattle.t1s_script.specs.Ranges.{HasSlot};

use crate::frame_texts::{fill_frame, hex_frame};
use crate::refusals::ScriptReason;
use crate::text::Fields;
use crate::versions::Version;
use crate::words::{Range, ScriptLine, Setting, Word, word_in};
use t1s_base::read_number;

const COMMENT: u8 = b'#';

/// IDs, and places.
const OCTETS: Range = Range {
    least: 0,
    greatest: 255,
};

/// IDs beside that of a `node` line.
const FURTHER_IDS: Range = Range {
    least: 0,
    greatest: 254,
};

/// Lengths of stubs.
const STUBS: Range = Range {
    least: 0,
    greatest: 31,
};

const DRAWS: Range = Range {
    least: 0,
    greatest: 1023,
};

const SEEDS: Range = Range {
    least: 0,
    greatest: 4_294_967_295,
};

/// All numbers that are read.
const NUMBERS: Range = Range {
    least: 0,
    greatest: 9_999_999_999,
};

/// Two numbers in their ranges.
fn two_within(
    ranges: (Range, Range),
    first: Option<u64>,
    second: Option<u64>,
) -> Result<(u64, u64), ScriptReason>
    ensures value { result ≡ two_within ranges.0 ranges.1 first second }
    ensures high { IfOk result (λ numbers. (numbers.0 ≤ ranges.0.greatest) × (numbers.1 ≤ ranges.1.greatest)) }
{
    let first = first.ok_or(ScriptReason::Number)?;
    let second = second.ok_or(ScriptReason::Number)?;
    if ranges.0.has(first) && ranges.1.has(second) {
        Ok((first, second))
    } else {
        Err(ScriptReason::OutOfRange)
    }
}

/// Three numbers in their ranges.
fn three_within(
    ranges: (Range, Range, Range),
    first: Option<u64>,
    second: Option<u64>,
    third: Option<u64>,
) -> Result<(u64, u64, u64), ScriptReason>
    ensures value { result ≡ three_within ranges.0 ranges.1 ranges.2 first second third }
    ensures high { IfOk result (λ numbers. (numbers.0 ≤ ranges.0.greatest) × (numbers.1 ≤ ranges.1.greatest) × (numbers.2 ≤ ranges.2.greatest)) }
{
    let first = first.ok_or(ScriptReason::Number)?;
    let second = second.ok_or(ScriptReason::Number)?;
    let third = third.ok_or(ScriptReason::Number)?;
    if ranges.0.has(first) && ranges.1.has(second) && ranges.2.has(third) {
        Ok((first, second, third))
    } else {
        Err(ScriptReason::OutOfRange)
    }
}

/// The number of a line with one number.
fn one_number(range: Range, mut fields: Fields<'_>) -> Result<u64, ScriptReason>
    ensures value { result ≡ one_number range fields.entry }
    ensures high { IfOk result (λ number. number ≤ range.greatest) }
{
    let number = fields.next().ok_or(ScriptReason::Form)?;
    if fields.next().is_some() {
        return Err(ScriptReason::Form);
    }
    let number = read_number(number).ok_or(ScriptReason::Number)?;
    if range.has(number) {
        Ok(number)
    } else {
        Err(ScriptReason::OutOfRange)
    }
}

/// The numbers of a line with two numbers.
fn two_numbers(ranges: (Range, Range), mut fields: Fields<'_>) -> Result<(u64, u64), ScriptReason>
    ensures value { result ≡ two_numbers ranges.0 ranges.1 fields.entry }
    ensures high { IfOk result (λ numbers. (numbers.0 ≤ ranges.0.greatest) × (numbers.1 ≤ ranges.1.greatest)) }
{
    let first = fields.next().ok_or(ScriptReason::Form)?;
    let second = fields.next().ok_or(ScriptReason::Form)?;
    if fields.next().is_some() {
        return Err(ScriptReason::Form);
    }
    two_within(ranges, read_number(first), read_number(second))
}

/// The numbers of a line with three numbers.
fn three_numbers(
    ranges: (Range, Range, Range),
    mut fields: Fields<'_>,
) -> Result<(u64, u64, u64), ScriptReason>
    ensures value { result ≡ three_numbers ranges.0 ranges.1 ranges.2 fields.entry }
    ensures high { IfOk result (λ numbers. (numbers.0 ≤ ranges.0.greatest) × (numbers.1 ≤ ranges.1.greatest) × (numbers.2 ≤ ranges.2.greatest)) }
{
    let first = fields.next().ok_or(ScriptReason::Form)?;
    let second = fields.next().ok_or(ScriptReason::Form)?;
    let third = fields.next().ok_or(ScriptReason::Form)?;
    if fields.next().is_some() {
        return Err(ScriptReason::Form);
    }
    three_within(
        ranges,
        read_number(first),
        read_number(second),
        read_number(third),
    )
}

/// What the fields after `offer` say.
fn read_offer(version: Version, mut fields: Fields<'_>) -> Result<ScriptLine, ScriptReason>
    ensures value { result ≡ offer_in version fields.entry }
    ensures slot { IfOk result HasSlot }
{
    let tick = fields.next().ok_or(ScriptReason::Form)?;
    let no = fields.next().ok_or(ScriptReason::Form)?;
    let octets = fields.next().ok_or(ScriptReason::Form)?;
    if fields.next().is_some() {
        return Err(ScriptReason::Form);
    }
    let (tick, no) = two_within(
        (version.ticks(), version.nodes()),
        read_number(tick),
        read_number(no),
    )?;
    Ok(ScriptLine::Offer {
        tick,
        no: no as u8,
        frame: hex_frame(octets)?,
    })
}

/// What the fields after `fill` say.
fn read_fill(version: Version, mut fields: Fields<'_>) -> Result<ScriptLine, ScriptReason>
    ensures value { result ≡ fill_in version fields.entry }
    ensures slot { IfOk result HasSlot }
{
    let tick = fields.next().ok_or(ScriptReason::Form)?;
    let no = fields.next().ok_or(ScriptReason::Form)?;
    let count = fields.next().ok_or(ScriptReason::Form)?;
    let octet = fields.next().ok_or(ScriptReason::Form)?;
    if fields.next().is_some() {
        return Err(ScriptReason::Form);
    }
    let (tick, no, count) = three_within(
        (version.ticks(), version.nodes(), NUMBERS),
        read_number(tick),
        read_number(no),
        read_number(count),
    )?;
    Ok(ScriptLine::Offer {
        tick,
        no: no as u8,
        frame: fill_frame(count, octet)?,
    })
}

/// What the fields after `noise` say: it ends above the tick at which it begins.
fn read_noise(version: Version, fields: Fields<'_>) -> Result<ScriptLine, ScriptReason>
    ensures value { result ≡ noise_in version fields.entry }
    ensures slot { IfOk result HasSlot }
{
    let (tick, until) = two_numbers((version.ticks(), version.ticks()), fields)?;
    if tick < until {
        Ok(ScriptLine::Noise { tick, until })
    } else {
        Err(ScriptReason::OutOfRange)
    }
}

/// What the fields after the word say, a row for each word.
fn read_fields(
    version: Version,
    word: Option<Word>,
    fields: Fields<'_>,
) -> Result<ScriptLine, ScriptReason>
    ensures value { result ≡ line_by_word version word fields.entry }
    ensures slot { IfOk result HasSlot }
{
    Ok(match word.ok_or(ScriptReason::UnknownWord)? {
        Word::Set(setting) => ScriptLine::Set(setting, one_number(setting.range(), fields)? as u8),
        Word::Seed => ScriptLine::Seed(one_number(SEEDS, fields)?),
        Word::Node => {
            let (no, id, place) = three_numbers((version.nodes(), OCTETS, OCTETS), fields)?;
            ScriptLine::Node {
                no: no as u8,
                id: id as u8,
                place: place as u8,
            }
        }
        Word::Also => {
            let (no, id) = two_numbers((version.nodes(), FURTHER_IDS), fields)?;
            ScriptLine::Also {
                no: no as u8,
                id: id as u8,
            }
        }
        Word::Stub => {
            let (no, stub) = two_numbers((version.nodes(), STUBS), fields)?;
            ScriptLine::Stub {
                no: no as u8,
                stub: stub as u8,
            }
        }
        Word::Late => {
            let (no, start) = two_numbers((version.nodes(), version.ticks()), fields)?;
            ScriptLine::Late {
                no: no as u8,
                start,
            }
        }
        Word::ToNode => {
            let (no, to) = two_numbers((version.nodes(), Setting::To.range()), fields)?;
            ScriptLine::ToNode {
                no: no as u8,
                to: to as u8,
            }
        }
        Word::Draw => {
            let (no, draw) = two_numbers((version.nodes(), DRAWS), fields)?;
            ScriptLine::Draw {
                no: no as u8,
                draw: draw as u16,
            }
        }
        Word::Offer => read_offer(version, fields)?,
        Word::Fill => read_fill(version, fields)?,
        Word::Noise => read_noise(version, fields)?,
        Word::End => ScriptLine::End(one_number(version.ends(), fields)?),
    })
}

/// What a line that isn't skipped says.
fn read_words(version: Version, line: &[u8]) -> Result<ScriptLine, ScriptReason>
    ensures value { result ≡ line_in version (fields_of line.now) }
    ensures slot { IfOk result HasSlot }
{
    let mut fields = Fields::of(line);
    let word = fields.next().ok_or(ScriptReason::UnknownWord)?;
    read_fields(version, word_in(version, word), fields)
}

/// Whether the line is skipped.
fn is_skipped(line: &[u8]) -> bool
    ensures { result ≡ is_skipped line.now }
{
    matches!(line, [COMMENT, ..])
}

/// What a line after the first says by itself, in a script of that version.
pub fn read_line(version: Version, line: &[u8]) -> Result<ScriptLine, ScriptReason>
    ensures value { result ≡ parsed_line version line.now }
    ensures slot { IfOk result HasSlot }
{
    if is_skipped(line) {
        Ok(ScriptLine::Skipped)
    } else {
        read_words(version, line)
    }
}
