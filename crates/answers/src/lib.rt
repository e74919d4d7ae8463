// The lines in which srpcalls prints answers (docs/SRPCALLS.md), put behind a text. None of the public functions asks anything of its
// arguments: what does not fit is left out.
#![tactic(auto)]

ghost use Rattle.std.specs.Prelude.{◌≡◌, ℕ, List, length, drop, ◌++◌};
ghost use Rattle.model.specs.Numbers.{answer_number};
ghost use Rattle.console.specs.Texts.{Puts};
ghost use Rattle.reports.specs.Shown.{answered};
ghost use Rattle.why.specs.Shown.{why_answered};
ghost use Rattle.answers.specs.Sums.{adler32, filled};
ghost use Rattle.answers.specs.Parts.{report_of, why_of};
ghost use Rattle.answers.specs.Lines.{numbers_text, octets_text, kept_text, buffer_text, write_text, step_text, written_text, reported_text, explained_text, sum_text};

use bridge::Wrote;
use columns::Step;
use console::Text;
use model::refusal::Refusal;
use reports::Reported;
use why::Why;

// What the buffer of a write or a why is filled with before the call.
pub const FILLING: u8 = 0xA5;

// The longest such buffer.
pub const BUFFER: usize = 2048;

// It, filled. The promise gives only the length, which lending the array as a slice needs.
pub fn filled() -> [u8; BUFFER]
    ensures { 2048 ≡ length result }
{
    [FILLING; BUFFER]
}

// A word and numbers in decimal behind it, a space before each.
pub fn put_numbers(text: &mut Text<'_>, word: &[u8], numbers: &[u64])
    ensures { Puts text.old (numbers_text word.now numbers.now) text.new }
{
    text.put(word);
    for number in numbers {
        text.put_number(*number);
    }
}

// A space and octets; nothing where there are none.
fn put_some(text: &mut Text<'_>, octets: &[u8])
    ensures { Puts text.old (octets_text octets.now) text.new }
{
    if !octets.is_empty() {
        text.put(b" ");
        text.put_octets(octets);
    }
}

// The line of a word and octets.
pub fn put_octets(text: &mut Text<'_>, word: &[u8], octets: &[u8])
    ensures { Puts text.old (word.now ++ octets_text octets.now) text.new }
{
    text.put(word);
    put_some(text, octets);
}

// Whether every octet is as it was filled.
fn is_kept(octets: &[u8]) -> bool
    ensures { result ≡ filled octets.now }
{
    octets.iter().all(|octet| *octet == FILLING)
}

fn put_kept(text: &mut Text<'_>, kept: bool)
    ensures { Puts text.old (kept_text kept) text.new }
{
    if kept {
        text.put(b" kept");
    } else {
        text.put(b" spoiled");
    }
}

// Whether a buffer is kept behind so many octets, and these.
// The length is the call's answer, which may be above the buffer's, so both are handed in.
fn put_buffer(text: &mut Text<'_>, length: usize, buffer: &[u8])
    ensures { Puts text.old (buffer_text length buffer.now) text.new }
{
    let (told, rest) = buffer.split_at(length.min(buffer.len()));
    put_kept(text, is_kept(rest));
    put_some(text, told);
}

// The number that a call gives back.
fn number_of<T>(answer: &Result<T, Refusal>) -> u8
    ensures { result ≡ answer_number answer.now }
{
    match answer {
        Ok(_) => 0,
        Err(refusal) => *refusal as u8,
    }
}

// The line of a write, of any number and any parts beside it.
pub fn put_write(text: &mut Text<'_>, number: u8, wrote: Wrote, buffer: &[u8])
    ensures { Puts text.old (write_text number wrote.length wrote.next buffer.now) text.new }
{
    let numbers = [number as u64, wrote.length as u64, wrote.next as u64];
    put_numbers(text, b"write", &numbers);
    put_buffer(text, wrote.length, buffer);
}

// The line of what a write answers.
pub fn put_written(text: &mut Text<'_>, answer: Result<Wrote, Refusal>, buffer: &[u8])
    ensures { Puts text.old (written_text answer buffer.now) text.new }
{
    let number = number_of(&answer);
    put_write(text, number, answer.unwrap_or_default(), buffer);
}

// The line of a report, of any number and any parts beside it: the streams held, the port's class totals and limits, and the stream at
// the place.
pub fn put_report(text: &mut Text<'_>, number: u8, report: Reported)
    ensures { Puts text.old (reported_text (report_of number report)) text.new }
{
    let a = report.port.a;
    let b = report.port.b;
    let count = report.count as u64;
    let numbers = [number as u64, count, a.total, a.limit, b.total, b.limit];
    put_numbers(text, b"report", &numbers);
    text.put(b" ");
    text.put_id(report.stream.id);
    console::put_shown(text, report.stream);
}

// The line of what a report answers.
pub fn put_reported(text: &mut Text<'_>, answer: Result<Reported, Refusal>)
    ensures { Puts text.old (reported_text (answered answer)) text.new }
{
    let number = number_of(&answer);
    put_report(text, number, answer.unwrap_or_default());
}

// What the line of a why says between its number and its list: the step or none, how many streams are listed, the limit in force and
// the shortfall.
#[derive(Clone, Copy, Default)]
pub struct WhyParts {
    pub step: Option<Step>,
    pub count: usize,
    pub limit: u64,
    pub shortfall: u64,
}

// The letter of the deciding step, or none, and numbers behind it.
fn put_step(text: &mut Text<'_>, letter: u8, numbers: &[u64])
    ensures { Puts text.old (numbers_text (step_text letter) numbers.now) text.new }
{
    if letter == 0 {
        return put_numbers(text, b" none", numbers);
    }
    put_numbers(text, &[b' ', letter], numbers);
}

// The line of a why, of any number and any parts beside it: its list is of no more than 63 streams.
pub fn put_why(text: &mut Text<'_>, number: u8, why: WhyParts, buffer: &[u8])
    ensures { Puts text.old (explained_text (why_of number why buffer.now)) text.new }
{
    let numbers = [why.count as u64, why.limit, why.shortfall];
    put_numbers(text, b"why", &[number as u64]);
    put_step(text, why::letter(why.step), &numbers);
    put_buffer(text, why.count.min(63) * 16, buffer);
}

// The parts of what a why answers.
fn parts_of(answer: Result<Why, Refusal>) -> WhyParts
    ensures { (buffer : List ℕ) → why_of (answer_number answer) result buffer ≡ why_answered answer buffer }
{
    match answer {
        Ok(why) => WhyParts {
            step: Some(why.step),
            count: why.count,
            limit: why.limit,
            shortfall: why.shortfall,
        },
        Err(_) => WhyParts::default(),
    }
}

// The line of what a why answers.
pub fn put_explained(text: &mut Text<'_>, answer: Result<Why, Refusal>, buffer: &[u8])
    ensures { Puts text.old (explained_text (why_answered answer buffer.now)) text.new }
{
    let number = number_of(&answer);
    put_why(text, number, parts_of(answer), buffer);
}

// Adler-32 (RFC 1950).
fn adler(octets: &[u8]) -> u32
    ensures { result ≡ adler32 octets.now }
{
    let mut a: u32 = 1;
    let mut b: u32 = 0;
    for octet in octets {
        a = (a + *octet as u32) % 65521;
        b = (b + a) % 65521;
    }
    b * 65536 + a
}

// The line of a table's sum.
pub fn put_sum(text: &mut Text<'_>, table: &[u8])
    ensures { Puts text.old (sum_text table.now) text.new }
{
    put_octets(text, b"table", &adler(table).to_be_bytes());
}
