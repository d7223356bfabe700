// The questions of a conversion, each put to all records of a yard file before the next.
#![tactic(auto)]

ghost use Rattle.std.specs.Prelude.{◌≡◌, true, ◌||◌, ◌<◌, ◌≤◌, eqb, length};
ghost use Rattle.file_records.specs.Records.{next_at};
ghost use Rattle.file_records.specs.Conversions.{step_near, near, converted, answer};
ghost use Rattle.file_records.specs.inner.Asked.{asked, everyone, size_in};
ghost use Rattle.refusals.specs.Numbers.{answer_of};
ghost use Rattle.file_questions.specs.inner.Questions.{number_asked};

use file_words::{block_size, byte_at, corners_in, inside};
use refusals::Refusal;
use yardfile::{body_size, head_right, record_whole};

// A question that is put to each record.
#[derive(Clone, Copy, Debug, PartialEq, Eq)]
enum Question {
    Whole,
    Near,
    Inside,
}

// Whether the step from a coordinate to another is from -128 to 127.
fn step_near(a: u16, c: u16) -> bool
    ensures { result ≡ step_near a c }
{
    u32::from(c) <= u32::from(a) + 127 && u32::from(a) <= u32::from(c) + 128
}

// Whether each step is from -128 to 127.
fn near(words: &[u16]) -> bool
    ensures { result ≡ near words.now }
{
    for i in 2..words.len() {
        if !step_near(words[i - 2], words[i]) {
            return false;
        }
    }
    true
}

// The question, to the record at a position.
fn passes(file: &[u8], at: usize, question: Question) -> bool
    requires { (length file.now ≤ 8192) × (at < length file.now) × ((number_asked question ≡ 10 → ⊥) → next_at file.now at ≤ length file.now) }
    ensures { result ≡ asked (number_asked question) file.now at }
{
    if let Question::Whole = question {
        return record_whole(file, at);
    }
    if byte_at(file, at) != 1 {
        return true;
    }
    let mut room = [0u16; 510];
    let words = corners_in(file, at + 2, &mut room);
    if let Question::Near = question {
        return near(words);
    }
    inside(words)
}

// The question, to all records.
fn every_one(file: &[u8], question: Question) -> bool
    requires { (length file.now ≤ 8192) × (5 ≤ length file.now) × ((number_asked question ≡ 10 → ⊥) → everyone 10 file.now ≡ true) }
    ensures { result ≡ everyone (number_asked question) file.now }
{
    let mut at: usize = 5;
    while at < file.len() {
        if !passes(file, at, question) {
            return false;
        }
        at = at + 2 + body_size(file, at);
    }
    true
}

// Question 21, which only version 2 asks.
fn near_enough(file: &[u8], target: u8) -> bool
    requires { (length file.now ≤ 8192) × (5 ≤ length file.now) × (everyone 10 file.now ≡ true) }
    ensures { result ≡ (eqb target 1 || everyone 21 file.now) }
{
    target == 1 || every_one(file, Question::Near)
}

// How many bytes the record at a position has in a version.
fn size_in(file: &[u8], at: usize, target: u8) -> usize
    requires { (length file.now ≤ 8192) × (at < length file.now) }
    ensures { (result ≡ size_in target file.now at) × (result ≤ 1023) }
{
    if file[at] == 1 {
        2 + block_size(target, byte_at(file, at + 2))
    } else {
        2 + body_size(file, at)
    }
}

// How many bytes the file has in a version.
fn total_size(file: &[u8], target: u8) -> usize
    requires { (length file.now ≤ 8192) × (5 ≤ length file.now) × (everyone 10 file.now ≡ true) }
    ensures { result ≡ length (converted target file.now) }
{
    let mut at: usize = 5;
    let mut total: usize = 5;
    while at < file.len() {
        total += size_in(file, at, target);
        at = at + 2 + body_size(file, at);
    }
    total
}

// The first question that fails.
pub fn first_failing(file: &[u8], source: u8, target: u8) -> Result<(), Refusal>
    ensures { answer_of result ≡ answer source target file.now }
{
    if !head_right(file) {
        return Err(Refusal::NoYardFile);
    }
    if byte_at(file, 3) != source {
        return Err(Refusal::NoYardFile);
    }
    if !every_one(file, Question::Whole) {
        return Err(Refusal::BrokenRecord);
    }
    if !near_enough(file, target) {
        return Err(Refusal::StepTooLong);
    }
    if !every_one(file, Question::Inside) {
        return Err(Refusal::CornerOffTheYard);
    }
    if 8192 < total_size(file, target) {
        return Err(Refusal::NoYardFile);
    }
    Ok(())
}
