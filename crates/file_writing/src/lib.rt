// Writes the records of a yard file in a version, one after the other into a lent buffer.
#![tactic(auto)]

ghost use Rattle.std.specs.Prelude.{◌≡◌, [], ◌∷◌, ◌+◌, ◌*◌, ◌/◌, ◌%◌, ◌≤◌, length, get_or, take, drop};
ghost use Rattle.file_words.specs.Words.{byte, block_size, corner_words};
ghost use Rattle.file_records.specs.Records.{next_at, words_at, rec_at, word_bytes, step_byte, step_bytes, corner_bytes, body_bytes, rec_bytes};
ghost use Rattle.file_records.specs.inner.Asked.{size_in};
ghost use Rattle.file_writing.specs.inner.Written.{Written};

use file_words::{byte_at, corner_words, fill_fields};
use yardfile::plain_words;

// The signed byte that leads from a coordinate to another.
fn step_byte(a: u16, c: u16) -> u8
    ensures { result ≡ step_byte a c }
{
    ((65536 + u32::from(c) - u32::from(a)) % 256) as u8
}

// Writes words in full.
fn write_words(words: &[u16], out: &mut [u8], to: usize) -> usize
    requires { to + 2 * length words.now ≤ length out.old }
    ensures { Written (word_bytes words.now) out.old out.new to result }
{
    let mut at = to;
    for word in words {
        let [low, high] = word.to_le_bytes();
        out[at] = low;
        out[at + 1] = high;
        at += 2;
    }
    at
}

// Writes the words behind the first two by steps.
fn write_steps(words: &[u16], out: &mut [u8], to: usize) -> usize
    requires { (2 ≤ length words.now) × (to + length words.now ≤ length out.old + 2) }
    ensures { Written (step_bytes (get_or words.now 0 0) (get_or words.now 1 0) (drop 2 words.now)) out.old out.new to result }
{
    let mut at = to;
    for i in 2..words.len() {
        let k = i - 2;
        out[at] = step_byte(words[k], words[i]);
        at += 1;
    }
    at
}

// Writes the corners of a block.
fn write_corners(words: &[u16], target: u8, out: &mut [u8], to: usize) -> usize
    requires { to + length (corner_bytes target words.now) ≤ length out.old }
    ensures { Written (corner_bytes target words.now) out.old out.new to result }
{
    if target == 1 {
        return write_words(words, out, to);
    }
    if words.len() < 2 {
        return to;
    }
    let next = write_words(&words[..2], out, to);
    write_steps(words, out, next)
}

// Writes the count and the corners of the block whose count stands at a position.
fn write_block(file: &[u8], at: usize, target: u8, out: &mut [u8], to: usize) -> usize
    requires { (at + block_size (byte file.now 3) (byte file.now at) ≤ length file.now) × (length file.now ≤ 8192)
        × (to + block_size target (byte file.now at) ≤ length out.old) }
    ensures { Written (length (corner_words file.now at) / 2 ∷ corner_bytes target (corner_words file.now at))
        out.old out.new to result }
{
    let count = byte_at(file, at);
    let room = corner_words(file, at);
    out[to] = count;
    write_corners(&room[..2 * usize::from(count)], target, out, to + 1)
}

// Writes the fields of the record at a position.
fn write_body(file: &[u8], at: usize, target: u8, out: &mut [u8], to: usize) -> usize
    requires { (next_at file.now at ≤ length file.now) × (length file.now ≤ 8192)
        × (to + size_in target file.now at ≤ length out.old + 2) }
    ensures { Written (body_bytes target (byte file.now at) (words_at file.now at))
        out.old out.new to result }
{
    let kind = byte_at(file, at);
    if kind == 1 {
        return write_block(file, at + 2, target, out, to);
    }
    let mut room = [0u16; 4];
    let words = &mut room[..plain_words(kind)];
    fill_fields(file, at + 2, words);
    write_words(words, out, to)
}

// Writes the record at a position.
pub fn write_record(file: &[u8], at: usize, target: u8, out: &mut [u8], to: usize) -> usize
    requires { (next_at file.now at ≤ length file.now) × (length file.now ≤ 8192)
        × (to + size_in target file.now at ≤ length out.old) }
    ensures { Written (rec_bytes target (rec_at file.now at)) out.old out.new to result }
{
    out[to] = byte_at(file, at);
    out[to + 1] = byte_at(file, at + 1);
    write_body(file, at, target, out, to + 2)
}

// Writes the header.
pub fn write_head(target: u8, out: &mut [u8])
    requires { 5 ≤ length out.old }
    ensures { take 5 out.new ≡ 89 ∷ 82 ∷ 68 ∷ target ∷ 0 ∷ [] }
{
    out[..5].copy_from_slice(&[b'Y', b'R', b'D', target, 0]);
}
