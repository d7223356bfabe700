// Turns one version of yard files into the other.
#![tactic(auto)]

ghost use Rattle.std.specs.Prelude.{◌≡◌, ◌++◌, true, ◌-◌, ◌≤◌, length, take, replicate};
ghost use Rattle.file_records.specs.Conversions.{converted};
ghost use Rattle.file_records.specs.inner.Asked.{everyone};
ghost use Rattle.convert.specs.Convert.{Converted, ConvertedInto, size_of};
ghost use Rattle.convert.specs.inner.Put.{SizePut};
ghost use Rattle.refusals.specs.Numbers.{answer_of};

use file_questions::first_failing;
use file_writing::{write_head, write_record};
use refusals::Refusal;
use yardfile::body_size;

// Writes the whole result.
fn write_file(file: &[u8], target: u8, out: &mut [u8]) -> usize
    requires { (length file.now ≤ 8192) × (5 ≤ length file.now) × (everyone 10 file.now ≡ true)
        × (length (converted target file.now) ≤ length out.old) }
    ensures { (result ≡ length (converted target file.now)) × (take result out.new ≡ converted target file.now) }
{
    write_head(target, out);
    let mut at: usize = 5;
    let mut to: usize = 5;
    while at < file.len() {
        to = write_record(file, at, target, out, to);
        at = at + 2 + body_size(file, at);
    }
    to
}

// Turns a file of the source version into one of the target version: answers how many bytes the result has.
fn convert(file: &[u8], source: u8, target: u8, buffer: &mut [u8]) -> Result<usize, Refusal>
    ensures { Converted source target file.now buffer.old buffer.new (answer_of result) (size_of result) }
{
    if buffer.len() != 8192 {
        return Err(Refusal::WrongLengths);
    }
    first_failing(file, source, target)?;
    let size = write_file(file, target, buffer);
    buffer[size..].fill(0);
    Ok(size)
}

// Turns a file of version 1 into one of version 2.
pub fn shorten(file: &[u8], buffer: &mut [u8]) -> Result<usize, Refusal>
    ensures { Converted 1 2 file.now buffer.old buffer.new (answer_of result) (size_of result) }
{
    convert(file, 1, 2, buffer)
}

// Turns a file of version 2 into one of version 1.
pub fn lengthen(file: &[u8], buffer: &mut [u8]) -> Result<usize, Refusal>
    ensures { Converted 2 1 file.now buffer.old buffer.new (answer_of result) (size_of result) }
{
    convert(file, 2, 1, buffer)
}

// Stores the length of a result, or 0 where the conversion is refused, unless a list had not its size.
fn put_size(words: &mut [u32], outcome: Result<usize, Refusal>) -> Result<(), Refusal>
    requires { (length words.old ≡ 1) × (size_of outcome ≤ 8192) }
    ensures { (answer_of result ≡ answer_of outcome) × SizePut (answer_of outcome) (size_of outcome) words.old words.new }
{
    match outcome {
        Ok(size) => {
            words[0] = size as u32;
            Ok(())
        }
        Err(Refusal::WrongLengths) => Err(Refusal::WrongLengths),
        Err(refusal) => {
            words[0] = 0;
            Err(refusal)
        }
    }
}

// Shortens, and stores the length of the result.
pub fn shorten_into(file: &[u8], buffer: &mut [u8], words: &mut [u32]) -> Result<(), Refusal>
    ensures { ConvertedInto 1 2 file.now buffer.old buffer.new words.old words.new (answer_of result) }
{
    if words.len() != 1 {
        return Err(Refusal::WrongLengths);
    }
    let outcome = shorten(file, buffer);
    put_size(words, outcome)
}

// Lengthens, and stores the length of the result.
pub fn lengthen_into(file: &[u8], buffer: &mut [u8], words: &mut [u32]) -> Result<(), Refusal>
    ensures { ConvertedInto 2 1 file.now buffer.old buffer.new words.old words.new (answer_of result) }
{
    if words.len() != 1 {
        return Err(Refusal::WrongLengths);
    }
    let outcome = lengthen(file, buffer);
    put_size(words, outcome)
}
