// The reader of yard files, versions 1 and 2.
#![tactic(auto)]

ghost use Rattle.std.specs.Prelude.{◌≡◌, ◌+◌, ◌<◌, ◌≤◌, length};
ghost use Rattle.yardfile.specs.File.{kind_byte, kind_of, kind_at, head_right, plain_words, body_size, record_whole, corners_right, item_at, read_at};
ghost use Rattle.file_words.specs.Words.{byte};

use file_words::{block_size, byte_at, corners_in, inside};
use refusals::Refusal;

// What a record asks for, in the order of their bytes.
#[derive(Clone, Copy, Debug, PartialEq, Eq)]
pub enum Kind {
    AddBlock,
    RemoveBlock,
    MoveBlock,
    AddRun,
    RemoveRun,
    MoveRun,
    SetCharge,
}

impl Kind {
    // The byte that says it in a file.
    pub fn byte(self) -> u8
        ensures { result ≡ kind_byte self }
    {
        match self {
            Kind::AddBlock => 1,
            Kind::RemoveBlock => 2,
            Kind::MoveBlock => 3,
            Kind::AddRun => 4,
            Kind::RemoveRun => 5,
            Kind::MoveRun => 6,
            Kind::SetCharge => 7,
        }
    }
}

impl TryFrom<u8> for Kind {
    type Error = Refusal;

    ghost try_from_gives = { λ b r. r ≡ kind_at b };

    #[tactic(auto, unfolding(crate::specs::File::kind_at, crate::specs::File::kind_of))]
    fn try_from(value: u8) -> Result<Kind, Refusal> {
        match value {
            1 => Ok(Kind::AddBlock),
            2 => Ok(Kind::RemoveBlock),
            3 => Ok(Kind::MoveBlock),
            4 => Ok(Kind::AddRun),
            5 => Ok(Kind::RemoveRun),
            6 => Ok(Kind::MoveRun),
            7 => Ok(Kind::SetCharge),
            _ => Err(Refusal::BrokenRecord),
        }
    }
}

// A record of a yard file: its kind, its number, where its fields start, and the position after it.
#[derive(Clone, Copy, Debug, PartialEq, Eq)]
pub struct Item {
    pub kind: Kind,
    pub number: u8,
    pub fields: usize,
    pub next: usize,
}

// Question 9.
#[tactic(auto, unfolding(crate::specs::File::head_right))]
pub fn head_right(file: &[u8]) -> bool
    ensures { result ≡ head_right file.now }
{
    5 <= file.len()
        && file.len() <= 8192
        && file[0] == b'Y'
        && file[1] == b'R'
        && file[2] == b'D'
        && 1 <= file[3]
        && file[3] <= 2
        && file[4] == 0
}

// How many fields a record has that adds no block.
#[tactic(auto, unfolding(crate::specs::File::plain_words))]
pub fn plain_words(kind: u8) -> usize
    ensures { (result ≡ plain_words kind) × (result ≤ 4) }
{
    match kind {
        3 => 2,
        4 | 6 => 4,
        7 => 1,
        _ => 0,
    }
}

// How many bytes follow the kind and the number of the record at a position.
pub fn body_size(file: &[u8], at: usize) -> usize
    requires { (length file.now ≤ 8192) × (at < length file.now) }
    ensures { (result ≡ body_size file.now at) × (result ≤ 1021) }
{
    let kind = file[at];
    if kind == 1 {
        return block_size(byte_at(file, 3), byte_at(file, at + 2));
    }
    2 * plain_words(kind)
}

// Question 10 of the record at a position short of the end.
pub fn record_whole(file: &[u8], at: usize) -> bool
    requires { (length file.now ≤ 8192) × (at < length file.now) }
    ensures { result ≡ record_whole file.now at }
{
    let kind = file[at];
    if kind < 1 || 7 < kind {
        return false;
    }
    at + 2 + body_size(file, at) <= file.len()
}

// Question 22 of the whole record at a position.
fn corners_right(file: &[u8], at: usize) -> bool
    requires { (at + 2 + body_size file.now at ≤ length file.now) × (length file.now ≤ 8192) }
    ensures { result ≡ corners_right file.now at }
{
    if byte_at(file, at) != 1 || byte_at(file, 3) != 2 {
        return true;
    }
    // a block without corners needs no room; to fill that with zeros would take longer than all the rest
    if byte_at(file, at + 2) == 0 {
        return true;
    }
    let mut room = [0u16; 510];
    inside(corners_in(file, at + 2, &mut room))
}

// The whole record at a position, whose kind is known.
fn item_at(file: &[u8], at: usize, kind: Kind) -> Item
    requires { (at + 2 + body_size file.now at ≤ length file.now) × (length file.now ≤ 8192) × (kind ≡ kind_of (byte file.now at)) }
    ensures { result ≡ item_at file.now at }
{
    let size = body_size(file, at);
    Item {
        kind,
        number: file[at + 1],
        fields: at + 2,
        next: at + 2 + size,
    }
}

// What stands at a position of a yard file: a record, or nothing at the end.
pub fn read_at(file: &[u8], at: usize) -> Result<Option<Item>, Refusal>
    ensures { result ≡ read_at file.now at }
{
    if !head_right(file) {
        return Err(Refusal::NoYardFile);
    }
    if at < 5 || file.len() < at {
        return Err(Refusal::BrokenRecord);
    }
    if at == file.len() {
        return Ok(None);
    }
    if !record_whole(file, at) {
        return Err(Refusal::BrokenRecord);
    }
    if !corners_right(file, at) {
        return Err(Refusal::CornerOffTheYard);
    }
    let kind = Kind::try_from(file[at])?;
    Ok(Some(item_at(file, at, kind)))
}

// A yard file and a position in it.
#[derive(Clone, Copy)]
pub struct Reader<'a> {
    pub file: &'a [u8],
    pub at: usize,
}

pub fn reader_at<'a>(file: &'a [u8], at: usize) -> Reader<'a>
    ensures { (result.file ≡ file.entry) × (result.at ≡ at) }
{
    Reader { file, at }
}

pub fn read<'a>(r: Reader<'a>) -> Result<Option<Item>, Refusal>
    ensures { result ≡ read_at r.entry.file.now r.entry.at }
{
    read_at(r.file, r.at)
}

// What a reader of the file finds at a position.
pub fn read_from(file: &[u8], at: usize) -> Result<Option<Item>, Refusal>
    ensures { result ≡ read_at file.now at }
{
    read(reader_at(file, at))
}
