// The bytes of a yard file as fields and corners.
#![tactic(auto)]

ghost use Rattle.std.specs.Prelude.{◌≡◌, ◌++◌, ◌+◌, ◌*◌, ◌-◌, ◌<◌, ◌≤◌, length, get_or, take};
ghost use Rattle.file_words.specs.Words.{byte, field, fields_from, displacement, block_size, stepped, step_words, corner_words, inside};

// The byte at a position, 0 past the end.
pub fn byte_at(file: &[u8], at: usize) -> u8
    ensures { result ≡ byte file.now at }
{
    file.get(at).copied().unwrap_or(0)
}

// A field, low byte first.
pub fn field(file: &[u8], at: usize) -> u16
    requires { at + 1 < length file.now }
    ensures { result ≡ field file.now at }
{
    u16::from_le_bytes([file[at], file[at + 1]])
}

// A displacement, from two's complement.
pub fn displacement(v: u16) -> i16
    ensures { result ≡ displacement v }
{
    v.cast_signed()
}

// Fills words with the fields from a position on.
pub fn fill_fields(file: &[u8], at: usize, words: &mut [u16])
    requires { at + 2 * length words.old ≤ length file.now }
    ensures { words.new ≡ fields_from file.now at (length words.old) }
{
    for (i, word) in words.iter_mut().enumerate() {
        *word = field(file, at + 2 * i);
    }
}

// How many bytes a block's count and corners take.
pub fn block_size(version: u8, count: u8) -> usize
    ensures { (result ≡ block_size version count) × (result ≤ 1021) }
{
    let corners = usize::from(count);
    if version == 1 {
        1 + 4 * corners
    } else if corners == 0 {
        1
    } else {
        3 + 2 * corners
    }
}

// The coordinate that is a signed byte away from another.
fn stepped(from: u16, step: u8) -> u16
    ensures { result ≡ stepped from step }
{
    from.wrapping_add_signed(i16::from(step.cast_signed()))
}

// Puts words by steps behind the first two.
fn put_steps(file: &[u8], at: usize, words: &mut [u16])
    requires { (2 ≤ length words.old) × (at + length words.old ≤ length file.now + 2) }
    ensures { words.new ≡ take 2 words.old ++ step_words file.now at (length words.old - 2) (get_or words.old 0 0) (get_or words.old 1 0) }
{
    for i in 2..words.len() {
        let k = i - 2;
        words[i] = stepped(words[k], file[at + k]);
    }
}

// Fills words with those of the corners whose count stands at a position.
fn fill_corners(file: &[u8], at: usize, words: &mut [u16])
    requires { (at + block_size (byte file.now 3) (byte file.now at) ≤ length file.now) × (length file.now ≤ 8192)
        × (length words.old ≡ 2 * byte file.now at) }
    ensures { words.new ≡ corner_words file.now at }
{
    if byte_at(file, 3) == 1 {
        fill_fields(file, at + 1, words);
    } else if !words.is_empty() {
        fill_fields(file, at + 1, &mut words[..2]);
        put_steps(file, at + 5, words);
    }
}

// Fills the front of the room with these words.
fn fill_room(file: &[u8], at: usize, room: &mut [u16; 510])
    requires { (at + block_size (byte file.now 3) (byte file.now at) ≤ length file.now) × (length file.now ≤ 8192) }
    ensures { take (2 * byte file.now at) room.new ≡ corner_words file.now at }
{
    let count = 2 * usize::from(byte_at(file, at));
    fill_corners(file, at, &mut room[..count]);
}

// The words of the corners whose count stands at a position, in the front of 510.
pub fn corner_words(file: &[u8], at: usize) -> [u16; 510]
    requires { (at + block_size (byte file.now 3) (byte file.now at) ≤ length file.now) × (length file.now ≤ 8192) }
    ensures { take (2 * byte file.now at) result ≡ corner_words file.now at }
{
    let mut room = [0; 510];
    fill_room(file, at, &mut room);
    room
}

// The same words, put into the room that is lent.
pub fn corners_in<'a>(file: &[u8], at: usize, room: &'a mut [u16; 510]) -> &'a [u16]
    requires { (at + block_size (byte file.now 3) (byte file.now at) ≤ length file.now) × (length file.now ≤ 8192) }
    ensures { result.now ≡ corner_words file.now at }
{
    fill_room(file, at, room);
    &room[..2 * usize::from(byte_at(file, at))]
}

// Whether every word is at most 32,767.
#[tactic(auto, using(crate::proofs::Corners::inside_no, crate::proofs::Corners::inside_yes))]
pub fn inside(words: &[u16]) -> bool
    ensures { result ≡ inside words.now }
{
    for word in words {
        if 32767 < *word {
            return false;
        }
    }
    true
}
