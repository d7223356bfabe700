// The listing of a yard, put byte for byte into a buffer that the caller lends.
#![tactic(auto)]

ghost use Rattle.std.specs.Prelude.{◌≡◌, ◌++◌, ◌+◌, ◌*◌, ◌≤◌, length};
ghost use Rattle.listing.specs.Lines.{bytes, decimal, labelled, edit_line, edit_lines, stop_line, mark_texts, way_text, run_line, run_lines, Listed};
ghost use Rattle.listing.specs.inner.Put.{Put};

// Room for every listing: a number has at most 20 digits, so that 4,096 edits have 54 bytes each, the stop 50, and
// 24 runs 4,133 each.
pub const ROOM: usize = 4096 * 54 + 50 + 24 * 4133;

// Each function below puts bytes into the buffer from a place on, and answers where they end.
fn put_text(out: &mut [u8], at: usize, text: &[u8]) -> usize
    requires { at + length text.now ≤ length out.old }
    ensures { Put (length text.now) out.old at text.now out.new result }
{
    let end = at + text.len();
    out[at..end].copy_from_slice(text);
    end
}

fn put_number(out: &mut [u8], at: usize, n: u64) -> usize
    requires { at + 20 ≤ length out.old }
    ensures { Put 20 out.old at (decimal n) out.new result }
{
    let mut digits = [0u8; 20];
    let k = io::decimal(n, &mut digits);
    put_text(out, at, &digits[..k])
}

// A text, then a number.
fn put_labelled(out: &mut [u8], at: usize, text: &[u8], n: u64) -> usize
    requires { at + (length text.now + 20) ≤ length out.old }
    ensures { Put (length text.now + 20) out.old at (text.now ++ decimal n) out.new result }
{
    let end = put_text(out, at, text);
    put_number(out, end, n)
}

// A line of two texts, each with a number behind it.
fn put_line(out: &mut [u8], at: usize, text: &[u8], n: u64, other: &[u8], m: u64) -> usize
    requires { at + (length text.now + 20 + (length other.now + 20) + 1) ≤ length out.old }
    ensures { Put (length text.now + 20 + (length other.now + 20) + 1) out.old at
        ((text.now ++ decimal n) ++ (other.now ++ decimal m) ++ bytes "\n") out.new result }
{
    let first = put_labelled(out, at, text, n);
    let second = put_labelled(out, first, other, m);
    put_text(out, second, b"\n")
}

fn put_edit(out: &mut [u8], at: usize, count: usize, answer: u32) -> usize
    requires { at + 54 ≤ length out.old }
    ensures { Put 54 out.old at (edit_line count answer) out.new result }
{
    let answer = u64::from(answer);
    put_line(out, at, b"edit ", count as u64, b" answer ", answer)
}

// The first answers, as many as the count says and there are.
fn put_edits(out: &mut [u8], answers: &[u32], count: usize) -> usize
    requires { 54 * length answers.now ≤ length out.old }
    ensures { Put (54 * length answers.now) out.old 0
        (edit_lines answers.now count) out.new result }
{
    let n = count.min(answers.len());
    let mut end = 0;
    for i in 0..n {
        end = put_edit(out, end, i + 1, answers[i]);
    }
    end
}

// Nothing where the number is 0.
fn put_stop(out: &mut [u8], at: usize, number: u32, place: usize) -> usize
    requires { at + 50 ≤ length out.old }
    ensures { Put 50 out.old at (stop_line number place) out.new result }
{
    if number == 0 {
        return at;
    }
    put_line(out, at, b"stop ", u64::from(number), b" at ", place as u64)
}

fn put_mark(out: &mut [u8], at: usize, mark: u32) -> usize
    requires { at + 21 ≤ length out.old }
    ensures { Put 21 out.old at (labelled " " mark) out.new result }
{
    put_labelled(out, at, b" ", u64::from(mark))
}

// The marks of a route record, as many as its count says and it has room for.
fn put_marks(out: &mut [u8], at: usize, words: &[u32]) -> usize
    requires { (length words.now ≡ 197) × (at + 21 * 194 ≤ length out.old) }
    ensures { Put (21 * 194) out.old at (mark_texts words.now) out.new result }
{
    let n = (words[2] as usize).min(194);
    let mut end = at;
    for k in 0..n {
        end = put_mark(out, end, words[3 + k]);
    }
    end
}

fn put_way(out: &mut [u8], at: usize, words: &[u32]) -> usize
    requires { (length words.now ≡ 197) × (at + 4109 ≤ length out.old) }
    ensures { Put 4109 out.old at (way_text words.now) out.new result }
{
    let measured = put_labelled(out, at, b" length ", u64::from(words[1]));
    let started = put_text(out, measured, b" marks");
    let marked = put_marks(out, started, words);
    put_text(out, marked, b"\n")
}

// The line of run m from its route record, nothing where the run is absent.
fn put_run(out: &mut [u8], at: usize, m: usize, words: &[u32]) -> usize
    requires { (length words.now ≡ 197) × (at + 4133 ≤ length out.old) }
    ensures { Put 4133 out.old at (run_line m words.now) out.new result }
{
    let state = words[0];
    if state == 0 {
        return at;
    }
    let named = put_labelled(out, at, b"run ", m as u64);
    if state == 1 {
        return put_way(out, named, words);
    }
    put_text(out, named, b" no way\n")
}

fn put_runs(out: &mut [u8], at: usize, routes: &[u32]) -> usize
    requires { (length routes.now ≡ 4728) × (at + 4133 * 24 ≤ length out.old) }
    ensures { Put (4133 * 24) out.old at (run_lines routes.now) out.new result }
{
    let mut end = at;
    for m in 0..24 {
        let first = 197 * m;
        let past = first + 197;
        end = put_run(out, end, m, &routes[first..past]);
    }
    end
}

// The whole listing, put at the start of the buffer: answers how many bytes it has.
pub fn list(
    out: &mut [u8; ROOM],
    answers: &[u32; 4096],
    count: usize,
    number: u32,
    at: usize,
    routes: &[u32; 4728],
) -> usize
    ensures { Listed answers.now count number at routes.now out.old out.new result }
{
    let edits_end = put_edits(out, answers, count);
    let stop_end = put_stop(out, edits_end, number, at);
    put_runs(out, stop_end, routes)
}
