// Lists of words, the same for every table: filled with one number, copied, compared.
#![tactic(auto)]

ghost use Rattle.std.specs.Prelude.{◌≡◌, ◌+◌, ◌≤◌, length};
ghost use Rattle.lists.specs.Lists.{splice};
ghost use Rattle.lists.specs.inner.Filled.{filled};
ghost use Rattle.lists.specs.inner.Tells.{Tells};

pub fn fill<T: Copy>(list: &mut [T], v: T)
    ensures { list.new ≡ filled (length list.old) v }
{
    for x in list.iter_mut() {
        *x = v;
    }
}

// Words into a table from a place on.
pub fn put_words(t: &mut [u16], at: usize, words: &[u16])
    requires { at + length words.now ≤ length t.old }
    ensures { t.new ≡ splice t.old at words.now }
{
    t[at..at + words.len()].copy_from_slice(words);
}

// Whether the words of two slices are the same.
pub fn same_words(a: &[u32], b: &[u32]) -> bool
    ensures { Tells (a.now ≡ b.now) result }
{
    a == b
}
