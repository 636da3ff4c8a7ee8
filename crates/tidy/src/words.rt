// Words, written into bytes.
ghost use Rattle.std.specs.Prelude.{◌≡◌, ◌+◌, ◌*◌, ◌≤◌, length};
ghost use Rattle.tidy.specs.Words.{concat_below};
ghost use Rattle.tidy.specs.Inner.Put.{put};
ghost use Rattle.tidy.specs.Inner.Columns.{row};

use records::field;

// Writes words from a byte on, the low byte of each first.
pub(crate) fn put_words(out: &mut [u8], at: usize, words: &[u16])
    requires { at + 2 * length words.now ≤ length out.old }
    ensures { out.new ≡ put out.old at words.now }
{
    for (k, word) in words.iter().enumerate() {
        let [low, high] = word.to_le_bytes();
        let a = at + 2 * k;
        out[a] = low;
        out[a + 1] = high;
    }
}

// Writes record i of so many, one word from each column.
fn put_record(out: &mut [u8], at: usize, columns: &[&[u16]], count: usize, i: usize)
    requires { at + 2 * length columns.now ≤ length out.old }
    ensures { out.new ≡ put out.old at (row count columns.now i) }
{
    for (k, column) in columns.iter().enumerate() {
        put_words(out, at + 2 * k, &[field(column, count, i)]);
    }
}

// Writes so many records one behind the other.
pub(crate) fn put_records(out: &mut [u8], at: usize, columns: &[&[u16]], count: usize)
    requires { at + 2 * (length columns.now * count) ≤ length out.old }
    ensures { out.new ≡ put out.old at (concat_below count (row count columns.now)) }
{
    for i in 0..count {
        put_record(out, at + 2 * (columns.len() * i), columns, count, i);
    }
}
