// Rows that a caller lends, of any length: what is absent reads as 0, and what there is no room for is dropped.
ghost use Rattle.std.specs.Prelude.{◌≡◌, get_or, set};
ghost use Rattle.std.proofs.lemmas.List.Edits.{sets};
ghost use Rattle.machine_words.specs.Rows.{number_at};

pub(crate) fn value_or<T: Copy>(row: &[T], place: usize, absent: T) -> T
    ensures { result ≡ get_or row.now place absent }
{
    row.get(place).copied().unwrap_or(absent)
}

// (Kept beside `value_or`: `number_or_zero_determined` speaks of it.)
pub fn number_or_zero(row: &[f64], place: usize) -> f64
    ensures { result ≡ number_at row.now place }
{
    value_or(row, place, 0.0)
}

pub(crate) fn put<T: Copy>(row: &mut [T], place: usize, value: T)
    ensures { row.new ≡ set row.old place value }
{
    if place < row.len() {
        row[place] = value;
    }
}

// (Kept beside `put`: `put_number_determined` speaks of it.)
pub fn put_number(row: &mut [f64], place: usize, number: f64)
    ensures { row.new ≡ set row.old place number }
{
    put(row, place, number);
}

// The words one after another, from a place on.
pub fn put_words(row: &mut [u64], place: usize, words: &[u64])
    ensures { row.new ≡ sets row.old place words.now }
{
    if row.len() <= place {
        return;
    }
    for (i, word) in words.iter().enumerate() {
        put(row, place + i, *word);
    }
}
