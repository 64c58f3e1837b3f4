// The loops behind the sets, over slices of any number of words. A word past a slice's end counts
// as 0.
ghost use Rattle.std.specs.Prelude.{◌≡◌, ◌*◌, ◌≤◌, min, length, get_or};
ghost use Rattle.sets.specs.Sets.{up_to, joined, met, removed, within, count, lowest_if_any};
ghost use Rattle.sets.specs.Words.{has, words_of, row, with_row};

// Word i of the slice.
fn word(words: &[u64], i: usize) -> u64
    ensures { result ≡ get_or words.now i 0 }
{
    words.get(i).copied().unwrap_or(0)
}

// Where the row of that number starts in a table of so many words, or the table's end if it starts
// past that.
fn row_start(words: usize, number: usize, width: usize) -> usize
    ensures { result ≡ min (number * width) words }
{
    match words.checked_div(width) {
        Some(rows) if number <= rows => number * width,
        Some(_) => words,
        _ => 0,
    }
}

// Makes words the numbers below n.
pub(crate) fn fill_up_to(words: &mut [u64], n: usize)
    ensures { words.new ≡ words_of (length words.old) (up_to n) }
{
    let mut left = n;
    for word in words.iter_mut() {
        *word = if left < 64 { (1 << left) - 1 } else { u64::MAX };
        left = left.saturating_sub(64);
    }
}

// Makes words the row of that number of a table, in rows of as many words.
pub(crate) fn copy_row(table: &[u64], number: usize, words: &mut [u64])
    ensures { words.new ≡ words_of (length words.old) (has (row (length words.old) number table.now)) }
{
    let start = row_start(table.len(), number, words.len());
    if let Some(whole) = table[start..].get(..words.len()) {
        words.copy_from_slice(whole);
    } else {
        copy_part(table, number, words);
    }
}

// The same, word by word, as the table's end may cut the row short.
#[inline(always)]
fn copy_part(table: &[u64], number: usize, words: &mut [u64])
    ensures { words.new ≡ words_of (length words.old) (has (row (length words.old) number table.now)) }
{
    let start = row_start(table.len(), number, words.len());
    let rest = &table[start..];
    for (i, copy) in words.iter_mut().enumerate() {
        *copy = word(rest, i);
    }
}

// Writes the words as the row of that number of a table of such rows, if the table has it.
pub(crate) fn write_row(words: &[u64], table: &mut [u64], number: usize)
    ensures { table.new ≡ with_row (length words.now) number words.now table.old }
{
    let start = row_start(table.len(), number, words.len());
    if words.len() <= table.len() - start {
        table[start..start + words.len()].copy_from_slice(words);
    }
}

// Puts the members of others into words, as far as words go.
pub(crate) fn join_into(words: &mut [u64], others: &[u64])
    ensures { words.new ≡ words_of (length words.old) (joined (has words.old) (has others.now)) }
{
    for (i, joined) in words.iter_mut().enumerate() {
        *joined |= word(others, i);
    }
}

// Leaves in words the members that others have too.
pub(crate) fn meet_into(words: &mut [u64], others: &[u64])
    ensures { words.new ≡ words_of (length words.old) (met (has words.old) (has others.now)) }
{
    for (i, met) in words.iter_mut().enumerate() {
        *met &= word(others, i);
    }
}

// Takes the members of others out of words.
pub(crate) fn remove_from(words: &mut [u64], others: &[u64])
    ensures { words.new ≡ words_of (length words.old) (removed (has words.old) (has others.now)) }
{
    for (i, rest) in words.iter_mut().enumerate() {
        *rest &= !word(others, i);
    }
}

// Whether every member of words is one of others.
pub(crate) fn all_within(words: &[u64], others: &[u64]) -> bool
    ensures { result ≡ within (length words.now * 64) (has words.now) (has others.now) }
{
    let mut within = true;
    for (i, own) in words.iter().enumerate() {
        within &= own & !word(others, i) == 0;
    }
    within
}

// How many members there are, of so few words that the number fits.
pub(crate) fn count_members(words: &[u64]) -> u32
    requires { length words.now ≤ 16 }
    ensures { result ≡ count (length words.now * 64) (has words.now) }
{
    words.iter().map(|word| word.count_ones()).sum()
}

// The lowest member, if there is one, of so few words that it fits.
pub(crate) fn lowest_member(words: &[u64]) -> Option<usize>
    requires { length words.now ≤ 16 }
    ensures { result ≡ lowest_if_any (length words.now * 64) (has words.now) }
{
    for (i, word) in words.iter().enumerate() {
        if *word != 0 {
            return Some(i * 64 + word.trailing_zeros() as usize);
        }
    }
    None
}
