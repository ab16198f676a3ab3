// How often each word is used, and the choice of those that save most. Words are kept by where they begin and how long they are. Each word is counted once, at
// its first use, and marks its later uses; so the cost is the number of different words times the number of uses. Most of these pairs differ in their keys.
ghost use Rattle.std.specs.Prelude.{◌≡◌, ℕ, ◌+◌, ◌≤◌, ◌<◌, length, get_or, take, drop};
ghost use Rattle.format.specs.Same.{same_octets};
ghost use Rattle.packer.specs.Counting.{word_at, key_of, Noted, Keyed, Passes, Counts, Chooses, Taken, IsEmpty};

use crate::ranking::{Best, Word, insert, saved_by};
use compare::same_octets;

// Two parts of the object are the same word.
fn is_use(object: &[u8], start: usize, size: usize, from: usize, other: usize) -> bool
    requires size_in_bounds { start + size ≤ length object.now }
    requires other_in_bounds { from + other ≤ length object.now }
    ensures { result ≡ same_octets (take size (drop start object.now)) (take other (drop from object.now)) }
{
    if size != other {
        return false;
    }
    let end = start + size;
    let to = from + other;
    same_octets(&object[start..end], &object[from..to])
}

// A key that equal words share.
fn key_of(word: &[u8]) -> u8
    ensures { result ≡ key_of word.now }
{
    let mut key: usize = 0;
    for b in word {
        key = (key * 31 + usize::from(*b)) % 251;
    }
    key as u8
}

// The key of each word.
pub fn fill_keys(object: &[u8], starts: &[u16], sizes: &[u8], keys: &mut [u8], n: usize)
    requires noted { Noted object.now starts.now sizes.now n }
    requires n_in_bounds { n ≤ length keys.old }
    ensures { Keyed object.now starts.now sizes.now keys.new n }
{
    for j in 0..n {
        let start = usize::from(starts[j]);
        let end = start + usize::from(sizes[j]);
        keys[j] = key_of(&object[start..end]);
    }
}

// Whether two of the first n words are the same.
fn is_again(
    object: &[u8],
    starts: &[u16],
    sizes: &[u8],
    keys: &[u8],
    i: usize,
    j: usize,
    n: usize,
) -> bool
    requires noted { Noted object.now starts.now sizes.now n }
    requires keyed { Keyed object.now starts.now sizes.now keys.now n }
    requires i_lt_n { i < n }
    requires j_lt_n { j < n }
    ensures { result ≡ same_octets (word_at object.now starts.now sizes.now i) (word_at object.now starts.now sizes.now j) }
{
    if keys[i] != keys[j] {
        return false;
    }
    let start = usize::from(starts[i]);
    let size = usize::from(sizes[i]);
    is_use(
        object,
        start,
        size,
        usize::from(starts[j]),
        usize::from(sizes[j]),
    )
}

// The first place from a place on that has a key, or n.
fn next_keyed(keys: &[u8], key: u8, at: usize, n: usize) -> usize
    requires at_le_n { at ≤ n }
    requires n_in_bounds { n ≤ length keys.now }
    ensures { Passes keys.now key at n result }
{
    match keys[at..n].iter().position(|other| *other == key) {
        Some(behind) => at + behind,
        None => n,
    }
}

// How often the word of a number is used from there on; its uses are marked.
fn count_uses(
    object: &[u8],
    starts: &[u16],
    sizes: &[u8],
    keys: &[u8],
    done: &mut [u8],
    i: usize,
    n: usize,
) -> usize
    requires noted { Noted object.now starts.now sizes.now n }
    requires keyed { Keyed object.now starts.now sizes.now keys.now n }
    requires i_lt_n { i < n }
    requires n_in_bounds { n ≤ length done.old }
    ensures { Counts object.now starts.now sizes.now done.old done.new i n result }
{
    let key = keys[i];
    let mut uses: usize = 0;
    let mut j = i;
    while j < n {
        if is_again(object, starts, sizes, keys, i, j, n) {
            done[j] = 1;
            uses += 1;
        }
        j = next_keyed(keys, key, j + 1, n);
    }
    uses
}

// The word of a number takes part in the choice, unless it came before.
fn consider(
    object: &[u8],
    starts: &[u16],
    sizes: &[u8],
    keys: &[u8],
    done: &mut [u8],
    best: Best,
    i: usize,
    n: usize,
) -> Best
    requires noted { Noted object.now starts.now sizes.now n }
    requires keyed { Keyed object.now starts.now sizes.now keys.now n }
    requires i_lt_n { i < n }
    requires chooses { Chooses object.now starts.now sizes.now done.old n best i }
    ensures done_len_unchanged { length done.new ≡ length done.old }
    ensures chooses_2 { Chooses object.now starts.now sizes.now done.new n result (i + 1) }
{
    if done[i] != 0 {
        return best;
    }
    let uses = count_uses(object, starts, sizes, keys, done, i, n);
    let start = usize::from(starts[i]);
    let size = usize::from(sizes[i]);
    let saved = saved_by(uses, size);
    insert(best, Word { start, size, saved })
}

fn none_yet() -> Best
    ensures { IsEmpty result }
{
    Best {
        words: [Word {
            start: 0,
            size: 0,
            saved: 0,
        }; 16],
        count: 0,
    }
}

// The words that save most. No word is marked before.
pub fn choose(
    object: &[u8],
    starts: &[u16],
    sizes: &[u8],
    keys: &[u8],
    done: &mut [u8],
    n: usize,
) -> Best
    requires noted { Noted object.now starts.now sizes.now n }
    requires keyed { Keyed object.now starts.now sizes.now keys.now n }
    requires n_in_bounds { n ≤ length done.old }
    requires by_index { (j : ℕ) → get_or done.old j 0 ≡ 0 }
    ensures { Taken object.now starts.now sizes.now n result }
{
    let mut best = none_yet();
    for i in 0..n {
        best = consider(object, starts, sizes, keys, done, best, i, n);
    }
    best
}
