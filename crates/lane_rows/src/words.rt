// Arrays over a batch of clocks.

ghost use Rattle.std.specs.Prelude.{◌≡◌, ℕ, ◌<◌, ◌≤◌, List, true, length, map, slice_index, IsTrue};
ghost use Rattle.lane_rows.specs.Words.{words_after, IsReadUpTo, AreInside};

use crate::lanes::Lane;

/// What numbers of a lane have at a clock.
#[tactic(auto, using(crate::proofs::LaneRows::read_is))]
pub fn number_at<L: Lane>(row: &[L], t: usize) -> u64
    requires { t < length row.now }
    ensures { result ≡ slice_index (map L.value row.now) t }
{
    row[t].word()
}

// Whether each index of a row is below a bound of its own lane. A comparison in the lane is vector code of all its numbers.
fn all_below<I: Lane>(index: &[I], bound: I) -> bool
    ensures { IsTrue result → AreInside (length index.now) (map I.value index.now) (I.value bound) }
{
    let mut inside = true;
    for t in 0..index.len() {
        if !is_below(index, t, bound) {
            inside = false;
        }
    }
    inside
}

#[tactic(auto, using(crate::proofs::LaneRows::read_is))]
fn is_below<I: Lane>(index: &[I], t: usize, bound: I) -> bool
    requires { t < length index.now }
    ensures { IsTrue result → slice_index (map I.value index.now) t < I.value bound }
{
    index[t].is_below(bound)
}

// Whether each index of a row is below a bound that may be in no lane of theirs.
fn all_under<I: Lane>(index: &[I], depth: u64) -> bool
    ensures { IsTrue result → AreInside (length index.now) (map I.value index.now) depth }
{
    let mut inside = true;
    for t in 0..index.len() {
        if number_at(index, t) >= depth {
            inside = false;
        }
    }
    inside
}

/// Whether each index of a row is inside an array of this depth.
pub fn all_inside<I: Lane>(index: &[I], depth: u64) -> bool
    ensures { IsTrue result → AreInside (length index.now) (map I.value index.now) depth }
{
    let bound = I::cut(depth);
    if bound.word() == depth {
        all_below(index, bound)
    } else {
        all_under(index, depth)
    }
}

/// An array over a batch: each clock reads, and then writes. What each write takes away is kept.
pub fn word_row<I: Lane, V: Lane>(
    words: &mut [u64],
    to: &mut [u64],
    lost: &mut [u64],
    read: &[I],
    index: &[I],
    value: &[V],
)
    requires lost { length lost.old ≡ length to.old }
    requires read { length read.now ≡ length to.old }
    requires index { length index.now ≡ length to.old }
    requires value { length value.now ≡ length to.old }
    requires reads { AreInside (length to.old) (map I.value read.now) (length words.old) }
    requires writes { AreInside (length to.old) (map I.value index.now) (length words.old) }
    ensures count { length to.new ≡ length to.old }
    ensures lost_count { length lost.new ≡ length to.old }
    ensures depth { length words.new ≡ length words.old }
    ensures row { IsReadUpTo (length to.old) words.old to.new (map I.value read.now) (map I.value index.now) (map V.value value.now) }
    ensures lost { IsReadUpTo (length to.old) words.old lost.new (map I.value index.now) (map I.value index.now) (map V.value value.now) }
    ensures words { words.new ≡ words_after words.old (map I.value index.now) (map V.value value.now) (length to.old) }
{
    for t in 0..to.len() {
        to[t] = words[number_at(read, t) as usize];
        lost[t] = words[number_at(index, t) as usize];
        words[number_at(index, t) as usize] = number_at(value, t);
    }
}

/// The same of an array that is read where it is written: what each write takes away is what is read.
pub fn change_row<I: Lane, V: Lane>(words: &mut [u64], lost: &mut [u64], index: &[I], value: &[V])
    requires index { length index.now ≡ length lost.old }
    requires value { length value.now ≡ length lost.old }
    requires writes { AreInside (length lost.old) (map I.value index.now) (length words.old) }
    ensures count { length lost.new ≡ length lost.old }
    ensures depth { length words.new ≡ length words.old }
    ensures lost { IsReadUpTo (length lost.old) words.old lost.new (map I.value index.now) (map I.value index.now) (map V.value value.now) }
    ensures words { words.new ≡ words_after words.old (map I.value index.now) (map V.value value.now) (length lost.old) }
{
    for t in 0..lost.len() {
        let i = number_at(index, t) as usize;
        lost[t] = words[i];
        words[i] = number_at(value, t);
    }
}

/// The writes of a batch taken back, the last one first.
pub fn take_back<I: Lane>(words: &mut [u64], lost: &[u64], index: &[I])
    requires lost { length lost.now ≡ length index.now }
    requires writes { AreInside (length index.now) (map I.value index.now) (length words.old) }
    ensures depth { length words.new ≡ length words.old }
    ensures words { (before value : List ℕ) → words.old ≡ words_after before (map I.value index.now) value (length index.now)
        → AreInside (length index.now) (map I.value index.now) (length before)
        → IsReadUpTo (length index.now) before lost.now (map I.value index.now) (map I.value index.now) value
        → words.new ≡ before }
{
    for done in 0..index.len() {
        let t = index.len() - 1 - done;
        words[number_at(index, t) as usize] = lost[t];
    }
}
