// Looks numbers up in a list that rises strictly: instruction addresses, or the terms of a polynomial. Searches halve
// what is left of the list at each step.
#![tactic(auto)]

ghost use Rattle.std.specs.Prelude.{◌≡◌, true};
ghost use Rattle.search.specs.Ascending.{Ascending, Below, count_below, place_of};

// The index of the first number at or above x, or the length where all are below it.
fn first_at_or_above(list: &[u64], x: u64) -> usize
    requires { Ascending list.now }
    ensures { result ≡ count_below list.now x }
{
    list.partition_point(|y| *y < x)
}

// Whether all numbers before an index are below x, as far as a look at the last of them tells.
fn are_below(list: &[u64], at: usize, x: u64) -> bool
    requires { Ascending list.now }
    ensures { result ≡ true → Below list.now x at }
{
    at == 0 || at <= list.len() && list[at - 1] < x
}

// The same as first_at_or_above, quick where the answer is at or shortly after a guess: from there it is found by walking.
pub fn first_from(list: &[u64], guess: usize, x: u64) -> usize
    requires { Ascending list.now }
    ensures { result ≡ count_below list.now x }
{
    if !are_below(list, guess, x) {
        return first_at_or_above(list, x);
    }
    match list[guess..].iter().position(|y| x <= *y) {
        Some(n) => guess + n,
        None => list.len(),
    }
}

// Where x stands.
#[tactic(auto, using(crate::proofs::Laws::place_searched))]
pub fn find(list: &[u64], x: u64) -> Option<usize>
    requires { Ascending list.now }
    ensures { result ≡ place_of list.now x }
{
    list.binary_search(&x).ok()
}
