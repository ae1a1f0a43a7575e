// Polynomials modulo two in borrowed slices: the terms are 64-bit sets of atoms, in ascending order, at the start of the slice.
// Terms are added in place, one at a time; a term that is there already cancels. The slice needs space for every term
// that is added. The limits on terms and pairs are the caller's.
#![tactic(auto)]

ghost use Rattle.std.specs.Prelude.{◌≡◌, ℕ, ◌+◌, ◌*◌, ◌≤◌, ◌<◌, length, take};
ghost use Rattle.search.specs.Ascending.{Ascending};
ghost use Rattle.poly.specs.Terms.{Written, toggle, sum, sum_times, sum_product, over};
ghost use Rattle.poly.specs.Places.{PutIn, TakenOut};

// Moves the terms from `at` on one index up, the last first, and puts a term there. A loop, as below, since `copy_within` calls
// memmove: a host without memmove can link the archive, which needs memcpy and memset alone.
fn put_in(list: &mut [u64], count: usize, at: usize, term: u64)
    requires { (at ≤ count) × (count < length list.old) }
    ensures { PutIn list.old list.new count at term }
{
    for i in (at..count).rev() {
        list[i + 1] = list[i];
    }
    list[at] = term;
}

// Moves the terms after `at` one index down, the first first.
fn take_out(list: &mut [u64], count: usize, at: usize)
    requires { (at < count) × (count ≤ length list.old) }
    ensures { TakenOut list.old list.new count at }
{
    for i in at + 1..count {
        list[i - 1] = list[i];
    }
}

// Adds a term to the first count, and gives the new count. A struct of the list and its count would have to keep the order between the move and
// the write of a new term. Tried: where the term is put behind the others and turned into its place (`rotate_right`), lists of a few terms take a
// fifth longer.
fn toggle(list: &mut [u64], count: usize, term: u64) -> usize
    requires { (count < length list.old) × Ascending (take count list.old) }
    ensures { (result ≡ length (toggle term (take count list.old))) × (list.new ≡ over (toggle term (take count list.old)) list.old) }
{
    match list[..count].binary_search(&term) {
        Ok(at) => {
            take_out(list, count, at);
            count - 1
        }
        Err(at) => {
            put_in(list, count, at, term);
            count + 1
        }
    }
}

// Adds x times each term of b to the first count terms, and gives the new count.
fn add_times(list: &mut [u64], count: usize, x: u64, b: &[u64]) -> usize
    requires { (count + length b.now ≤ length list.old) × Ascending (take count list.old) }
    ensures { Written (sum_times (take count list.old) x b.now) result (count + length b.now) list.old list.new }
{
    let mut n = count;
    for y in b {
        n = toggle(list, n, x | *y);
    }
    n
}

// Adds the terms of b: b times the constant one.
#[tactic(auto, using(crate::proofs::Running::times_one))]
pub fn add(list: &mut [u64], count: usize, b: &[u64]) -> usize
    requires { (count + length b.now ≤ length list.old) × Ascending (take count list.old) }
    ensures { Written (sum (take count list.old) b.now) result (count + length b.now) list.old list.new }
{
    add_times(list, count, 0, b)
}

// Adds each term of a times each term of b. With no terms before, this makes the product.
pub fn add_product(list: &mut [u64], count: usize, a: &[u64], b: &[u64]) -> usize
    requires { (count + length a.now * length b.now ≤ length list.old) × Ascending (take count list.old) }
    ensures { Written (sum_product (take count list.old) a.now b.now) result (count + length a.now * length b.now) list.old list.new }
{
    let mut n = count;
    for x in a {
        n = add_times(list, n, *x, b);
    }
    n
}
