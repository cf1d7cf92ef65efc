// The place of a configuration in the list of the basis.
ghost use Rattle.std.specs.Prelude.{◌≡◌, ℕ, ◌<◌, ◌≤◌, length};
ghost use Rattle.walker.specs.Steps.{FreeFit};
ghost use Rattle.hilbert.specs.Basis.{smaller};
ghost use Rattle.hilbert.specs.Search.{row, Rows, Ranked};

use numbers::sizes::MOST_EDGES;

// Whether a row has the smaller value on the last free edge where it differs from a configuration: from the last free edge down. The table
// and the number of free edges are two parameters here and below: what is known of them (`FreeFit`) is told of the whole table.
fn row_before(row: &[i32], config: &[i32], free: &[u8; MOST_EDGES], n_free: usize) -> bool
    requires { (length row.now ≡ length config.now) × (length config.now ≤ 63) × (n_free ≤ 63) × FreeFit (length config.now) n_free free.now }
    ensures { result ≡ smaller free.now row.now config.now n_free }
{
    for edge in free[..n_free].iter().rev() {
        let e = usize::from(*edge);
        let x = row[e];
        let y = config[e];
        if x != y {
            return x < y;
        }
    }
    false
}

// Whether row i of the first n comes before a configuration.
fn before_at(
    states: &[i32],
    n: usize,
    i: usize,
    config: &[i32],
    free: &[u8; MOST_EDGES],
    n_free: usize,
) -> bool
    requires { Rows states.now n config.now free.now n_free × (i < n) }
    ensures { result ≡ smaller free.now (row (length config.now) states.now i) config.now n_free }
{
    let m = config.len();
    let at = i * m;
    row_before(&states[at..at + m], config, free, n_free)
}

// How many of the first n rows come before a configuration, where they are in order: by halving. The halving is written out: a row may
// have no values, so that the list need not have n chunks.
pub fn find_place(
    states: &[i32],
    n: usize,
    config: &[i32],
    free: &[u8; MOST_EDGES],
    n_free: usize,
) -> usize
    requires { Rows states.now n config.now free.now n_free }
    ensures { (p : ℕ) → Ranked states.now n config.now free.now n_free p → result ≡ p }
{
    let mut low = 0;
    let mut high = n;
    while low < high {
        let middle = low + (high - low) / 2;
        if before_at(states, n, middle, config, free, n_free) {
            low = middle + 1;
        } else {
            high = middle;
        }
    }
    low
}

// The same from a row on that none of the rows before it comes after: one row after the other. By number: a row may have no values here too.
// The number of all rows is an answer as well: what is told is the place from which the next search goes on.
pub fn advance(
    states: &[i32],
    n: usize,
    from: usize,
    config: &[i32],
    free: &[u8; MOST_EDGES],
    n_free: usize,
) -> usize
    requires { Rows states.now n config.now free.now n_free × (from ≤ n) }
    ensures { (p : ℕ) → Ranked states.now n config.now free.now n_free p → from ≤ p → result ≡ p }
{
    for place in from..n {
        if !before_at(states, n, place, config, free, n_free) {
            return place;
        }
    }
    n
}
