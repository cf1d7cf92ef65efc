// Runs of states that follow each other by the first cycle, as far as a triangle's move keeps them within the bounds: the rows behind the
// first of a run need not be read.
ghost use Rattle.std.specs.Prelude.{◌≡◌, ◌<◌, ◌≤◌, pos, nat_abs, ◌+ℤ◌, ◌-ℤ◌, ◌*ℤ◌, true, get_or, length};
ghost use Rattle.std.specs.Int.Signed.{lt_z};
ghost use Rattle.plaquettes.specs.Pairs.{three, stays, Movable};
ghost use Rattle.lanczos.specs.Runs.{Covers, Room, Banded, CycleRun, MoveRun};

use numbers::edge_list::EdgeList;
use plaquettes::pairs::next_staying;
use plaquettes::rows::row_at;
use plaquettes::target::Sizes;
use triangles::Sides;

// The edges on which a cycle is not 0.
pub fn cycle_edges(cycle: &[i8]) -> EdgeList
    requires { length cycle.now ≤ 63 }
    ensures { Covers result.list result.count cycle.now }
{
    let mut edges = EdgeList::new();
    for (e, sign) in cycle.iter().enumerate() {
        if *sign != 0 {
            edges.push(e as u8);
        }
    }
    edges
}

// A list that begins with states, the edges of a triangle, and a cycle with the edges on which it is not 0.
#[derive(Clone, Copy)]
pub struct RunTables<'a> {
    pub list: &'a [i32],
    pub sizes: Sizes,
    pub sides: Sides,
    pub edges: &'a EdgeList,
    pub cycle: &'a [i8],
}

// How far a is above b. `walker` has this and the next for itself, but not the same: its excess is 0 where a is not above b, and its sign comes
// first; both ask and tell something else.
fn gap(a: i32, b: i32) -> usize
    requires { (nat_abs a ≤ 1001) × (nat_abs b ≤ 1001) × (lt_z b a ≡ true) }
    ensures { result ≡ nat_abs (a -ℤ b) }
{
    (a - b) as usize
}

// A value times a sign.
fn turned(x: i32, sign: i8) -> i32
    requires { (nat_abs x ≤ 1000) × (nat_abs sign ≤ 1) }
    ensures { result ≡ x *ℤ sign }
{
    x * i32::from(sign)
}

// How often a sign can be added to a value until it leaves -lambda to lambda, and at most so often.
fn room(x: i32, sign: i8, lambda: usize, most: usize) -> usize
    requires { (nat_abs x ≤ lambda) × (lambda ≤ 1000) × (nat_abs sign ≤ 1) × (1 ≤ most) }
    ensures { Room lambda x sign most result }
{
    if sign == 0 {
        return most;
    }
    most.min(gap(lambda as i32 + 1, turned(x, sign)))
}

// How often a cycle can be added to a row.
fn cycle_run(row: &[i32], edges: &EdgeList, cycle: &[i8], lambda: usize, most: usize) -> usize
    requires { Banded lambda row.now cycle.now × Covers edges.now.list edges.now.count cycle.now × (1 ≤ most) }
    ensures { CycleRun lambda row.now cycle.now edges.now.list edges.now.count most result }
{
    let mut r = most;
    for edge in edges.as_slice() {
        let e = usize::from(*edge);
        r = room(row[e], cycle[e], lambda, r);
    }
    r
}

// The same of one edge of a row, after 1 or -1 was added there.
fn moved_room(row: &[i32], cycle: &[i8], e: usize, by: i32, lambda: usize, most: usize) -> usize
    requires { Banded lambda row.now cycle.now × (e < length row.now) × (nat_abs by ≤ 1) × (nat_abs (get_or row.now e (pos 0) +ℤ by) ≤ lambda) × (1 ≤ most) }
    ensures { Room lambda (get_or row.now e (pos 0) +ℤ by) (get_or cycle.now e (pos 0)) most result }
{
    room(row[e] + by, cycle[e], lambda, most)
}

// The same of a row whose three values a triangle's move by 1 or -1 keeps within -lambda to lambda, until it does so no more.
fn move_run(row: &[i32], sides: Sides, cycle: &[i8], by: i32, lambda: usize, most: usize) -> usize
    requires { Banded lambda row.now cycle.now × Movable row.now (three sides) × (nat_abs by ≤ 1) × (stays lambda row.now (three sides) by ≡ true) × (1 ≤ most) }
    ensures { MoveRun lambda row.now cycle.now (three sides) by most result }
{
    let one = moved_room(row, cycle, sides.first, by, lambda, most);
    let two = moved_room(row, cycle, sides.second, -by, lambda, one);
    moved_room(row, cycle, sides.third, by, lambda, two)
}

// A run of states and the run of their targets.
#[derive(Clone, Copy)]
pub struct Run {
    pub from: usize,
    pub to: usize,
    pub length: usize,
}

impl RunTables<'_> {
    ghost use Rattle.std.specs.Prelude.{◌≡◌, ◌<◌, ◌≤◌, nat_abs, true};
    ghost use Rattle.plaquettes.specs.Pairs.{row_stays};
    ghost use Rattle.lanczos.specs.Tables.{Runs};
    ghost use Rattle.lanczos.specs.Runs.{RunLength, RunFound};

    // How many states from a place on are a run: each is the one before it with the cycle added, and the move keeps it.
    fn run_length(&self, by: i32, place: usize) -> usize
        requires { Runs self.now × (nat_abs by ≤ 1) × (place < self.now.sizes.states) × (row_stays self.now.list.now self.now.sizes self.now.sides by place ≡ true) }
        ensures { RunLength self.now.list.now self.now.sizes self.now.sides self.now.edges.now.list self.now.edges.now.count self.now.cycle.now by place result }
    {
        let s = self.sizes;
        let row = row_at(self.list, s.edges, place);
        let r = cycle_run(row, self.edges, self.cycle, s.lambda, s.states - place);
        move_run(row, self.sides, self.cycle, by, s.lambda, r)
    }

    // The next run from state i on, where the next target is not before j; past the last the number of states, since the walk goes on from what
    // is told and so ends there.
    pub fn find_run(&self, i: usize, j: usize) -> Run
        requires { Runs self.now × (i ≤ self.now.sizes.states) × (j ≤ self.now.sizes.states) }
        ensures { RunFound self.now.list.now self.now.sizes self.now.sides self.now.edges.now.list self.now.edges.now.count self.now.cycle.now i j result }
    {
        let n = self.sizes.states;
        let a = next_staying(self.list, self.sizes, self.sides, 1, i);
        let b = next_staying(self.list, self.sizes, self.sides, -1, j);
        if (n <= a) | (n <= b) {
            return Run {
                from: n,
                to: n,
                length: 0,
            };
        }
        let p = self.run_length(1, a);
        let q = self.run_length(-1, b);
        Run {
            from: a,
            to: b,
            length: p.min(q),
        }
    }
}
