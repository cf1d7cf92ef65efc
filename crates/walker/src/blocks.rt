// A block: the candidates that agree on all free edges but the first. Those within the bounds are an interval.
ghost use Rattle.std.specs.Prelude.{◌≡◌, ◌-◌, ◌^◌, ◌≤◌, ◌↔◌, IsTrue, length, leb, nat_abs, ◌*ℤ◌};
ghost use Rattle.walker.specs.Walker.{width, excess};
ghost use Rattle.walker.specs.Steps.{Small};
ghost use Rattle.walker.specs.Blocks.{Narrowed, SpanOfBlock};

use crate::steps::negative;

// The number of candidates in a block.
#[tactic(auto, using(crate::proofs::BlockStates::width_none, crate::proofs::BlockStates::width_some))]
pub fn width(n_free: usize, lambda: usize) -> usize
    requires { lambda ≤ 1000 }
    ensures { result ≡ width lambda n_free }
{
    if n_free == 0 { 1 } else { 2 * lambda + 1 }
}

// How far a is above b, 0 where it is not.
fn excess(a: i32, b: i32) -> usize
    requires { (nat_abs a ≤ 2 ^ 24) × (nat_abs b ≤ 2 ^ 24) }
    ensures { result ≡ excess a b }
{
    if b < a { (a - b) as usize } else { 0 }
}

pub fn within(x: i32, lambda: usize) -> bool
    requires { lambda ≤ 1000 }
    ensures { result ≡ leb (nat_abs x) lambda }
{
    x.unsigned_abs() as usize <= lambda
}

// A sign times a value.
fn turn(sign: i8, x: i32) -> i32
    requires { (nat_abs sign ≤ 1) × (nat_abs x ≤ 2 ^ 24) }
    ensures { result ≡ sign *ℤ x }
{
    i32::from(sign) * x
}

// The numbers from one to before another.
#[derive(Clone, Copy)]
pub struct Span {
    pub from: usize,
    pub to: usize,
}

impl Span {
    // How many numbers there are.
    pub fn size(self) -> usize
        ensures { result ≡ self.to - self.from }
    {
        self.to.saturating_sub(self.from)
    }

    pub fn is_empty(self) -> bool
        ensures { IsTrue result ↔ self.to ≤ self.from }
    {
        self.to <= self.from
    }

    // The span narrowed by one entry, to which its sign is added.
    pub fn narrow(self, x: i32, sign: i8, lambda: usize, width: usize) -> Span
        requires { (self.to ≤ width) × (nat_abs x ≤ 2 ^ 20) × (nat_abs sign ≤ 1) × (lambda ≤ 1000) }
        ensures { Narrowed lambda width x sign self result }
    {
        if sign == 0 {
            if within(x, lambda) {
                return self;
            }
            return Span {
                from: self.from.max(width),
                to: self.to,
            };
        }
        let y = turn(sign, x);
        Span {
            from: self.from.max(excess(negative(lambda), y)),
            to: self.to.min(excess((lambda + 1) as i32, y)),
        }
    }
}

// The multiples of a cycle that keep an assignment within the bounds, below a width.
pub fn interval(config: &[i32], cycle: &[i8], lambda: usize, width: usize) -> Span
    requires { (length cycle.now ≡ length config.now) × Small (2 ^ 20) config.now × Small 1 cycle.now × (lambda ≤ 1000) }
    ensures { SpanOfBlock lambda width config.now cycle.now result }
{
    let mut span = Span { from: 0, to: width };
    for (x, sign) in config.iter().zip(cycle) {
        if span.is_empty() {
            return span;
        }
        span = span.narrow(*x, *sign, lambda, width);
    }
    span
}
