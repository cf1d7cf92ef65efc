// Whether a configuration obeys Gauss's law, and where it first does not.
#![tactic(auto)]

ghost use Rattle.std.specs.Prelude.{◌≡◌, ◌≢◌, [], ◌∷◌, ◌≤◌, pos, get_or, length};
ghost use Rattle.complex.specs.Complex.{simplices, complex_of, uncharged};
ghost use Rattle.complex.specs.Search.{Ends};
ghost use Rattle.complex.specs.Judge.{refusal};
ghost use Rattle.mathematics.specs.Calls.{Answered, none_lent};
ghost use Rattle.answers.specs.Refusal.{answer_of};
ghost use Rattle.law_check.specs.Law.{sums_with, EdgeAddable, Summed, lowest_broken, unlawful, law_call};

use acceptance::accept;
use answers::finding::Unlawful;
use answers::refusal::Refusal;
use complex::SimplicialComplex;
use numbers::sizes::MOST_VERTICES;

// The value x is taken off the sum at a and added to the sum at b. The sums are fixed memory with one for each vertex: there is no heap.
fn carry(sums: &mut [i64; MOST_VERTICES], a: usize, b: usize, x: i32)
    requires { EdgeAddable sums.old (a ∷ b ∷ []) × (a ≢ b) }
    ensures { sums.new ≡ sums_with (a ∷ b ∷ []) x sums.old }
{
    sums[a] -= i64::from(x);
    sums[b] += i64::from(x);
}

// The Gauss sums at all vertices, in one pass over the edges.
fn gauss_sums(c: &SimplicialComplex, configuration: &[i32]) -> [i64; MOST_VERTICES]
    requires { (c.now.n_edges ≤ 63) × Ends 64 (simplices 2 c.now.edges c.now.n_edges) × (length configuration.now ≡ c.now.n_edges) }
    ensures { Summed (simplices 2 c.now.edges c.now.n_edges) configuration.now result }
{
    let mut sums = [0; MOST_VERTICES];
    for (e, x) in configuration.iter().enumerate() {
        let (a, b) = c.edge(e);
        carry(&mut sums, a, b, *x);
    }
    sums
}

// The first sum that is not zero.
fn first_unlawful(sums: &[i64]) -> Option<Unlawful>
    ensures { result ≡ lowest_broken (λ v. get_or sums.now v (pos 0)) uncharged (length sums.now) }
{
    for (vertex, sum) in sums.iter().enumerate() {
        if *sum != 0 {
            return Some(Unlawful {
                vertex,
                excess: *sum,
            });
        }
    }
    None
}

// The lowest vertex of an accepted record at which a configuration breaks the law.
pub fn find_unlawful(c: SimplicialComplex, configuration: &[i32]) -> Option<Unlawful>
    requires { (refusal (complex_of c) ≡ 0) × (length configuration.now ≡ c.n_edges) }
    ensures { result ≡ unlawful (complex_of c) (complex_of c).charges configuration.now }
{
    let sums = gauss_sums(&c, configuration);
    first_unlawful(&sums[..c.n_vertices])
}

// The lowest vertex of a record at which a configuration breaks Gauss's law, or none. The record is judged first.
pub fn check_gauss_law(
    c: SimplicialComplex,
    configuration: &[i32],
) -> Result<Option<Unlawful>, Refusal>
    ensures { Answered (law_call (complex_of c) configuration.now) (answer_of result) none_lent }
{
    accept(c)?;
    if configuration.len() != c.n_edges {
        return Err(Refusal::WrongListLength);
    }
    Ok(find_unlawful(c, configuration))
}
