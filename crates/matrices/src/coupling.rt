// The coupling g² and its two factors.
ghost use Rattle.std.specs.Prelude.{◌≡◌};
ghost use Rattle.mathematics.specs.Calls.{Answered, none_lent};
ghost use Rattle.answers.specs.Refusal.{answer_of};
ghost use Rattle.matrices.specs.Coupling.{coupling_right, u1_params, su2_params, coupling_call, u1_right, su2_right};

use answers::refusal::Refusal;

#[derive(Clone, Copy, Debug, PartialEq)]
pub struct KSParams {
    pub g_squared: f64,
    pub electric: f64,
    pub magnetic: f64,
}

// Whether g² is from 2^-32 to 2^32; the tests are written so that what is not a number fails.
#[tactic(auto, using(crate::proofs::Literals::one, crate::proofs::Literals::limit), unfolding(crate::specs::Coupling::coupling_right))]
fn in_range(g_squared: f64) -> bool
    ensures { result ≡ coupling_right g_squared }
{
    (1.0 / 4294967296.0 <= g_squared) & (g_squared <= 4294967296.0)
}

// The factors of U(1): g²/2 and -1/g². Here and below each mode has a function, for the formula differs.
#[tactic(auto, using(crate::proofs::Literals::one, crate::proofs::Literals::two), unfolding(crate::specs::Coupling::u1_params))]
fn u1_params(g_squared: f64) -> KSParams
    ensures { result ≡ u1_params g_squared }
{
    KSParams {
        g_squared,
        electric: g_squared / 2.0,
        magnetic: -1.0 / g_squared,
    }
}

// The factors of Z2: (3 g²)/8 and -0.5/g².
#[tactic(auto, using(crate::proofs::Literals::three, crate::proofs::Literals::eight, crate::proofs::Literals::half), unfolding(crate::specs::Coupling::su2_params))]
fn su2_params(g_squared: f64) -> KSParams
    ensures { result ≡ su2_params g_squared }
{
    KSParams {
        g_squared,
        electric: 3.0 * g_squared / 8.0,
        magnetic: -0.5 / g_squared,
    }
}

// A record after the range check.
fn checked(params: KSParams) -> Result<KSParams, Refusal>
    ensures { Answered (coupling_call params.g_squared params) (answer_of result) none_lent }
{
    if !in_range(params.g_squared) {
        return Err(Refusal::WrongFloat);
    }
    Ok(params)
}

impl KSParams {
    pub fn u1(g_squared: f64) -> Result<KSParams, Refusal>
        ensures { Answered (coupling_call g_squared (u1_params g_squared)) (answer_of result) none_lent }
    {
        checked(u1_params(g_squared))
    }

    pub fn su2(g_squared: f64) -> Result<KSParams, Refusal>
        ensures { Answered (coupling_call g_squared (su2_params g_squared)) (answer_of result) none_lent }
    {
        checked(su2_params(g_squared))
    }
}

// Whether a record is one of U(1).
pub fn is_u1(p: KSParams) -> bool
    ensures { result ≡ u1_right p }
{
    in_range(p.g_squared) & (p == u1_params(p.g_squared))
}

// Whether a record is one of Z2.
pub fn is_su2(p: KSParams) -> bool
    ensures { result ≡ su2_right p }
{
    in_range(p.g_squared) & (p == su2_params(p.g_squared))
}
