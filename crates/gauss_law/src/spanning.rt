// The spanning tree of a complex, and the edges that it leaves free.
ghost use Rattle.std.specs.Prelude.{◌≡◌, ◌++◌, ℕ, ◌<◌, ◌≤◌, get_or, length, drop};
ghost use Rattle.complex.specs.Complex.{complex_of};
ghost use Rattle.mathematics.specs.Calls.{Answered};
ghost use Rattle.answers.specs.Refusal.{answer_of};
ghost use Rattle.gauss_law.specs.Spanning.{Spanned, Flagged, Unflagged, FreeOf, tree_call};

use acceptance::accept;
use answers::refusal::Refusal;
use complex::SimplicialComplex;
use complex::search::{SpanningTree, search};
use numbers::edge_list::EdgeList;
use numbers::sizes::MOST_EDGES;

// The tree edges have 1 in the table, all others 0. These are numbers and no bools, for the definition (`Flagged`, specs/Spanning) has them so.
fn tree_flags(tree: &[u8]) -> [u8; MOST_EDGES]
    requires { (i : ℕ) → i < length tree.now → get_or tree.now i 0 < 63 }
    ensures { Flagged result tree.now }
{
    let mut flags = [0u8; MOST_EDGES];
    for e in tree {
        flags[usize::from(*e)] = 1;
    }
    flags
}

// The edges that are not flagged, by rising number.
#[tactic(auto, using(crate::proofs::Spanned::none_unflagged, crate::proofs::Spanned::unflagged_same, crate::proofs::Spanned::unflagged_more))]
fn unflagged(flags: &[u8]) -> EdgeList
    requires { length flags.now ≤ 63 }
    ensures { Unflagged flags.now (length flags.now) result }
{
    let mut free = EdgeList::new();
    for (e, flag) in flags.iter().enumerate() {
        if *flag == 0 {
            free.push(e as u8);
        }
    }
    free
}

// The free edges of an accepted record, by the tree that its search found.
pub fn free_edges(c: SimplicialComplex, tree: SpanningTree) -> EdgeList
    requires { Spanned c tree }
    ensures { FreeOf (complex_of c) result }
{
    let flags = tree_flags(&tree.tree_edges[..tree.found]);
    unflagged(&flags[..c.n_edges])
}

// A list goes to the front of a lent one. By number: a proof knows nothing of what a loop over a zip with iter_mut wrote.
fn copy_first(from: &[u8], to: &mut [u32])
    requires { length from.now ≤ length to.old }
    ensures { to.new ≡ from.now ++ drop (length from.now) to.old }
{
    for (i, e) in from.iter().enumerate() {
        to[i] = u32::from(*e);
    }
}

// The tree edges of a record as the search finds them, and its free edges by rising number. The record is judged first.
pub fn spanning_tree(
    c: SimplicialComplex,
    tree: &mut [u32],
    free: &mut [u32],
) -> Result<usize, Refusal>
    ensures { Answered (tree_call (complex_of c) tree.old free.old) (answer_of result) (tree.new, free.new) }
{
    accept(c)?;
    let spanning = search(&c);
    let rest = free_edges(c, spanning);
    if (tree.len() < spanning.found) | (free.len() < rest.len()) {
        return Err(Refusal::NoRoom);
    }
    copy_first(&spanning.tree_edges[..spanning.found], tree);
    copy_first(rest.as_slice(), free);
    Ok(rest.len())
}
