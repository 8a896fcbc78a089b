// Closeness: the square of the cosine between a message and a query, in tenths of a percent, as quotient and remainder.
#![tactic(auto)]

ghost use Rattle.std.specs.Prelude.{◌≤◌, ◌<◌};
ghost use Rattle.paper.specs.Frame.{most_terms};
ghost use Rattle.paper.specs.Layout.{slots};
ghost use Rattle.memory.specs.Words.{words};
ghost use Rattle.impact.specs.Cell.{most_squares};
ghost use Rattle.rank.specs.Weights.{weight_limit, Below};
ghost use Rattle.window.specs.Slot.{slot};
ghost use Rattle.closeness.specs.Post.{Counts, most_shared, most_weight_squares, Divided, SlotCloseness};

use candidates::Query;
use paper::State;

// All of the scale: counts and weights are in proportion.
const WHOLE: u64 = 1000;

#[derive(Clone, Copy)]
pub struct Closeness {
    pub quotient: u32,
    pub remainder: u32,
}

impl Closeness {
    // How close the message in slot j is to the query.
    pub fn of(state: &State, j: usize, query: Query) -> Closeness
        requires { (j < slots) × Below query.n weight_limit query.weights }
        ensures { SlotCloseness (slot (words state.now) j) query result }
    {
        let n = query.n;
        let weights = query.weights;
        let counts = counts_in(state, j, query);
        let shared = rank::weighted(weights, counts, n);
        let squares = window::squares_in(state, j);
        divided(shared, squares, rank::weighted(weights, weights, n))
    }
}

// The message's count in each of the query's terms.
fn counts_in(state: &State, j: usize, query: Query) -> [u32; 8]
    requires { j < slots }
    ensures { Counts (slot (words state.now) j).cells query result }
{
    let n = query.n;
    let terms = query.terms;
    let mut counts = [0u32; 8];
    for i in 0..n {
        counts[i] = window::count_in(state, j, terms[i]);
    }
    counts
}

// 1000 × s² by a × b: `shared` is s, `squares` is a and `weights` is b.
fn divided(shared: u32, squares: u32, weights: u32) -> Closeness
    requires { (shared ≤ most_shared) × (squares ≤ most_squares) × (weights ≤ most_weight_squares) }
    ensures { Divided shared squares weights result }
{
    let shared = u64::from(shared);
    let square = shared * shared;
    let dividend = WHOLE * square;
    // in foreign memory a message may have no count at all
    let divisor = (u64::from(squares) * u64::from(weights)).max(1);
    let remainder = (dividend % divisor) as u32;
    Closeness {
        // in foreign memory, where terms needn't rise, a quotient may be more than the whole
        quotient: (dividend / divisor).min(WHOLE) as u32,
        remainder,
    }
}
