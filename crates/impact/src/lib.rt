// The impact of a term in a message: the cosine of document 001, scaled to whole numbers.
#![tactic(auto)]

ghost use Rattle.std.specs.Prelude.{◌≡◌, ℕ, ◌+◌, ◌*◌, ◌/◌, ◌^◌, ◌<◌, ◌≤◌, min, get_or};
ghost use Rattle.paper.specs.Frame.{term_width, count_width, most_pairs};
ghost use Rattle.paper.specs.Impact.{top, impact};
ghost use Rattle.impact.specs.Cell.{impact_width, packed, cell_count, squares_of};
ghost use Rattle.impact.specs.Table.{square_table, fine, reach};

mod squares;

use squares::SQUARES;

#[derive(Clone, Copy)]
pub struct Impact {
    pub value: u32,
}

impl Impact {
    // The top of the scale, and the last place of the table of squares.
    pub const TOP: u32 = 2000;

    // The impact of a count in a message whose counts squared sum to `squares`: the greatest place of the table whose entry, as w², meets the rule.
    // The impact of a count of 1, in fine parts, leaves one place or two, and of two the table decides. A look at the table copies it.
    pub fn of(count: u32, squares: u32) -> Impact
        requires { count < 2 ^ count_width }
        ensures { result.value ≡ impact count squares }
    {
        let parts = count as u64 * unit(squares.max(1));
        let low = place_of(parts);
        let high = place_of(parts + count as u64);
        // Every place meets the rule where no squares are. The unit is found before this is asked, so that it depends on no branch.
        if squares == 0 {
            return Impact { value: Impact::TOP };
        }
        if low < high {
            let most = most_square(count, squares);
            return Impact {
                value: place(low, high, most),
            };
        }
        Impact { value: low }
    }
}

// The parts of a place, and those of the whole scale. Every count up to 16 divides both, so that alone in a message such a count leaves one place; and
// they are so fine that a message rarely has a count that leaves two.
const FINE: u64 = 720720;

const REACH: u64 = FINE * (Impact::TOP as u64);

// The place that so many parts reach, at most the top.
fn place_of(parts: u64) -> u32
    ensures { result ≡ min (parts / fine) top }
{
    // not as a `min`, with which an impact takes longer
    let place = parts / FINE;
    if place < Impact::TOP as u64 {
        place as u32
    } else {
        Impact::TOP
    }
}

// A step of Newton's iteration for the root of `most`, which is no more than the parts of the scale.
fn closer(most: u64, guess: u64) -> u64
    requires { (most ≤ reach * reach) × (0 < guess) × (guess ≤ reach) }
    ensures { result ≡ min ((guess + most / guess) / 2) reach }
{
    ((guess + most / guess) / 2).min(REACH)
}

// The impact of a count of 1 where the squares sum to n, in fine parts and cut. From this start four steps are nearly always enough; they stand before
// the loop so that the compiler takes them once for all counts of a message.
fn unit(n: u32) -> u64
    requires { 0 < n }
    ensures { (result * result * n ≤ reach * reach) × (reach * reach < (result + 1) * (result + 1) * n) }
{
    let most = REACH * REACH / (n as u64);
    let start = REACH >> ((32 - u32::leading_zeros(n)) / 2);
    let mut guess = closer(most, closer(most, closer(most, closer(most, start))));
    while most < guess * guess {
        guess = closer(most, guess);
    }
    guess
}

// What the square of an impact is at most.
fn most_square(count: u32, squares: u32) -> u64
    requires { (count < 2 ^ count_width) × (0 < squares) }
    ensures { result ≡ (top * count) * (top * count) / squares }
{
    let reach = (Impact::TOP as u64) * (count as u64);
    reach * reach / (squares as u64)
}

// The greatest place from `first` to `last` whose entry is at most `most`.
// By hand: for `partition_point` the table has to be shown in order as a slice too, and nothing else needs that.
fn place(first: u32, last: u32, most: u64) -> u32
    requires { (first ≤ last) × (last ≤ top) × (first * first ≤ most) }
    ensures { (result ≤ last) × (result * result ≤ most) × ((v : ℕ) → v ≤ last → v * v ≤ most → v ≤ result) }
{
    let mut low = first;
    let mut high = last;
    while low < high {
        let middle = (low + high + 1) / 2;
        if (square(middle as usize) as u64) <= most {
            low = middle;
        } else {
            high = middle - 1;
        }
    }
    low
}

// An entry of the table.
fn square(place: usize) -> u32
    requires { place ≤ top }
    ensures { result ≡ get_or square_table place 0 }
{
    SQUARES[place]
}

// In a cell's word the impact has fourteen bits, the count eight above it, and the term those above.
pub const COUNT_FACTOR: u32 = 1 << 14;

const COUNTS: u32 = 1 << 8;

pub const TERM_FACTOR: u32 = COUNT_FACTOR * COUNTS;

// A pair and its impact in one word.
pub fn cell(term: u32, count: u32, impact: u32) -> u32
    requires { (term < 2 ^ term_width) × (count < 2 ^ count_width) × (impact < 2 ^ impact_width) }
    ensures { result ≡ packed term count impact }
{
    term * TERM_FACTOR + count * COUNT_FACTOR + impact
}

// The count in a cell.
pub fn count_of(cell: u32) -> u32
    ensures { (result ≡ cell_count cell) × (result < 2 ^ count_width) }
{
    cell / COUNT_FACTOR % COUNTS
}

// The sum of the first m counts squared.
pub fn squared(counts: [u8; paper::MOST_PAIRS], m: usize) -> u32
    requires { (m ≤ most_pairs) × ((i : ℕ) → i < m → get_or counts i 0 < 2 ^ count_width) }
    ensures { result ≡ squares_of m counts }
{
    let mut sum: u32 = 0;
    for count in &counts[..m] {
        let f = u32::from(*count);
        sum += f * f;
    }
    sum
}
