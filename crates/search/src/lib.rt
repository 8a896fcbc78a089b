// A search asked for once: the list of a query that isn't registered, and how many postings the rule of the search reads for it.
//
// The list is the ranking of the window, which has no postings at hand to be read one by one. By its last score it is known where the rule ends: where
// the next postings sum to less. Postings are read by falling height, so that place is found by halving, and what stands above it is counted.
#![tactic(auto)]

ghost use Rattle.std.specs.Prelude.{◌≡◌, ◌*◌, ◌<◌, ◌≤◌, cond, length, leb};
ghost use Rattle.paper.specs.Frame.{most_terms, most_listed};
ghost use Rattle.paper.specs.Layout.{slots};
ghost use Rattle.memory.specs.Words.{words};
ghost use Rattle.window.specs.Rows.{row_width};
ghost use Rattle.search.specs.Cut as cut;
ghost use Rattle.search.specs.Post.{Fit, height_limit, Column, Columns, column, sum_by, read_by, EndsAt, ReadFor, WindowSearch};

use candidates::Query;
use paper::{State, layout};
use rank::Ranked;
use window::Span;

const MOST_TERMS: u32 = paper::MOST_TERMS as u32;

// No posting is as high: a weight has four bits.
const HEIGHT_LIMIT: u32 = 16 * impact::Impact::TOP * MOST_TERMS;

// Columns of impacts for all terms, with a place for each message of the window: how many of a column's places are filled is said beside them.
const COLUMNS: usize = paper::MOST_TERMS * layout::SLOTS;

type AllColumns = [u16; COLUMNS];

#[derive(Clone, Copy)]
pub struct Outcome {
    pub list: Ranked,
    pub read: u32,
}

// The impacts of the messages looked at in the term at place p, one after the other: a column is gone through many times.
fn put_column(rows: &[u16], p: usize, column: &mut [u16])
    requires { (length rows.now ≡ row_width * slots) × (length column.old ≤ slots) × (p < most_terms) }
    ensures { Column rows.now (length column.old) p column.new }
{
    for (i, x) in column.iter_mut().enumerate() {
        *x = rows[candidates::ROW * i + 1 + p];
    }
}

// The columns of the first m messages looked at in the first n terms.
fn put_columns(rows: &[u16], m: usize, n: usize, columns: &mut AllColumns)
    requires { (length rows.now ≡ row_width * slots) × (m ≤ slots) × (n ≤ most_terms) }
    ensures { Columns rows.now m n columns.new }
{
    for p in 0..n {
        let start = layout::SLOTS * p;
        put_column(rows, p, &mut columns[start..start + m]);
    }
}

// The greatest impact in the term at place p, of this weight, whose posting isn't above the cut.
fn cap(at: u32, p: usize, weight: u32) -> u16
    requires { (at < height_limit) × (p < most_terms) × (1 ≤ weight) }
    ensures { result ≡ cut.cap at p weight }
{
    let least = MOST_TERMS - 1 - p as u32;
    if at < least {
        return 0;
    }
    ((at - least) / MOST_TERMS / weight) as u16
}

// An impact that is at most the cap, else 0. Without a branch where it is put in place.
fn capped(x: u16, cap: u16) -> u16
    ensures { result ≡ cond (leb x cap) x 0 }
{
    if x <= cap { x } else { 0 }
}

// The next impact in a term once all above the cap are read: the greatest of its column that is at most the cap.
fn next_impact(column: &[u16], cap: u16) -> u16
    ensures { result ≡ cut.up_to cap column.now }
{
    let mut next: u16 = 0;
    for x in column {
        next = next.max(capped(*x, cap));
    }
    next
}

// How many impacts of a column are above the cap.
fn count_over(column: &[u16], cap: u16) -> u32
    requires { length column.now ≤ slots }
    ensures { (result ≡ cut.over cap column.now) × (result ≤ slots) }
{
    let mut count: u32 = 0;
    for x in column {
        if cap < *x {
            count += 1;
        }
    }
    count
}

// The column of the term at place p: the impacts of the first m messages.
fn column_of(columns: &AllColumns, m: usize, p: usize) -> &[u16]
    requires { (m ≤ slots) × (p < most_terms) }
    ensures { result.now ≡ column columns.now m p }
{
    let start = layout::SLOTS * p;
    &columns[start..start + m]
}

// The sum of weight × impact of the next postings once all above the cut are read.
fn sum_at(columns: &AllColumns, m: usize, query: Query, at: u32) -> u32
    requires { (m ≤ slots) × Fit query × (at < height_limit) }
    ensures { result ≡ sum_by columns.now m query at }
{
    let mut sum: u32 = 0;
    for p in 0..query.n {
        let weight = query.weights[p];
        let next = next_impact(column_of(columns, m, p), cap(at, p, weight));
        sum += weight * u32::from(next);
    }
    sum
}

// How many postings are above the cut.
fn read_at(columns: &AllColumns, m: usize, query: Query, at: u32) -> u32
    requires { (m ≤ slots) × Fit query × (at < height_limit) }
    ensures { result ≡ read_by columns.now m query at }
{
    let mut count: u32 = 0;
    for p in 0..query.n {
        count += count_over(column_of(columns, m, p), cap(at, p, query.weights[p]));
    }
    count
}

// The highest cut at which the next postings sum to less than the score: the search ends there.
fn end_cut(columns: &AllColumns, m: usize, query: Query, score: u32) -> u32
    requires { (m ≤ slots) × Fit query }
    ensures { EndsAt columns.now m query score result }
{
    let mut low: u32 = 0;
    let mut high = HEIGHT_LIMIT;
    while 1 < high - low {
        let middle = (low + high) / 2;
        if sum_at(columns, m, query, middle) < score {
            low = middle;
        } else {
            high = middle;
        }
    }
    low
}

// How many postings are read for this list: all of them where it isn't full.
fn postings_read(columns: &AllColumns, m: usize, query: Query, list: Ranked) -> u32
    requires { (m ≤ slots) × Fit query × (list.count ≤ most_listed) }
    ensures { ReadFor columns.now m query list result }
{
    if list.count != query.k {
        return read_at(columns, m, query, 0);
    }
    let end = end_cut(columns, m, query, rank::last_score(list));
    read_at(columns, m, query, end)
}

// The search over the window.
pub fn search(state: &State, messages: Span, query: Query) -> Outcome
    requires { (messages.count < slots) × Fit query }
    ensures { WindowSearch (words state.now) messages.first messages.count query result }
{
    let mut picked = [0u16; layout::SLOTS];
    let m = candidates::having(state, messages, query, &mut picked);
    // No list is full then, and nothing is halved: unless it is said here, the compiler makes a second halving for this case.
    if m == 0 {
        return Outcome {
            list: Ranked::none(),
            read: 0,
        };
    }
    let mut rows = [0u16; candidates::ROWS];
    let picked = &picked[..m];
    candidates::look(state, picked, query, &mut rows);
    let list = candidates::ranked_rows(state, picked, &rows, query);
    let mut columns = [0u16; COLUMNS];
    put_columns(&rows, m, query.n, &mut columns);
    Outcome {
        list,
        read: postings_read(&columns, m, query, list),
    }
}
