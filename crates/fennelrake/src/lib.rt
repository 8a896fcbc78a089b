// The entries for hosts written in C: numbers and lent byte slices only.
#![tactic(auto)]

ghost use Rattle.std.specs.Prelude.{◌≡◌, ◌∷◌, ◌++◌, ◌+◌, ◌*◌, ◌≤◌, ◌<◌, length, take};
ghost use Rattle.paper.specs.Frame.{most_pairs, most_listed};
ghost use Rattle.paper.specs.Write.{from_fields};
ghost use Rattle.memory.specs.Words.{big_words};
ghost use Rattle.frame.specs.Write.{fields, WritePost};
ghost use Rattle.engine.specs.Told.{told_count};
ghost use Rattle.engine.specs.Post.{StartPost, PostingsPost, ScreenPost};
ghost use Rattle.fennelrake.specs.Entry.{list_answer, FrameEntry, ListEntry, SearchEntry, ClosenessEntry, terms_of, heard_found, heard_writing};

use paper::{MOST_LISTED, MOST_PAIRS, Refusal};
use rank::Lines;

// How many bytes the answers take, and where in a list's the scores start and in a search's the postings read stand, in words.
const FRAME_ANSWER: usize = 4 * 2;

const LIST_ANSWER: usize = 4 * (1 + 2 * MOST_LISTED);

const LIST_SCORES: usize = 1 + MOST_LISTED;

const SEARCH_ANSWER: usize = LIST_ANSWER + 4;

const SEARCH_READ: usize = 1 + 2 * MOST_LISTED;

const CLOSENESS_ANSWER: usize = 4 * 2;

#[unsafe(no_mangle)]
pub extern "C" fn fennelrake_start(state: &mut [u8], capacity: u32, life: u32) -> u32
    ensures { StartPost capacity life state.old result state.new }
{
    match engine::start(state, capacity, life) {
        Ok(()) => 0,
        Err(refusal) => u32::from(refusal),
    }
}

// The answer: marks and departures, four bytes each.
#[unsafe(no_mangle)]
pub extern "C" fn fennelrake_frame(state: &mut [u8], bytes: &[u8], answer: &mut [u8]) -> u32
    ensures { FrameEntry state.old bytes.now answer.old result state.new answer.new }
{
    if answer.len() < FRAME_ANSWER {
        return u32::from(Refusal::Memory);
    }
    match engine::frame(state, bytes) {
        Ok(reply) => {
            memory::put_big(answer, 0, reply.marks);
            memory::put_big(answer, 1, reply.departures);
            0
        }
        Err(refusal) => u32::from(refusal),
    }
}

fn put_list(answer: &mut [u8], list: Lines)
    requires { (length answer.old ≡ list_answer) × (list.count ≤ most_listed) }
    ensures { big_words answer.new ≡ list.count ∷ (list.serials ++ list.scores) }
{
    memory::put_big(answer, 0, list.count as u32);
    memory::store_big(answer, 1, list.serials);
    memory::store_big(answer, LIST_SCORES, list.scores);
}

// The answer: the number of entries, sixteen serials and sixteen scores, four bytes each.
#[unsafe(no_mangle)]
pub extern "C" fn fennelrake_list(state: &[u8], number: u32, answer: &mut [u8]) -> u32
    ensures { ListEntry state.now number answer.old result answer.new }
{
    if answer.len() < LIST_ANSWER {
        return u32::from(Refusal::Memory);
    }
    match engine::list(state, number) {
        Ok(list) => {
            put_list(&mut answer[..LIST_ANSWER], list);
            0
        }
        Err(refusal) => u32::from(refusal),
    }
}

// The answer: that of a list, for the frame's query as if it were registered, and the postings read.
#[unsafe(no_mangle)]
pub extern "C" fn fennelrake_search(state: &[u8], bytes: &[u8], answer: &mut [u8]) -> u32
    ensures { SearchEntry state.entry.now bytes.now answer.old result answer.new × (state.exit.now ≡ state.entry.now) }
{
    if answer.len() < SEARCH_ANSWER {
        return u32::from(Refusal::Memory);
    }
    match engine::search(state, bytes) {
        Ok(searched) => {
            memory::put_big(answer, SEARCH_READ, searched.read);
            put_list(&mut answer[..LIST_ANSWER], searched.list);
            0
        }
        Err(refusal) => u32::from(refusal),
    }
}

// The answer: quotient and remainder, four bytes each.
#[unsafe(no_mangle)]
pub extern "C" fn fennelrake_closeness(
    state: &[u8],
    serial: u32,
    number: u32,
    answer: &mut [u8],
) -> u32
    ensures { ClosenessEntry state.entry.now serial number answer.old result answer.new × (state.exit.now ≡ state.entry.now) }
{
    if answer.len() < CLOSENESS_ANSWER {
        return u32::from(Refusal::Memory);
    }
    match engine::closeness(state, serial, number) {
        Ok(close) => {
            memory::put_big(answer, 0, close.quotient);
            memory::put_big(answer, 1, close.remainder);
            0
        }
        Err(refusal) => u32::from(refusal),
    }
}

// Number times 2 to the 32, and how many were found.
fn told(found: Result<u32, Refusal>) -> u64
    ensures { heard_found result ≡ told_count found }
{
    match found {
        Ok(count) => u64::from(count),
        Err(refusal) => u64::from(u32::from(refusal)) * 4294967296,
    }
}

// The postings of a term, into out: serial and impact of each, four bytes each. Number times 2 to the 32, and how many there are.
#[unsafe(no_mangle)]
pub extern "C" fn fennelrake_postings(state: &[u8], term: u32, out: &mut [u8]) -> u64
    ensures { PostingsPost state.now term out.old (heard_found result) out.new }
{
    told(engine::postings(state, term, out))
}

// The lines of one screen for all queries, into out: the query's number in one byte, then serial and score of its entry, four bytes each. Number times 2 to
// the 32, and how many there are.
#[unsafe(no_mangle)]
pub extern "C" fn fennelrake_screen(state: &[u8], lines: u32, out: &mut [u8]) -> u64
    ensures { ScreenPost state.entry.now lines out.old (heard_found result) out.new × (state.exit.now ≡ state.entry.now) }
{
    told(engine::screen(state, lines, out))
}

// The first terms, two bytes each.
fn first_terms(bytes: &[u8], count: usize) -> [u16; MOST_PAIRS]
    requires { (count ≤ most_pairs) × (2 * count ≤ length bytes.now) }
    ensures { take count result ≡ take count (terms_of bytes.now) }
{
    let mut terms = [0u16; MOST_PAIRS];
    for i in 0..count {
        terms[i] = u16::from_be_bytes([bytes[2 * i], bytes[2 * i + 1]]);
    }
    terms
}

// The frame with these fields, into out: number times 2 to the 32, and length. Terms are two bytes each, amounts one. No frame has more than
// MOST_PAIRS pairs, so later terms are never looked at.
#[unsafe(no_mangle)]
pub extern "C" fn fennelrake_write(
    kind: u32,
    time: u32,
    serial: u32,
    urgency: u32,
    number: u32,
    k: u32,
    pairs: u32,
    terms: &[u8],
    amounts: &[u8],
    out: &mut [u8],
) -> u64
    ensures { WritePost (from_fields (fields kind time serial urgency number k pairs (terms_of terms.now) amounts.now)) out.old out.new (heard_writing result) }
{
    let count = (terms.len() / 2).min(MOST_PAIRS);
    let first = first_terms(terms, count);
    match frame::write(
        out,
        kind,
        time,
        serial,
        urgency,
        number,
        k,
        pairs as usize,
        &first[..count],
        amounts,
    ) {
        Ok(length) => length as u64,
        Err(refusal) => told(Err(refusal)),
    }
}
