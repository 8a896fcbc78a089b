// What the session prints, gathered in a buffer: each function puts its text after the first `at` bytes and answers where it ends. A slice of what is left
// would have to be handed back by each, and is no plainer.
ghost use Rattle.std.specs.Prelude.{◌+◌, ◌≤◌, length as Len};
ghost use Rattle.engine.specs.Told.{told_reply};
ghost use Rattle.session.specs.Text.{Put, decimal, field as text_field, marks_field, reply_line, entries as text_entries, list_line};

use engine::Reply;
use paper::Refusal;
use rank::Lines;

// The longest text of a frame: its line, and 32 lists of sixteen entries; a number has at most twenty digits.
pub const MOST: usize = 22984;

fn put(out: &mut [u8], at: usize, text: &[u8]) -> usize
    requires { at + Len text.now ≤ Len out.old }
    ensures { Put text.now at out.old result out.new }
{
    let end = at + text.len();
    out[at..end].copy_from_slice(text);
    end
}

fn number(out: &mut [u8], at: usize, n: u64) -> usize
    requires { at + 20 ≤ Len out.old }
    ensures put { Put (decimal n) at out.old result out.new }
    ensures upper_bound { result ≤ at + 20 }
{
    let mut text = [0u8; 20];
    let k = io::decimal(n, &mut text);
    put(out, at, &text[..k])
}

// A space and a number.
fn field(out: &mut [u8], at: usize, n: u64) -> usize
    requires { at + 21 ≤ Len out.old }
    ensures put { Put (text_field n) at out.old result out.new }
    ensures upper_bound { result ≤ at + 21 }
{
    let next = put(out, at, b" ");
    number(out, next, n)
}

// A space and the marks, as eight hexadecimal digits.
fn marks(out: &mut [u8], at: usize, marked: u32) -> usize
    requires { at + 9 ≤ Len out.old }
    ensures put { Put (marks_field marked) at out.old result out.new }
    ensures upper_bound { result ≤ at + 9 }
{
    let mut text = [0u8; 16];
    let k = io::hex(u64::from(marked), 8, &mut text);
    let next = put(out, at, b" ");
    put(out, next, &text[..k])
}

// A frame's line: ordinal, number, marks, departures.
fn line(out: &mut [u8], at: usize, ordinal: u64, told: u32, marked: u32, departed: u32) -> usize
    requires { at + 72 ≤ Len out.old }
    ensures put { Put (reply_line ordinal told marked departed) at out.old result out.new }
    ensures upper_bound { result ≤ at + 72 }
{
    let first = number(out, at, ordinal);
    let second = field(out, first, u64::from(told));
    let third = marks(out, second, marked);
    let fourth = field(out, third, u64::from(departed));
    put(out, fourth, b"\n")
}

// The line of a frame that was answered so: of a refused one the refusal's number, and all else 0.
pub fn reply(out: &mut [u8], at: usize, ordinal: u64, reply: Result<Reply, Refusal>) -> usize
    requires { at + 72 ≤ Len out.old }
    ensures put { let r = told_reply reply in Put (reply_line ordinal r.number r.marks r.departures) at out.old result out.new }
    ensures upper_bound { result ≤ at + 72 }
{
    match reply {
        Ok(reply) => line(out, at, ordinal, 0, reply.marks, reply.departures),
        Err(refusal) => line(out, at, ordinal, u32::from(refusal), 0, 0),
    }
}

// Serial and score of each entry of a list.
fn entries(out: &mut [u8], at: usize, list: Lines) -> usize
    requires { (list.count ≤ 16) × (at + 672 ≤ Len out.old) }
    ensures put { Put (text_entries list.serials list.scores list.count) at out.old result out.new }
    ensures upper_bound { result ≤ at + 672 }
{
    let serials = list.serials;
    let scores = list.scores;
    let mut end = at;
    for i in 0..list.count {
        let next = field(out, end, u64::from(serials[i]));
        end = field(out, next, u64::from(scores[i]));
    }
    end
}

// A query's line: its number, how many entries its list has, and serial and score of each.
pub fn list(out: &mut [u8], at: usize, q: u32, list: Lines) -> usize
    requires { (list.count ≤ 16) × (at + 716 ≤ Len out.old) }
    ensures put { Put (list_line q list.serials list.scores list.count) at out.old result out.new }
    ensures upper_bound { result ≤ at + 716 }
{
    let first = put(out, at, b"Q");
    let second = field(out, first, u64::from(q));
    let third = field(out, second, list.count as u64);
    let fourth = entries(out, third, list);
    put(out, fourth, b"\n")
}
