// The session: an engine fed from standard input, its replies and lists on standard output. A read or a write that fails ends it, with that error.
#![tactic(auto)]

mod text;

ghost use Rattle.std.specs.Prelude.{◌+◌, ◌≤◌, length as Len, IfOk};
ghost use Rattle.session.specs.Text.{Printed, Shown, Lists};

use paper::Refusal;
use std::io::{Print, Read, Result};

// The list of a query that is marked and still registered.
fn shown(out: &mut [u8], at: usize, state: &[u8], q: u32, marked: bool) -> usize
    requires { at + 716 ≤ Len out.old }
    ensures printed { Printed (Shown state.now q marked) at out.old result out.new }
    ensures upper_bound { result ≤ at + 716 }
{
    if !marked {
        return at;
    }
    match engine::list(state, q) {
        Ok(list) => text::list(out, at, q, list),
        Err(_) => at,
    }
}

// The lists of the marked queries that are still registered, in rising number.
fn lists(out: &mut [u8], at: usize, state: &[u8], marks: u32) -> usize
    requires { at + 22912 ≤ Len out.old }
    ensures printed { Printed (Lists state.now marks 32) at out.old result out.new }
    ensures upper_bound { result ≤ at + 22912 }
{
    let mut end = at;
    let mut left = marks;
    for q in 0..32 {
        end = shown(out, end, state, q, left % 2 == 1);
        left /= 2;
    }
    end
}

// Reads until the buffer is full or the input ends, and answers how many bytes came.
fn read_full(input: &mut impl Read, bytes: &mut [u8]) -> Result<usize>
    ensures { IfOk result (λ n. n ≤ Len bytes.new) }
{
    let mut done = 0;
    while done < bytes.len() {
        let n = input.read(&mut bytes[done..])?;
        if n == 0 {
            break;
        }
        done += n;
    }
    Ok(done)
}

// Hands a frame to the engine, and prints what follows in one write.
fn hand(
    output: &impl Print,
    state: &mut [u8],
    ordinal: u64,
    bytes: &[u8],
    out: &mut [u8],
) -> Result<()>
    requires { 22984 ≤ Len out.old }
{
    let reply = engine::frame(state, bytes);
    let line = text::reply(out, 0, ordinal, reply);
    let end = match reply {
        Ok(reply) => lists(out, line, state, reply.marks),
        Err(_) => line,
    };
    output.write_all(&out[..end])
}

// Reads one frame and hands it on; answers whether there was one.
fn feed(
    input: &mut impl Read,
    output: &impl Print,
    state: &mut [u8],
    ordinal: u64,
    out: &mut [u8],
) -> Result<bool>
    requires { 22984 ≤ Len out.old }
{
    let mut size = [0u8; 1];
    if read_full(input, &mut size)? == 0 {
        return Ok(false);
    }
    let mut bytes = [0u8; 255];
    let got = read_full(input, &mut bytes[..usize::from(size[0])])?;
    hand(output, state, ordinal, &bytes[..got], out)?;
    Ok(true)
}

// A proved loop has to end, so frames are counted up to a number that no session reaches.
fn run(input: &mut impl Read, output: &impl Print, state: &mut [u8]) -> Result<()> {
    let mut out = [0u8; text::MOST];
    for ordinal in 1..=u64::MAX {
        if !feed(input, output, state, ordinal, &mut out)? {
            break;
        }
    }
    Ok(())
}

// What ends a session before its first frame.
fn print_refusal(output: &impl Print, refusal: Refusal) -> Result<()> {
    let mut out = [0u8; 72];
    let end = text::reply(&mut out, 0, 0, Err(refusal));
    output.write_all(&out[..end])
}

fn main(rt: HostRuntime) -> Result<()> {
    let mut input = rt.stdin();
    let mut header = [0u8; 3];
    if read_full(&mut input, &mut header)? < 3 {
        return print_refusal(&rt, Refusal::Short);
    }
    let mut state = [0u8; paper::layout::STATE];
    let capacity = u32::from(header[0]) + 1;
    let life = u32::from(u16::from_be_bytes([header[1], header[2]]));
    if let Err(refusal) = engine::start(&mut state, capacity, life) {
        return print_refusal(&rt, refusal);
    }
    run(&mut input, &rt, &mut state)
}
