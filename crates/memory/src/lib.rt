// Lent memory as words of four bytes: state memory least significant byte first, what is written for a host most significant byte first.
#![tactic(auto)]

ghost use Rattle.std.specs.Prelude.{◌≡◌, ◌+◌, ◌*◌, ◌<◌, ◌≤◌, length, get_or, take, drop};
ghost use Rattle.memory.specs.Words.{words, put_word, big_words, put_big};
ghost use Rattle.memory.specs.Keeps.{Stored};

// The word at index i.
pub fn get(s: &[u8], i: usize) -> u32
    requires { 4 * i + 4 ≤ length s.now }
    ensures { result ≡ get_or (words s.now) i 0 }
{
    let at = 4 * i;
    u32::from_le_bytes([s[at], s[at + 1], s[at + 2], s[at + 3]])
}

// The word at index i becomes v.
pub fn put(s: &mut [u8], i: usize, v: u32)
    requires { 4 * i + 4 ≤ length s.old }
    ensures { s.new ≡ put_word s.old i v }
{
    let at = 4 * i;
    s[at..at + 4].copy_from_slice(&v.to_le_bytes());
}

// N words from index i on.
pub fn load<const N: usize>(s: &[u8], i: usize) -> [u32; N]
    requires { 4 * (i + N) ≤ length s.now }
    ensures { result ≡ take N (drop i (words s.now)) }
{
    let mut a = [0u32; N];
    for n in 0..N {
        a[n] = get(s, i + n);
    }
    a
}

// N words are written from index i on.
pub fn store<const N: usize>(s: &mut [u8], i: usize, a: [u32; N])
    requires { 4 * (i + N) ≤ length s.old }
    ensures { Stored i N a.entry (words s.old) (words s.new) }
{
    for n in 0..N {
        put(s, i + n, a[n]);
    }
}

// The word at index i of what is written for a host.
pub fn get_big(s: &[u8], i: usize) -> u32
    requires { 4 * i + 4 ≤ length s.now }
    ensures { result ≡ get_or (big_words s.now) i 0 }
{
    let at = 4 * i;
    u32::from_be_bytes([s[at], s[at + 1], s[at + 2], s[at + 3]])
}

// The word at index i of what is written for a host becomes v.
pub fn put_big(s: &mut [u8], i: usize, v: u32)
    requires { 4 * i + 4 ≤ length s.old }
    ensures { s.new ≡ put_big s.old i v }
{
    let at = 4 * i;
    s[at..at + 4].copy_from_slice(&v.to_be_bytes());
}

// N words are written for a host, from index i on. One function for both byte orders would want a trait and two types, more than this loop.
pub fn store_big<const N: usize>(s: &mut [u8], i: usize, a: [u32; N])
    requires { 4 * (i + N) ≤ length s.old }
    ensures { Stored i N a.entry (big_words s.old) (big_words s.new) }
{
    for n in 0..N {
        put_big(s, i + n, a[n]);
    }
}
