// Bit fields in bytes, most significant bit first.
#![tactic(auto)]

ghost use Rattle.std.specs.Prelude.{◌≡◌, ◌+◌, ◌*◌, ◌/◌, ◌%◌, ◌^◌, ◌≤◌, ◌<◌, length};
ghost use Rattle.std.proofs.Math.Seq.{paste};
ghost use Rattle.wire.specs.Bits.{bits, unpack};
ghost use Rattle.wire.specs.Field.{field, placed};

// The `width` bits of s from bit `at`, as a number.
pub fn take_bits(s: &[u8], at: usize, width: usize) -> u32
    requires { (at + width ≤ 8 * length s.now) × (width ≤ 32) }
    ensures { result ≡ field s.now at width }
{
    // at / 8 and at % 8 rather than at + width, which may not fit a usize
    let first = at / 8;
    let used = at % 8 + width;
    let bytes = (used + 7) / 8;
    let end = first + bytes;
    let mut acc: u64 = 0;
    // by index: a loop over &s[first..end] is unrolled, and slower at so few bytes
    for i in first..end {
        acc = acc * 256 + u64::from(s[i]);
    }
    let after = bytes * 8 - used;
    ((acc >> after) % (1u64 << width)) as u32
}

// A frame's bytes and the bit of the next field.
#[derive(Clone, Copy)]
pub struct BitReader<'a> {
    pub frame: &'a [u8],
    pub at: usize,
}

impl<'a> BitReader<'a> {
    // A reader at the first bit.
    pub fn new(frame: &'a [u8]) -> BitReader<'a>
        ensures { (result.frame ≡ frame.entry) × (result.at ≡ 0) }
    {
        BitReader { frame, at: 0 }
    }

    // The next field, of `width` bits.
    pub fn take(self, width: usize) -> u32
        requires { (self.at + width ≤ 8 * length self.frame.now) × (width ≤ 32) }
        ensures { result ≡ field self.entry.frame.now self.entry.at width }
    {
        take_bits(self.frame, self.at, width)
    }

    // The reader after that field.
    pub fn after(self, width: usize) -> BitReader<'a>
        requires { self.at + width < 2 ^ 64 }
        ensures { (result.frame ≡ self.entry.frame) × (result.at ≡ self.entry.at + width) }
    {
        BitReader {
            frame: self.frame,
            at: self.at + width,
        }
    }
}

// 2 to the k.
pub fn pow2(k: usize) -> u32
    requires { k < 32 }
    ensures { result ≡ 2 ^ k }
{
    1u32 << k
}

// The n bits of value that stand above its c lowest.
fn cut(value: u32, c: usize, n: usize) -> u32
    requires { (c < 32) × (n < 32) }
    ensures { result ≡ value / 2 ^ c % 2 ^ n }
{
    let m = pow2(n);
    (value >> c) % m
}

// The byte b with its n bits from bit k replaced by those of x.
fn with_bits(b: u8, k: usize, n: usize, x: u32) -> u8
    requires { (k + n ≤ 8) × (x < 2 ^ n) }
    ensures { bits 8 result ≡ paste (bits 8 b) k (bits n x) n }
{
    let w = u32::from(b);
    let top = pow2(8 - k);
    let low = pow2(8 - k - n);
    (w / top * top + (x * low + w % low)) as u8
}

// The `width` low bits of value written at bit `at`; all other bits stay.
pub fn put_bits(s: &mut [u8], at: usize, width: usize, value: u32)
    requires width_bound { at + width ≤ 8 * length s.old }
    requires width_bound_2 { width ≤ 32 }
    ensures { unpack s.new ≡ placed s.old at width value }
{
    // byte q and bit k of it rather than one bit position, which may not fit a usize
    let mut q = at / 8;
    let mut k = at % 8;
    let mut left = width;
    while left > 0 {
        let n = left.min(8 - k);
        let x = cut(value, left - n, n);
        let b = with_bits(s[q], k, n, x);
        s[q] = b;
        left -= n;
        q += (k + n) / 8;
        k = (k + n) % 8;
    }
}
