// Ranges of bytes: added up, tested for zeros, filled and copied.
ghost use Rattle.std.specs.Prelude.{◌≡◌, ◌+◌, ◌≤◌, length, replicate};
ghost use Rattle.layout.specs.Sizes.{check_in_block};
ghost use Rattle.layout.specs.Bytes.{part, check, all_zero, put};

use crate::sizes;

// The check of the block at `at`: its bytes 0 to 509 added up, wrapping at 65,536.
pub fn check_of(s: &[u8], at: usize) -> u16
    requires { at + check_in_block ≤ length s.now }
    ensures { result ≡ check (part s.now at check_in_block) }
{
    s[at..at + sizes::CHECK_IN_BLOCK]
        .iter()
        .fold(0u16, |sum, &b| sum.wrapping_add(u16::from(b)))
}

// Whether the n bytes from `at` on are zero.
pub fn is_zero(s: &[u8], at: usize, n: usize) -> bool
    requires { at + n ≤ length s.now }
    ensures { result ≡ all_zero (part s.now at n) }
{
    s[at..at + n].iter().all(|&b| b == 0)
}

// The n bytes from `at` on become v.
pub fn fill(s: &mut [u8], at: usize, n: usize, v: u8)
    requires { at + n ≤ length s.old }
    ensures { s.new ≡ put s.old at (replicate n v) }
{
    s[at..at + n].fill(v);
}

// The n bytes from `at` on become those of `src` from `from` on.
pub fn copy(src: &[u8], from: usize, dst: &mut [u8], at: usize, n: usize)
    requires { (from + n ≤ length src.now) × (at + n ≤ length dst.old) }
    ensures { dst.new ≡ put dst.old at (part src.now from n) }
{
    // A for, since the archive asks a caller in C for no memmove, as `copy_from_slice` would.
    for i in 0..n {
        dst[at + i] = src[from + i];
    }
}
