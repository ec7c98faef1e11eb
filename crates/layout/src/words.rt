// Numbers in bytes: single bytes, and 16-bit numbers, low byte first.
ghost use Rattle.std.specs.Prelude.{◌≡◌, ◌+◌, ◌<◌, length};
ghost use Rattle.layout.specs.Bytes.{byte, word, put, word_bytes};

pub fn read_byte(s: &[u8], at: usize) -> usize
    requires { at < length s.now }
    ensures { result ≡ byte s.now at }
{
    usize::from(s[at])
}

pub fn read_word(s: &[u8], at: usize) -> u16
    requires { at + 1 < length s.now }
    ensures { result ≡ word s.now at }
{
    u16::from_le_bytes([s[at], s[at + 1]])
}

pub fn write_word(s: &mut [u8], at: usize, v: u16)
    requires { at + 1 < length s.old }
    ensures { s.new ≡ put s.old at (word_bytes v) }
{
    s[at..at + 2].copy_from_slice(&v.to_le_bytes());
}
