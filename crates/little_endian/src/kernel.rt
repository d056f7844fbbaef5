// Numbers within bytes, at places that a slice can have. Past the end of the bytes they read 0.
ghost use Rattle.std.specs.Prelude.{◌≡◌, ◌+◌, ◌^◌, ◌<◌, get_or};
ghost use Rattle.little_endian.specs.LittleEndian.{little_endian};

// The byte at `at`, or 0 past the end.
pub fn byte(bytes: &[u8], at: usize) -> u64
    ensures { (result ≡ get_or bytes.now at 0) × (result < 256) }
{
    if at < bytes.len() {
        bytes[at] as u64
    } else {
        0
    }
}

// The number of 2 bytes at `at`.
pub fn word16(bytes: &[u8], at: usize) -> u64
    requires { at + 2 < 2 ^ 64 }
    ensures { (result ≡ little_endian 2 bytes.now at) × (result < 65536) }
{
    byte(bytes, at) + 256 * byte(bytes, at + 1)
}

// The number of 4 bytes at `at`.
pub fn word32(bytes: &[u8], at: usize) -> u64
    requires { at + 4 < 2 ^ 64 }
    ensures { (result ≡ little_endian 4 bytes.now at) × (result < 4294967296) }
{
    word16(bytes, at) + 65536 * word16(bytes, at + 2)
}

// The number of 8 bytes at `at`.
pub fn word64(bytes: &[u8], at: usize) -> u64
    requires { at + 8 < 2 ^ 64 }
    ensures { result ≡ little_endian 8 bytes.now at }
{
    word32(bytes, at) + 4294967296 * word32(bytes, at + 4)
}
