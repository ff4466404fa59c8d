// A word of a link file's bytes, the low byte first, and the letters at its end.
ghost use Rattle.std.specs.Prelude.{◌≡◌, ◌+◌, ◌≤◌, length};
ghost use Rattle.link_format.specs.Reading.{word_at, signed};

// The word of four bytes from `at` on, the low byte first. The callers have checked the length.
#[tactic(auto, unfolding(link_format::specs::Reading::word_at))]
pub fn word(bytes: &[u8], at: usize) -> u32
    requires { at + 4 ≤ length bytes.now }
    ensures { result ≡ word_at bytes.now at }
{
    u32::from_le_bytes([bytes[at], bytes[at + 1], bytes[at + 2], bytes[at + 3]])
}

// Whether the file is long enough for a trailer and ends with the letters RTLK.
#[tactic(auto, unfolding(link_format::specs::Reading::signed))]
pub fn is_signed(file: &[u8]) -> bool
    ensures { result ≡ signed file.now }
{
    file.len() >= 16 && file.ends_with(b"RTLK")
}
