// Bits of a number.

#![tactic(auto)]

ghost use Rattle.std.specs.Prelude.{◌≡◌, ℕ, ◌<◌};
ghost use Rattle.bits.specs.Bit.{bit, set_bit};

// Is bit `s` set.
pub fn test_u64(m: u64, s: u32) -> bool
    requires { s < 64 }
    ensures { result ≡ bit m s }
{
    (m >> s) % 2 == 1
}

pub fn test_u16(m: u16, s: u32) -> bool
    requires { s < 16 }
    ensures { result ≡ bit m s }
{
    (m >> s) % 2 == 1
}

// The number with bit `s` set.
pub fn set_u64(m: u64, s: u32) -> u64
    requires { s < 64 }
    ensures { result ≡ set_bit m s }
{
    m | (1 << s)
}

pub fn set_u16(m: u16, s: u32) -> u16
    requires { s < 16 }
    ensures { result ≡ set_bit m s }
{
    m | (1 << s)
}
