//! The numbers that `clap` has accepted, in their ranges.
ghost use Rattle.std.specs.Prelude.{◌≡◌};
ghost use Rattle.clap.specs.Words.{IsUnsignedIn};
ghost use Rattle.bg_command_line.specs.ServeArguments.{IsBetween, number};

pub(crate) fn seats_in(text: &str) -> u8
    requires { IsUnsignedIn 1 8 text.now }
    ensures value { result ≡ number text.now }
    ensures range { IsBetween 1 8 result }
{
    text.parse::<u8>().unwrap()
}

/// A number from 1 to `MOST`.
pub(crate) fn u16_in<const MOST: u16>(text: &str) -> u16
    requires { IsUnsignedIn 1 MOST text.now }
    ensures value { result ≡ number text.now }
    ensures range { IsBetween 1 MOST result }
{
    text.parse::<u16>().unwrap()
}

pub(crate) fn grace_in(text: &str) -> u8
    requires { IsUnsignedIn 1 60 text.now }
    ensures value { result ≡ number text.now }
    ensures range { IsBetween 1 60 result }
{
    text.parse::<u8>().unwrap()
}

/// The most bytes of a body.
pub(crate) fn body_in(text: &str) -> u64
    requires { IsUnsignedIn 65536 1099511627776 text.now }
    ensures value { result ≡ number text.now }
    ensures range { IsBetween 65536 1099511627776 result }
{
    text.parse::<u64>().unwrap()
}

/// A number from `LEAST` to `MOST`.
pub(crate) fn u32_in<const LEAST: u32, const MOST: u32>(text: &str) -> u32
    requires { IsUnsignedIn LEAST MOST text.now }
    ensures value { result ≡ number text.now }
    ensures range { IsBetween LEAST MOST result }
{
    text.parse::<u32>().unwrap()
}
