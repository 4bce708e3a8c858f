//! The mode of the file of the control socket.
ghost use Rattle.std.specs.Prelude.{◌≡◌};
ghost use Rattle.bg_ports.specs.SocketModes.{mode_bits};

/// The mode whose octal digits are the decimal digits of this number; `None` if it has more than three digits, or one above
/// 7.
pub fn mode_bits(mode: u16) -> Option<u32>
    ensures { result ≡ mode_bits mode }
{
    let (user, group, others) = (mode / 100, mode / 10 % 10, mode % 10);
    if user > 7 || group > 7 || others > 7 {
        return None;
    }
    Some(u32::from(user) * 64 + u32::from(group) * 8 + u32::from(others))
}
