//! Which loops have more than their share of the connections of a port.
ghost use Rattle.std.specs.Prelude.{◌≡◌, ◌-◌, ◌/◌, ◌&&◌, max, nat_lt};

/// Whether a loop has more connections than the mean, rounded down, of the other loops of its port. `loops` is the number of all of
/// them.
pub(crate) fn is_above_mean(own: u64, others: u64, loops: u64) -> bool
    ensures { result ≡ nat_lt 1 loops && nat_lt (others / max 1 (loops - 1)) own }
{
    loops > 1 && own > others / (loops - 1)
}
