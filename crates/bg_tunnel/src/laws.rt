//! The laws of a tunnel, over all calls of it.
ghost use Rattle.std.specs.Prelude.{List, ℕ};
ghost use Rattle.bg_tunnel.specs.Laws.{CountsBytes, EndsAfterAll, EndsInTime, HoldsFew, IsWholeIfShut, NeverStalls};
ghost use Rattle.bg_tunnel.specs.Laws.{PassesInOrder, StaysOver, WholeIsAll};
ghost use Rattle.bg_tunnel.specs.Runs.{TunnelCall};
ghost use Rattle.bg_tunnel.specs.Tunnels.{TunnelState};
ghost use Rattle.bg_tunnel.specs.declared.peer.Peer.{Peer};

/// What a peer took, followed by what waits for it, is what waited for it before, followed by all bytes that were accepted from the
/// other peer. So none is added, none is lost, and the order is kept.
pub fn bytes_pass_in_order()
    ensures { (peer : Peer) (calls : List TunnelCall) (old new : TunnelState) → PassesInOrder peer old calls new }
{}

/// If bytes of a peer are fed only while they are wanted, and at most `most` at once, then fewer than `WINDOW` and `most` wait for the
/// other peer, or no more than waited before.
pub fn the_window_bounds_what_waits()
    ensures { (most : ℕ) (peer : Peer) (calls : List TunnelCall) (old new : TunnelState)
        → HoldsFew most peer old calls new }
{}

/// If the end was passed on to a peer, then the input of the other peer has ended, and the peer took all bytes: those that waited as
/// the tunnel began, and all that were accepted from the other peer.
pub fn an_end_follows_all_bytes()
    ensures { (peer : Peer) (calls : List TunnelCall) (old new : TunnelState) → EndsAfterAll peer old calls new }
{}

/// A tunnel is whole exactly if both ends were passed on. Then each peer took all bytes of the other one.
pub fn a_whole_tunnel_passed_all()
    ensures exactly { (calls : List TunnelCall) (old new : TunnelState) → IsWholeIfShut old calls new }
    ensures all { (peer : Peer) (calls : List TunnelCall) (old new : TunnelState) → WholeIsAll peer old calls new }
{}

/// Once a tunnel is over, nothing changes any more: no byte of a peer is accepted, and none is taken.
pub fn an_end_stays()
    ensures { (peer : Peer) (calls : List TunnelCall) (old new : TunnelState) → StaysOver peer old calls new }
{}

/// While a tunnel is not over, bytes of a peer are to be read, bytes are to be written to a peer, or the end is to be passed on to one. So
/// its caller always has a connection to wait for.
pub fn a_tunnel_never_stalls()
    ensures { (calls : List TunnelCall) (old new : TunnelState) → NeverStalls old calls new }
{}

/// The count of a peer is the number of bytes that it took since the tunnel began, at most `u64::MAX`.
pub fn each_byte_counts_once()
    ensures { (peer : Peer) (calls : List TunnelCall) (old new : TunnelState) → CountsBytes peer old calls new }
{}

/// A look ends a tunnel that is not over exactly if the timeout has passed since the last byte that was accepted or taken. No empty
/// piece, no end of an input and no look counts as a byte.
pub fn a_tunnel_times_out_after_its_last_byte()
    ensures { (calls : List TunnelCall) (old new : TunnelState) (now : ℕ) → EndsInTime old calls new now }
{}
