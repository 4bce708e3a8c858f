//! Which connections are served.
ghost use Rattle.std.specs.Prelude.{◌≡◌, IfOk, Some, map};
ghost use Rattle.bg_control_port.specs.Admissions.{AreListed, AreServed, served, served_of, served_to_all};

use bg_peers::{PeerLookup, Users};
use bg_sockets::{receive_now, send_now};
use std::alloc::{AllocError, Global};
use std::net::TcpStream;

/// The reply to a connection of a user who is not served.
const NOT_ALLOWED: &[u8] = b"refused NotAllowed\n";

/// The number of bytes that are read of a connection before it is refused.
const FIRST_BYTES: usize = 4_096;

/// The users whose connections are served.
#[derive(Drop)]
pub struct Admission {
    alloc: Global,
    /// `None` stands for all users.
    operators: Option<Users>,
}

/// A connection that is served.
#[derive(Drop)]
pub struct Admitted {
    pub stream: TcpStream,
    /// Its user, if only listed users are served.
    pub user: Option<u32>,
}

impl Admission {
    /// The admission of these users; `None` stands for all users.
    pub fn new(alloc: Global, operators: Option<Users>) -> Admission
        ensures { result.operators ≡ operators }
    {
        Admission { alloc, operators }
    }

    /// Those of these connections that are served, in their order: all if all users are served, and otherwise those of
    /// which two reads of the look-up, one after the other, tell the same listed user ([`Users::confirmed`]). The others are
    /// told that they are not allowed, and closed. The only error is an allocation failure, after which none of them is
    /// served.
    pub fn admit<L: PeerLookup<TcpStream>>(
        &self,
        lookup: &mut L,
        arrived: Vec<TcpStream>,
    ) -> Result<Vec<Admitted>, AllocError>
        ensures listed { IfOk result (λ admitted. AreListed self.now.operators admitted.items) }
        ensures served { IfOk result (λ admitted.
            AreServed L.tells self.now.operators lookup.old lookup.new arrived.items admitted.items) }
    {
        match &self.operators {
            Some(operators) => self.admit_listed(operators, lookup, arrived),
            None => self.admit_all(arrived),
        }
    }

    fn admit_all(&self, arrived: Vec<TcpStream>) -> Result<Vec<Admitted>, AllocError>
        ensures { IfOk result (λ admitted. admitted.items ≡ map served_to_all arrived.items) }
    {
        arrived
            .into_iter()
            .map(|stream| Admitted { stream, user: None })
            .collect(self.alloc)
    }

    fn admit_listed<L: PeerLookup<TcpStream>>(
        &self,
        operators: &Users,
        lookup: &mut L,
        arrived: Vec<TcpStream>,
    ) -> Result<Vec<Admitted>, AllocError>
        ensures listed { IfOk result (λ admitted. AreListed (Some operators.now) admitted.items) }
        ensures served { IfOk result (λ admitted.
            AreServed L.tells (Some operators.now) lookup.old lookup.new arrived.items admitted.items) }
    {
        let users = operators.confirmed(self.alloc, lookup, &arrived)?;
        self.serve_confirmed(arrived, users)
    }

    /// Serves the connections that have a user, and refuses the others.
    fn serve_confirmed(
        &self,
        arrived: Vec<TcpStream>,
        users: Vec<Option<u32>>,
    ) -> Result<Vec<Admitted>, AllocError>
        ensures { IfOk result (λ admitted. admitted.items ≡ served_of arrived.items users.items) }
    {
        arrived
            .into_iter()
            .zip(users)
            .filter_map(|(stream, user)| serve_or_refuse(stream, user))
            .collect(self.alloc)
    }
}

/// The connection with its user; without a user, it is refused.
fn serve_or_refuse(stream: TcpStream, user: Option<u32>) -> Option<Admitted>
    ensures { result ≡ served stream user }
{
    if user.is_none() {
        refuse(&stream);
        return None;
    }
    Some(Admitted { stream, user })
}

/// Tells a connection that it is not served. What has arrived of its line is read before it is closed, since a
/// close beside unread bytes may keep the reply from its peer (RFC 2525 section 2.17).
fn refuse(stream: &TcpStream) {
    let mut first = [0u8; FIRST_BYTES];
    // a connection that cannot be told is closed all the same
    if send_now(stream, NOT_ALLOWED).is_ok() {
        let _ = receive_now(stream, &mut first);
    }
}
