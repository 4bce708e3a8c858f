//! Users that a list names.
ghost use Rattle.std.specs.Prelude.{◌≡◌, [], ◌∷◌, ◌++◌, OnErr, OnOk};
ghost use Rattle.bg_peers.specs.Users.{has_user, numbers};

use crate::names::{number_or_named, read_passwd};
use std::alloc::{AllocError, Global};
use std::fmt;

/// Users, by their numbers (`uid`).
#[derive(Debug, Drop)]
pub struct Users {
    numbers: Vec<u32>,
}

/// Why a list of users cannot be used.
#[derive(Clone, Copy, Debug, Drop, PartialEq, Eq)]
pub enum UsersFault<'a> {
    /// It names no user.
    Empty,
    /// This word is no number below 2^32 - 1, and no name in `/etc/passwd`.
    NoUser(&'a str),
    OutOfMemory,
}

impl fmt::Display for UsersFault<'_> {
    fn fmt<W: fmt::Write>(&self, f: &mut fmt::Formatter<W>) -> fmt::Result {
        match self {
            UsersFault::Empty => write!(f, "it names no user"),
            UsersFault::NoUser(word) => write!(f, "there is no user {word}"),
            UsersFault::OutOfMemory => write!(f, "an allocation failed"),
        }
    }
}

impl From<AllocError> for UsersFault<'_> {
    fn from(_: AllocError) -> Self {
        UsersFault::OutOfMemory
    }
}

impl Users {
    /// The users of a list: names of `/etc/passwd` and numbers, separated by commas, with spaces around them or
    /// without. The error is `Empty` if there is no word, `NoUser` with the first word that is no user, and
    /// `OutOfMemory` if an allocation fails.
    pub fn read(alloc: Global, list: &str) -> Result<Users, UsersFault> {
        let passwd = read_passwd(alloc)?;
        let mut users = Users::none(alloc);
        for word in list.split(',') {
            let word = word.trim();
            if !word.is_empty() {
                let number = number_or_named(&passwd, word).ok_or(UsersFault::NoUser(word))?;
                users.add(number)?;
            }
        }
        if users.numbers.is_empty() {
            return Err(UsersFault::Empty);
        }
        Ok(users)
    }

    fn none(alloc: Global) -> Users
        ensures { numbers result ≡ [] }
    {
        Users {
            numbers: Vec::new(alloc),
        }
    }

    fn add(&mut self, number: u32) -> Result<(), AllocError>
        ensures added { OnOk result (numbers self.new ≡ numbers self.old ++ number ∷ []) }
        ensures kept { OnErr result (numbers self.new ≡ numbers self.old) }
    {
        self.numbers.push(number)?;
        Ok(())
    }

    /// Whether a user is one of them.
    pub fn has_user(&self, user: u32) -> bool
        ensures { result ≡ has_user user self.now }
    {
        self.numbers.iter().any(|number| *number == user)
    }
}
