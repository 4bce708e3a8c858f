//! The users whose lines are answered.

use bg_peers::{Users, UsersFault};
use std::alloc::Global;
use std::env;
use std::env::VarError;
use std::io::Write;
use std::rt::Env;

/// The environment variable that lists the users whose connections the control port serves: their names in
/// `/etc/passwd` or their numbers, separated by commas.
const OPERATORS_VARIABLE: &str = "BG_SWITCH_OPERATORS";

/// That the variable is set, and cannot be used.
#[derive(Clone, Copy, Debug, Drop, PartialEq, Eq)]
pub struct UnusableList;

/// The users that the environment lists; `None` if the variable is not set, so that all users are served. An error,
/// and a notice, if the variable cannot be read as a text, names no user, or has a word that is no user.
pub fn operator_users<R: Env + AllocGlobal, E: Write>(
    rt: &R,
    errors: &mut E,
) -> Result<Option<Users>, UnusableList> {
    match env::var(rt, OPERATORS_VARIABLE) {
        Ok(list) => match users_of(rt.alloc(), &list, errors) {
            Some(users) => Ok(Some(users)),
            None => Err(UnusableList),
        },
        Err(VarError::NotPresent) => Ok(None),
        Err(reason) => {
            let _ = writeln!(
                errors,
                "bg_switch: {OPERATORS_VARIABLE} can't be read: {reason}"
            );
            Err(UnusableList)
        }
    }
}

/// The users of a list; `None`, and a notice, if the list cannot be used.
fn users_of<E: Write>(alloc: Global, list: &str, errors: &mut E) -> Option<Users> {
    match Users::read(alloc, list) {
        Ok(users) => Some(users),
        Err(fault) => {
            write_fault(fault, errors);
            None
        }
    }
}

fn write_fault<E: Write>(fault: UsersFault, errors: &mut E) {
    let _ = writeln!(errors, "bg_switch: {OPERATORS_VARIABLE}: {fault}");
}
