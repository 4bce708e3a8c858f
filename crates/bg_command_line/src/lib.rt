//! The program's settings: the words of its command line, and the variable of its environment.
#![tactic(auto)]

mod addresses;
mod arguments;
mod command_line;
mod command_option;
mod faults;
mod given_addresses;
mod invocation;
mod listen_addresses;
mod message_timeout;
mod numbers;
mod serve_options;
#[cfg(test)]
mod tests;
mod words;

pub use invocation::{
    Connections, ControlSocket, Invocation, InvocationFault, KeepAlive, ServeSettings,
};
pub use listen_addresses::{ListenAddresses, are_of_one_family};
pub use message_timeout::{MessageTimeout, TIMEOUT_VARIABLE};
pub use words::parse_command_line;
