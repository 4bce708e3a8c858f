//! Reads the program's words.
ghost use Rattle.std.specs.Prelude.{◌≡◌, IfOk, IfErr, IfSome, map, codes, option_map, is_some, false, true, unwrap_or};
ghost use Rattle.std.specs.List.{list_any};
ghost use Rattle.clap.specs.Words.{IsUnsignedIn, first_of, found_of, rows_of};
ghost use Rattle.bg_command_line.specs.Addresses.{IsEndpointAddress};
ghost use Rattle.bg_command_line.specs.AcceptedRows.{HasWordsOfServe, IsIn, IsKnown};
ghost use Rattle.bg_command_line.specs.GivenWords.{flags_of, has_option, has_word, is_in_conflict, is_option, lacks_stream};
ghost use Rattle.bg_command_line.specs.Invocations.{IsAddressFault, IsFaultIn, IsInvocationIn, IsInvocationOf, NeedsStream};
ghost use Rattle.bg_command_line.specs.ServeArguments.{AreConnections, AreWorkers, IsBetween, IsControlSocket, IsKeepAlive, IsMode, default_preview_workers, has_flag, number, number_of};
ghost use Rattle.bg_command_line.specs.ListenAddresses.{AreListenAddresses, listed, listen_texts};

use crate::arguments::{argument_text, body_of, has_flag, required_text, u16_of, u16_or};
use crate::command_line::program_command;
use crate::faults::{address_fault, conflict_fault, fault_of, missing_stream_fault};
use crate::given_addresses::{GivenAddresses, addresses_of};
use crate::invocation::{
    Connections, ControlSocket, Flags, Invocation, InvocationFault, KeepAlive, ServeSettings,
};
use crate::numbers::{grace_in, seats_in, u16_in, u32_in};
use clap::ArgMatches;
use std::alloc::Global;

/// The number of seats of a replay if `--seats` is not given.
const DEFAULT_SEATS: u8 = 4;

/// The number of seconds for which a shutdown keeps silent clients if `--shutdown-grace` is not given.
const DEFAULT_GRACE: u8 = 1;

/// The number of seconds for which a shutdown waits for clients if `--shutdown-timeout` is not given.
const DEFAULT_SHUTDOWN_SECONDS: u16 = 60;

/// The mode of the file of the control socket if `--control-socket-mode` is not given: only its owner may open it.
const DEFAULT_MODE: u16 = 600;

/// For how many seconds an idle connection of a client is kept if `--keep-alive-timeout` is not given.
const DEFAULT_KEPT_SECONDS: u16 = 75;

/// For how many seconds an idle connection to an endpoint is kept if `--endpoint-keep-alive-timeout` is not given.
const DEFAULT_ENDPOINT_KEPT_SECONDS: u16 = 60;

/// How many requests a connection of a client carries if `--keep-alive-requests` is not given.
const DEFAULT_KEPT_REQUESTS: u32 = 1_000;

/// Reads the program's words. The first word is the program's name. The others are `check`; `replay
/// [--seats N]` with N from 1 to 8, and 4 seats if no number is given; `journal [--restart] [--ports PORTS] FILE`; or `serve --active P [--preview
/// P]` with `--control P` or `--control-socket PATH` or both, with ports from 1 to 65535, either `--workers N` with N from 1 to 7 or `--concurrency N`
/// with N from 1 to 1023, and either `--count K` with K from 1 to 1,000,000 or `--forever`. `serve` also takes
/// `--preview-concurrency M` and `--endpoint-limit M` with M from 1 to 1023, `--threads N` with N from 1 to 64,
/// `--redispatch`, `--endpoint-address ADDRESS`, `--listen ADDRESS` up to eight times, `--abort-on-close`, `--error-pages`, `--stream`,
/// `--buffer N` with N from 16,384 to 1,048,576, `--max-request-body N` and `--max-response-body N` with N from 65,536 to
/// 1,099,511,627,776, which need `--stream`,
/// `--silence S` with S from 1 to 3,600, `--forwarded`, `--trust-forwarded`, `--upgrade`,
/// `--shutdown-grace S` with S from 1 to 60, `--shutdown-timeout S` with S from 1 to 3,600,
/// `--control-socket-mode MODE` with MODE from 1 to 777, `--control-socket-group GROUP`, `--keep-alive`,
/// `--keep-alive-timeout S` and `--endpoint-keep-alive-timeout S` with S from 1 to 3,600, `--keep-alive-requests N` with N from
/// 1 to 1,000,000, and `--journal FILE`. A value may also follow its option after `=`, in the same word.
///
/// The error is `Words` only if `clap` refuses the words, if they ask for help or for the version, if
/// both `--count` and `--forever` are given, or both `--workers` and `--concurrency`, if `--buffer`, `--max-request-body` or
/// `--max-response-body` is given without `--stream`, or if an ADDRESS is no IPv4 or IPv6 address (RFC 4291 section 2.2), if that
/// of `--endpoint-address` is 0.0.0.0 or `::`, or if one of `--listen` is the same as one before, is 0.0.0.0 or `::` beside another
/// one of its family, or is the ninth. It is `OutOfMemory` if an allocation fails.
pub fn parse_command_line<'a>(
    alloc: Global,
    words: &'a [&'a str],
) -> Result<Invocation<'a>, InvocationFault>
    ensures ok { IfOk result (IsInvocationIn (map (λ w. w.now) words.now)) }
    ensures streams { IfOk result NeedsStream }
    ensures fault { IfErr result (IsFaultIn (map (λ w. w.now) words.now)) }
{
    let flags = flags_in(words);
    let command = program_command(alloc, flags)?;
    let matches = match command.try_get_matches_from(words) {
        Ok(matches) => matches,
        Err(error) => return Err(fault_of(error)),
    };
    let (name, inner) = matches.subcommand().unwrap();
    if is_in_conflict(flags, inner) {
        Err(conflict_fault(alloc, inner))
    } else if lacks_stream(inner) {
        Err(missing_stream_fault(alloc, inner))
    } else {
        invocation_of(alloc, flags, name, inner)
    }
}

/// The flags among the words after the program's name.
fn flags_in(words: &[&str]) -> Flags
    ensures { result ≡ flags_of (map (λ w. w.now) words.now) }
{
    Flags {
        forever: has_word("--forever", words),
        concurrency: has_option("--concurrency", "--concurrency=", words),
        socket: has_option("--control-socket", "--control-socket=", words),
    }
}

/// Whether one of the words after the program's name is this one.
fn has_word(word: &str, words: &[&str]) -> bool
    ensures { result ≡ has_word word.now (map (λ w. w.now) words.now) }
{
    match words.get(1..) {
        Some(arguments) => arguments.contains(&word),
        None => false,
    }
}

/// Whether the words after the program's name have an option, in either of its forms: the option itself, whose value is the
/// next word, or a word that begins with `start`, the option and `=`.
fn has_option(option: &str, start: &str, words: &[&str]) -> bool
    ensures { result ≡ has_option option.now start.now (map (λ w. w.now) words.now) }
{
    match words.get(1..) {
        Some(arguments) => have_option(option, start, arguments),
        None => false,
    }
}

fn have_option(option: &str, start: &str, arguments: &[&str]) -> bool
    ensures { result ≡ list_any (λ w. is_option option.now start.now w.now) arguments.now }
{
    arguments.iter().any(|word| is_option(option, start, word))
}

/// Whether a word is an option, whose value is the next word, or begins with the option and `=`.
fn is_option(option: &str, start: &str, word: &str) -> bool
    ensures { result ≡ is_option option.now start.now word.now }
{
    word == option || word.starts_with(start)
}

/// Whether `--count` is given together with `--forever`, or `--workers` together with `--concurrency`.
fn is_in_conflict(flags: Flags, matches: &ArgMatches) -> bool
    ensures { result ≡ is_in_conflict flags (rows_of (found_of matches.now)) }
{
    flags.forever && argument_text(matches, "count").is_some()
        || argument_text(matches, "concurrency").is_some()
            && argument_text(matches, "workers").is_some()
}

/// Whether `--buffer`, `--max-request-body` or `--max-response-body` is given without `--stream`, which each of them needs.
fn lacks_stream(matches: &ArgMatches) -> bool
    ensures { result ≡ lacks_stream (rows_of (found_of matches.now)) }
{
    !has_flag(matches, "stream")
        && (argument_text(matches, "buffer").is_some()
            || argument_text(matches, "max-request-body").is_some()
            || argument_text(matches, "max-response-body").is_some())
}

fn invocation_of<'a>(
    alloc: Global,
    flags: Flags,
    name: &str,
    matches: &ArgMatches<'a>,
) -> Result<Invocation<'a>, InvocationFault>
    requires { IsKnown flags name.now (rows_of (found_of matches.now)) }
    ensures ok { IfOk result (IsInvocationOf flags name.now (rows_of (found_of matches.now))) }
    ensures fault { IfErr result (IsAddressFault (rows_of (found_of matches.now))) }
{
    if name == "check" {
        Ok(Invocation::Check)
    } else if name == "replay" {
        Ok(Invocation::Replay {
            seats: seats_of(matches),
        })
    } else if name == "journal" {
        let path = required_text(matches, "file");
        if has_flag(matches, "restart") {
            let ports = argument_text(matches, "ports");
            Ok(Invocation::RestartJournal { path, ports })
        } else {
            Ok(Invocation::Journal { path })
        }
    } else {
        match addresses_of(matches) {
            Ok(addresses) => Ok(serve_of(flags, addresses, matches)),
            Err(bad) => Err(address_fault(alloc, bad)),
        }
    }
}

/// The number of seats of a replay.
fn seats_of(matches: &ArgMatches) -> u8
    requires { IsIn 1 8 (codes "seats") (rows_of (found_of matches.now)) }
    ensures value { result ≡ unwrap_or (number_of (codes "seats") (rows_of (found_of matches.now))) 4 }
    ensures range { IsBetween 1 8 result }
{
    match argument_text(matches, "seats") {
        Some(text) => seats_in(text),
        None => DEFAULT_SEATS,
    }
}

fn serve_of<'a>(flags: Flags, addresses: GivenAddresses, matches: &ArgMatches<'a>) -> Invocation<'a>
    requires words { HasWordsOfServe flags (rows_of (found_of matches.now)) }
    requires endpoint { IsEndpointAddress (rows_of (found_of matches.now)) addresses.endpoint }
    requires listen { AreListenAddresses (listen_texts (rows_of (found_of matches.now))) (listed addresses.listen) }
    ensures { IsInvocationOf flags (codes "serve") (rows_of (found_of matches.now)) result }
{
    let workers = workers_of(flags.concurrency, matches);
    Invocation::Serve(ServeSettings {
        active: u16_in::<65535>(required_text(matches, "active")),
        preview: u16_of::<65535>(matches, "preview"),
        listen: addresses.listen,
        control: u16_of::<65535>(matches, "control"),
        control_socket: control_socket_of(matches),
        workers,
        preview_workers: preview_workers_of(flags.concurrency, workers, matches),
        threads: u16_of::<64>(matches, "threads"),
        redispatch: has_flag(matches, "redispatch"),
        endpoint_limit: u16_of::<1023>(matches, "endpoint-limit"),
        endpoint_address: addresses.endpoint,
        abort_on_close: has_flag(matches, "abort-on-close"),
        shutdown_grace: shutdown_grace_of(matches),
        shutdown_timeout: u16_or::<3600>(matches, "shutdown-timeout", DEFAULT_SHUTDOWN_SECONDS),
        error_pages: has_flag(matches, "error-pages"),
        stream: has_flag(matches, "stream"),
        buffer: buffer_of(matches),
        max_request_body: body_of(matches, "max-request-body"),
        max_response_body: body_of(matches, "max-response-body"),
        silence: u16_of::<3600>(matches, "silence"),
        forwarded: has_flag(matches, "forwarded"),
        trust_forwarded: has_flag(matches, "trust-forwarded"),
        upgrade: has_flag(matches, "upgrade"),
        keep_alive: keep_alive_of(matches),
        journal: argument_text(matches, "journal"),
        connections: connections_of(flags.forever, matches),
    })
}

fn control_socket_of<'a>(matches: &ArgMatches<'a>) -> Option<ControlSocket<'a>>
    requires { IsIn 1 777 (codes "control-socket-mode") (rows_of (found_of matches.now)) }
    ensures { IsControlSocket (rows_of (found_of matches.now)) result }
{
    match argument_text(matches, "control-socket") {
        Some(path) => Some(ControlSocket {
            path,
            mode: mode_of(matches),
            group: argument_text(matches, "control-socket-group"),
        }),
        None => None,
    }
}

/// The mode of the file of the control socket.
fn mode_of(matches: &ArgMatches) -> u16
    requires { IsIn 1 777 (codes "control-socket-mode") (rows_of (found_of matches.now)) }
    ensures { IsMode (rows_of (found_of matches.now)) result }
{
    u16_or::<777>(matches, "control-socket-mode", DEFAULT_MODE)
}

fn workers_of(concurrency: bool, matches: &ArgMatches) -> u16
    requires workers { IsIn 1 7 (codes "workers") (rows_of (found_of matches.now)) }
    requires concurrency { IsIn 1 1023 (codes "concurrency") (rows_of (found_of matches.now)) }
    requires few { concurrency ≡ false → is_some (first_of (codes "workers") (rows_of (found_of matches.now))) ≡ true }
    requires many { concurrency ≡ true → is_some (first_of (codes "concurrency") (rows_of (found_of matches.now))) ≡ true }
    ensures workers { AreWorkers concurrency (rows_of (found_of matches.now)) result }
    ensures range { IsBetween 1 1023 result }
{
    if concurrency {
        u16_in::<1023>(required_text(matches, "concurrency"))
    } else {
        u16_in::<7>(required_text(matches, "workers"))
    }
}

/// The number of workers of the preview port, where the active port has `workers`.
fn preview_workers_of(concurrency: bool, workers: u16, matches: &ArgMatches) -> u16
    requires given { IsIn 1 1023 (codes "preview-concurrency") (rows_of (found_of matches.now)) }
    requires workers { IsBetween 1 1023 workers }
    ensures value { result ≡ unwrap_or (number_of (codes "preview-concurrency") (rows_of (found_of matches.now)))
        (default_preview_workers concurrency workers) }
    ensures range { IsBetween 1 1023 result }
{
    match argument_text(matches, "preview-concurrency") {
        Some(text) => u16_in::<1023>(text),
        None => default_preview_workers(concurrency, workers),
    }
}

/// The number of workers of the preview port if the words do not give it.
fn default_preview_workers(concurrency: bool, workers: u16) -> u16
    requires { IsBetween 1 1023 workers }
    ensures value { result ≡ default_preview_workers concurrency workers }
    ensures range { IsBetween 1 1023 result }
{
    if concurrency { (workers / 8).max(1) } else { 1 }
}

/// For how many seconds a shutdown keeps silent clients.
fn shutdown_grace_of(matches: &ArgMatches) -> u8
    requires { IsIn 1 60 (codes "shutdown-grace") (rows_of (found_of matches.now)) }
    ensures value { result ≡ unwrap_or (number_of (codes "shutdown-grace") (rows_of (found_of matches.now))) 1 }
    ensures range { IsBetween 1 60 result }
{
    match argument_text(matches, "shutdown-grace") {
        Some(text) => grace_in(text),
        None => DEFAULT_GRACE,
    }
}

/// How many bytes of a request are held before it is passed on as it comes, if that is given.
fn buffer_of(matches: &ArgMatches) -> Option<u32>
    requires { IsIn 16384 1048576 (codes "buffer") (rows_of (found_of matches.now)) }
    ensures value { result ≡ number_of (codes "buffer") (rows_of (found_of matches.now)) }
    ensures range { IfSome result (IsBetween 16384 1048576) }
{
    match argument_text(matches, "buffer") {
        Some(text) => Some(u32_in::<16384, 1048576>(text)),
        None => None,
    }
}

/// How connections are kept for further requests, if they are.
fn keep_alive_of(matches: &ArgMatches) -> Option<KeepAlive>
    requires timeout { IsIn 1 3600 (codes "keep-alive-timeout") (rows_of (found_of matches.now)) }
    requires requests { IsIn 1 1000000 (codes "keep-alive-requests") (rows_of (found_of matches.now)) }
    requires endpoint { IsIn 1 3600 (codes "endpoint-keep-alive-timeout") (rows_of (found_of matches.now)) }
    ensures { IsKeepAlive (rows_of (found_of matches.now)) result }
{
    if has_flag(matches, "keep-alive") {
        Some(KeepAlive {
            seconds: u16_or::<3600>(matches, "keep-alive-timeout", DEFAULT_KEPT_SECONDS),
            requests: kept_requests_of(matches),
            endpoint_seconds: u16_or::<3600>(
                matches,
                "endpoint-keep-alive-timeout",
                DEFAULT_ENDPOINT_KEPT_SECONDS,
            ),
        })
    } else {
        None
    }
}

/// How many requests a connection of a client carries.
fn kept_requests_of(matches: &ArgMatches) -> u32
    requires { IsIn 1 1000000 (codes "keep-alive-requests") (rows_of (found_of matches.now)) }
    ensures value { result ≡ unwrap_or (number_of (codes "keep-alive-requests") (rows_of (found_of matches.now))) 1000 }
    ensures range { IsBetween 1 1000000 result }
{
    match argument_text(matches, "keep-alive-requests") {
        Some(text) => u32_in::<1, 1000000>(text),
        None => DEFAULT_KEPT_REQUESTS,
    }
}

fn connections_of(forever: bool, matches: &ArgMatches) -> Connections
    requires count { IsIn 1 1000000 (codes "count") (rows_of (found_of matches.now)) }
    requires given { forever ≡ false → is_some (first_of (codes "count") (rows_of (found_of matches.now))) ≡ true }
    ensures { AreConnections forever (rows_of (found_of matches.now)) result }
{
    if forever {
        Connections::Forever
    } else {
        Connections::Count(u32_in::<1, 1000000>(required_text(matches, "count")))
    }
}
