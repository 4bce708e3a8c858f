//! The program's command line, as `clap` reads it.
ghost use Rattle.std.specs.Prelude.{◌≡◌, IfOk, false};
ghost use Rattle.clap.specs.Words.{app_of, kind_of};
ghost use Rattle.clap.specs.declared.builder.command.Command.TheViews.{out-Command as fields_of};
ghost use Rattle.bg_command_line.specs.Subcommands.{check_app, journal_app, program, replay_app, serve_app, top_app};

use crate::command_option::{CommandOption, OptionValue, with_options};
use crate::invocation::Flags;
use crate::serve_options::serve_options;
use clap::error::ErrorKind;
use clap::{Command, Error};
use std::alloc::{AllocError, Global};

/// The program's version.
const VERSION: &str = "0.1.0";

/// The notes in the help of `serve`.
const NOTES_ON_SERVING: &str = "\
One of --count and --forever has to be given, and not both. So has one of --workers and --concurrency.
--control, --control-socket or both have to be given.
With --count, any connection counts, a health check too, and one that sends nothing. Once the workers
of a port have taken all of theirs, the port is closed, and clients are refused at once.
With --forever, the workers take connections without a limit, up to a graceful shutdown.
The active port has --workers or --concurrency workers. The preview port has --preview-concurrency workers. Where
that isn't given, it has one with --workers, and with --concurrency an eighth of that number, but at least one.
--preview-concurrency has no effect without --preview.
With --listen, both of these ports are at each of its addresses, where whoever reaches them is served, without TLS.
:: has IPv6 addresses alone. An address can't stand beside 0.0.0.0 or :: of its family.
With --control-socket, who may write to the file may order. Its mode is --control-socket-mode, and its group
--control-socket-group. A file that an earlier run left there is replaced, and the file is removed at the end.
With --redispatch, a request for which the switch can't connect to an endpoint goes to another endpoint of the same
revision. Then --endpoint-limit is how many requests at a time an endpoint gets while another one of its revision is
free. It has no effect without --redispatch.
With --abort-on-close, a request ends once its client has ended its input. Without it, a client that ends its input
waits for its response, and its request ends only if it resets the connection.
At a graceful shutdown, a client that has sent nothing is let go after --shutdown-grace seconds; a request that
has come by then is answered. After --shutdown-timeout seconds, requests that still come or wait are dropped, and
responses that their clients have not taken. A request that is being served keeps its own timeouts.
With --error-pages, an answer of the switch itself has a short body with its status and reason: HTML if the client
accepts text/html, else text. Without it, such an answer has no body.
With --stream, a response is passed on to its client as it comes, whatever its length and however long it takes.
Without it, a response of up to 4 MiB is passed on once it is whole, and a longer one is answered 502.
--max-response-body is the most bytes of the body of a response with --stream: a response that says more is answered
502, and one that turns out to have more is cut off. --silence is how many seconds an endpoint may be silent
meanwhile. It has no effect without --stream or --upgrade.
With --stream, a request of more than --buffer bytes is passed on as it comes, too. Its connections, to the client
and to the endpoint, end after it. --max-request-body is the most bytes of its body. Without --stream, a body above
1 MiB is answered 413. --buffer, --max-request-body and --max-response-body need --stream.
With --forwarded, a request tells its endpoint where it comes from: X-Forwarded-For, X-Forwarded-Proto,
X-Forwarded-Host, Forwarded and X-Request-Id. What the client tells by these fields is dropped, unless
--trust-forwarded says that clients are proxies. It has no effect without --forwarded.
With --upgrade, a request that asks for another protocol, as a WebSocket does, is passed on as one that asks for it.
After a 101 of the endpoint, the connection is a tunnel until both sides end it, until no byte has come or gone for
--silence seconds, or until its request drains for too long. Without it, the response is one without the upgrade.
With --keep-alive, connections of clients and to endpoints are kept for further requests. --keep-alive-timeout,
--keep-alive-requests and --endpoint-keep-alive-timeout have no effect without it.
With --journal, an order is in the file before it is answered, and a start with a file that has orders goes on
where the last one ended.
With --count, a line quit ends the operators' side, not the workers': the program ends once both are
done. It then prints the report, and ends with status 0; 1 where the strategy has a fault or a port
can't be bound.
In the environment, BG_SWITCH_PATIENCE_SECONDS is how many seconds a request may take from its
connection on, and a response from the dial on, until it is whole: 1 to 3600; 60 where it isn't given.
With --stream, it is how many seconds an endpoint may be silent, in the place of a response's time, unless
--silence is given.";

/// The notes in the help of the program.
const NOTES: &str = "\
check has no words of its own. replay takes --seats N: how many requests can be open at once, 1 to 8;
4 where it isn't given. journal takes FILE: the file of a journal that no process has open. With --restart,
a journal that begins with the Rollout on standard input and the revision that is stable takes its place,
and FILE.1, or the first number that is free, becomes a copy of the old one. --ports PORTS, as 9001,9002, gives
that revision other ports, as many as there are replicas; it has no effect without --restart.
serve takes, on ports of 127.0.0.1:
  --active P   port of clients whose requests go to the active revision, 1 to 65535; has to be given
  --preview P  that of the revision under preview, 1 to 65535; no such port where it isn't given
  --listen ADDRESS
               IPv4 or IPv6 address at which these two ports are, as 0.0.0.0 or fd00::2, up to eight times;
               127.0.0.1 where it isn't given; the control port is at 127.0.0.1 alone
  --control P  port at which operators' lines are answered, 1 to 65535; has to be given,
               unless --control-socket is
  --control-socket PATH
               file of a Unix socket at which they are answered too; in the place of --control, or beside it
  --control-socket-mode MODE
               mode of that file, in octal digits; 600 where it isn't given
  --control-socket-group GROUP
               group of that file, by its name or number; that of the process where it isn't given
  --workers N  how many requests the active port forwards at a time, 1 to 7; has to be given,
               unless --concurrency is
  --concurrency N
               the same, 1 to 1023; in the place of --workers
  --preview-concurrency M
               how many requests the preview port forwards at a time, 1 to 1023; where it isn't given,
               1 with --workers, and with --concurrency an eighth of N, at least 1; it has no effect
               without --preview
  --threads N  how many event loops serve the clients of the active port, each in a thread of its own,
               1 to 64; as many as the machine has processors, but at most one for each four requests at
               a time, rounded up, where it isn't given
  --redispatch another endpoint of the same revision is asked if one can't be connected to
  --endpoint-limit M
               how many requests at a time an endpoint gets while another one of its revision is free,
               1 to 1023; twice an equal part of all requests at a time, but at most half of them, where it
               isn't given; it has no effect without --redispatch
  --endpoint-address ADDRESS
               IPv4 or IPv6 address at which the ports of endpoints are, as 127.0.0.2 or fd00::2; 127.0.0.1 where
               it isn't given
  --abort-on-close
               a request ends once its client has ended its input, not only once it has reset the connection
  --shutdown-grace S
               for how many seconds a graceful shutdown keeps clients that have sent nothing, 1 to 60;
               1 where it isn't given
  --shutdown-timeout S
               for how many seconds a graceful shutdown waits for requests to come and responses to be taken,
               1 to 3600; 60 where it isn't given
  --error-pages
               an answer of the switch itself has a short body with its status and reason
  --stream     a response is passed on to its client as it comes, whatever its length, and a request of more than
               --buffer bytes to its endpoint
  --buffer N   how many bytes of a request are held before it is passed on as it comes, 16384 to 1048576; 65536
               where it isn't given; it needs --stream
  --max-request-body N
               the most bytes of the body of a request with --stream, 65536 to 1099511627776; no limit where it
               isn't given; it needs --stream
  --max-response-body N
               the most bytes of the body of a response with --stream, 65536 to 1099511627776; no limit where it
               isn't given; it needs --stream
  --silence S  for how many seconds an endpoint may be silent, or a tunnel, 1 to 3600; as many as a response may
               take where it isn't given; it has no effect without --stream or --upgrade
  --forwarded  a request tells its endpoint where it comes from: X-Forwarded-For, X-Forwarded-Proto,
               X-Forwarded-Host, Forwarded and X-Request-Id
  --trust-forwarded
               clients are proxies: what they tell by these fields goes on; it has no effect without --forwarded
  --upgrade    a request that asks for another protocol, as a WebSocket does, is passed on so; after a 101 its
               connection is a tunnel
  --keep-alive connections of clients and to endpoints are kept for further requests
  --keep-alive-timeout S
               for how many seconds a client's connection is kept while no request comes, 1 to 3600; 75 where
               it isn't given; it has no effect without --keep-alive
  --keep-alive-requests N
               how many requests a client's connection carries at most, 1 to 1000000; 1000 where it isn't
               given; it has no effect without --keep-alive
  --endpoint-keep-alive-timeout S
               for how many seconds a connection to an endpoint is kept while no request needs it, 1 to 3600;
               60 where it isn't given; it has no effect without --keep-alive
  --journal FILE
               the database that keeps each order of operators before it is answered, and from which a start
               goes on; no such file where it isn't given
  --count K    how many connections each worker takes until it ends, 1 to 1000000; has to be given,
               unless --forever is; any connection counts, a health check too, and the port is
               closed after the last
  --forever    in the place of --count: the workers end at a graceful shutdown
A line quit ends the operators' side of serve, and with --count not the workers'.
The strategy comes on standard input of check, replay, serve and journal --restart, as
`kubectl get rollout NAME -o json` writes it.
Status: 0; 1 after a fault, and where the run ends early; 2 after words that are no order, and after
this help.";

/// `check`.
fn check_command<'a>(alloc: Global) -> Command<'a>
    ensures app { app_of result ≡ check_app }
    ensures local { (fields_of result).has_globals ≡ false }
{
    Command::new(alloc, "check").about(
        "Tells what the strategy on standard input means, a line for each setting, or its first fault",
    )
}

/// `replay [--seats N]`.
fn replay_command<'a>(alloc: Global) -> Result<Command<'a>, AllocError>
    ensures app { IfOk result (λ c. app_of c ≡ replay_app) }
    ensures local { IfOk result (λ c. (fields_of c).has_globals ≡ false) }
{
    let named = Command::new(alloc, "replay").about(
        "Answers the operator's lines that follow a line --- after the strategy, all on standard input",
    );
    let seats = CommandOption {
        name: "seats",
        value: OptionValue::UpTo(8),
        required: false,
        help: "How many requests can be open at once, 1 to 8; 4 where it isn't given",
    };
    with_options(alloc, named, &[seats])
}

/// `journal [--restart] [--ports PORTS] FILE`.
fn journal_command<'a>(alloc: Global) -> Result<Command<'a>, AllocError>
    ensures app { IfOk result (λ c. app_of c ≡ journal_app) }
    ensures local { IfOk result (λ c. (fields_of c).has_globals ≡ false) }
{
    let named = Command::new(alloc, "journal").about(
        "Judges a journal of serve, and writes the report of its end, or its first fault",
    );
    let restart = CommandOption {
        name: "restart",
        value: OptionValue::Nothing,
        required: false,
        help: "Put a new journal in its place, which begins with the Rollout on standard input and the stable revision",
    };
    let ports = CommandOption {
        name: "ports",
        value: OptionValue::Text("PORTS"),
        required: false,
        help: "With --restart: the ports of the stable revision from then on, as 9001,9002; those that it has where it isn't given",
    };
    let file = CommandOption {
        name: "file",
        value: OptionValue::Word("FILE"),
        required: true,
        help: "The file of the journal; no process may have it open",
    };
    with_options(alloc, named, &[restart, ports, file])
}

/// `serve --active P [--preview P] [--listen ADDRESS].. [--control-socket-mode MODE] [--control-socket-group GROUP]
/// [--preview-concurrency M] [--threads N] [--redispatch] [--endpoint-limit M] [--endpoint-address ADDRESS] [--abort-on-close]
/// [--shutdown-grace S] [--shutdown-timeout S] [--error-pages] [--stream] [--buffer N] [--max-request-body N]
/// [--max-response-body N] [--silence S] [--forwarded] [--trust-forwarded] [--upgrade] [--keep-alive] [--keep-alive-timeout S] [--keep-alive-requests N] [--endpoint-keep-alive-timeout S] [--journal FILE]`, with `--control P` or `--control-socket PATH` or both, `--workers N` or `--concurrency N`, and `--count K`
/// or `--forever`. The flags say which of each two is required.
fn serve_command<'a>(alloc: Global, flags: Flags) -> Result<Command<'a>, AllocError>
    ensures app { IfOk result (λ c. app_of c ≡ serve_app flags) }
    ensures local { IfOk result (λ c. (fields_of c).has_globals ≡ false) }
{
    let named = Command::new(alloc, "serve")
        .about("Forwards HTTP requests to the revisions of the strategy on standard input")
        .after_help(NOTES_ON_SERVING);
    with_options(alloc, named, &serve_options(flags))
}

/// The error of this kind for the words of `serve`.
pub fn error_of_serve<'a>(
    alloc: Global,
    kind: ErrorKind,
    message: &'a str,
) -> Result<Error, AllocError>
    ensures { IfOk result (λ e. kind_of e ≡ kind) }
{
    let flags = Flags {
        forever: true,
        concurrency: true,
        socket: true,
    };
    let mut command: Command<'a> = serve_command(alloc, flags)?.bin_name("bg_switch serve")?;
    command.error(kind, message)
}

/// `bg_switch`, without its subcommands.
fn top_command<'a>(alloc: Global) -> Command<'a>
    ensures { app_of result ≡ top_app }
{
    Command::new(alloc, "bg_switch")
        .about("A blue-green traffic switch for one rollout")
        .version(VERSION)
        .after_help(NOTES)
        .subcommand_required(true)
        .disable_help_subcommand(true)
}

/// `bg_switch check`, `bg_switch replay ..`, `bg_switch journal ..` and `bg_switch serve ..`; one of the four is required.
/// The flags are those of the words.
pub fn program_command<'a>(alloc: Global, flags: Flags) -> Result<Command<'a>, AllocError>
    ensures { IfOk result (λ c. app_of c ≡ program flags) }
{
    let mut subcommands = Vec::with_capacity(alloc, 4)?;
    subcommands.push(check_command(alloc))?;
    subcommands.push(replay_command(alloc)?)?;
    subcommands.push(journal_command(alloc)?)?;
    subcommands.push(serve_command(alloc, flags)?)?;
    top_command(alloc).subcommands(subcommands)
}
