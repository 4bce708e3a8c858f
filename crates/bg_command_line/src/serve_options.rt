//! The options of `serve`.
ghost use Rattle.std.specs.Prelude.{◌≡◌, fold, map};
ghost use Rattle.clap.specs.Words.{App, with_rule};
ghost use Rattle.bg_command_line.specs.OptionRules.{option_rule};
ghost use Rattle.bg_command_line.specs.Subcommands.{with_client_rules, with_connection_rules, with_endpoint_rules, with_control_rules, with_journal_rule, with_keep_alive_rules, with_message_rules, with_port_rules, with_worker_rules};

use crate::command_option::{CommandOption, OptionValue};
use crate::invocation::Flags;

const GREATEST_PORT: u64 = 65_535;

/// The greatest mode of a file, as a number whose digits are those of the mode.
const GREATEST_MODE: u64 = 777;

/// How many requests a port may forward at a time, or an endpoint get.
const MOST_REQUESTS: u64 = 1_023;

/// How many event loops the active port may have.
const MOST_THREADS: u64 = 64;

/// For how many seconds a shutdown may keep silent clients.
const MOST_GRACE: u64 = 60;

/// For how many seconds an idle connection may be kept, and how many a shutdown may take.
const MOST_SECONDS: u64 = 3_600;

/// How many connections a worker may take, or how many requests a connection may carry.
const MOST_COUNT: u64 = 1_000_000;

/// How few and how many bytes of a request may be held before it is passed on as it comes.
const LEAST_BUFFER: u64 = 16_384;

const MOST_BUFFER: u64 = 1_048_576;

/// How few and how many bytes the body of a message may be allowed.
const LEAST_BODY: u64 = 65_536;

const MOST_BODY: u64 = 1_099_511_627_776;

/// The options of `serve`: `--active P [--preview P] [--listen ADDRESS]..`; `--control P`, `--control-socket PATH`,
/// `[--control-socket-mode MODE]` and `[--control-socket-group GROUP]`; `--workers N`, `--concurrency N`,
/// `[--preview-concurrency M]` and `[--threads N]`; `[--redispatch] [--endpoint-limit M]
/// [--endpoint-address ADDRESS]`; `[--abort-on-close] [--shutdown-grace S] [--shutdown-timeout S] [--error-pages]`;
/// `[--stream] [--buffer N] [--max-request-body N] [--max-response-body N] [--silence S] [--forwarded] [--trust-forwarded] [--upgrade]`;
/// `[--keep-alive] [--keep-alive-timeout S] [--keep-alive-requests N] [--endpoint-keep-alive-timeout S]`; `[--journal FILE]`; `--count K` and `--forever`. The flags say which of `--control` and `--control-socket` is required, which of `--workers` and
/// `--concurrency`, and which of `--count` and `--forever`.
pub(crate) fn serve_options<'a>(flags: Flags) -> [CommandOption<'a>; 33]
    ensures { (before : App) → fold with_rule before (map option_rule result) ≡ with_connection_rules flags.forever
        (with_journal_rule (with_keep_alive_rules (with_message_rules (with_client_rules (with_endpoint_rules
        (with_worker_rules flags.concurrency (with_control_rules flags.socket (with_port_rules before)))))))) }
{
    [
        CommandOption {
            name: "active",
            value: OptionValue::UpTo(GREATEST_PORT),
            required: true,
            help: "The port of 127.0.0.1 whose requests go to the active revision, 1 to 65535; has to be given",
        },
        CommandOption {
            name: "preview",
            value: OptionValue::UpTo(GREATEST_PORT),
            required: false,
            help: "The port of 127.0.0.1 whose requests go to the revision under preview, 1 to 65535; none where it isn't given",
        },
        CommandOption {
            name: "listen",
            value: OptionValue::Texts("ADDRESS"),
            required: false,
            help: "The IPv4 or IPv6 address at which those two ports are, up to eight times; 127.0.0.1 where it isn't given; the control port is at 127.0.0.1 alone",
        },
        CommandOption {
            name: "control",
            value: OptionValue::UpTo(GREATEST_PORT),
            required: !flags.socket,
            help: "The port of 127.0.0.1 at which operators' lines are answered, 1 to 65535; has to be given, unless --control-socket is",
        },
        CommandOption {
            name: "control-socket",
            value: OptionValue::Text("PATH"),
            required: flags.socket,
            help: "The file of a Unix socket at which operators' lines are answered too; in the place of --control, or beside it",
        },
        CommandOption {
            name: "control-socket-mode",
            value: OptionValue::UpTo(GREATEST_MODE),
            required: false,
            help: "The mode of that file, in octal digits: who may write to it may order; 600 where it isn't given; has no effect without --control-socket",
        },
        CommandOption {
            name: "control-socket-group",
            value: OptionValue::Text("GROUP"),
            required: false,
            help: "The group of that file, by its name or number; that of the process where it isn't given; has no effect without --control-socket",
        },
        CommandOption {
            name: "workers",
            value: OptionValue::UpTo(7),
            required: !flags.concurrency,
            help: "How many workers the active port has, 1 to 7; each forwards one request at a time; has to be given, unless --concurrency is",
        },
        CommandOption {
            name: "concurrency",
            value: OptionValue::UpTo(MOST_REQUESTS),
            required: flags.concurrency,
            help: "How many requests the active port forwards at a time, 1 to 1023, each by a worker of its own; in the place of --workers",
        },
        CommandOption {
            name: "preview-concurrency",
            value: OptionValue::UpTo(MOST_REQUESTS),
            required: false,
            help: "How many requests the preview port forwards at a time, 1 to 1023; where it isn't given, 1 with --workers, and an eighth of --concurrency, at least 1; has no effect without --preview",
        },
        CommandOption {
            name: "threads",
            value: OptionValue::UpTo(MOST_THREADS),
            required: false,
            help: "How many event loops serve the clients of the active port, each in a thread of its own, 1 to 64; as many as the machine has processors, but at most one for each four requests at a time, rounded up, where it isn't given",
        },
        CommandOption {
            name: "redispatch",
            value: OptionValue::Nothing,
            required: false,
            help: "Another endpoint of the same revision is asked if one can't be connected to",
        },
        CommandOption {
            name: "endpoint-limit",
            value: OptionValue::UpTo(MOST_REQUESTS),
            required: false,
            help: "How many requests at a time an endpoint gets while another one of its revision is free, 1 to 1023; twice an equal part of all, but at most half, where it isn't given; has no effect without --redispatch",
        },
        CommandOption {
            name: "endpoint-address",
            value: OptionValue::Text("ADDRESS"),
            required: false,
            help: "The IPv4 or IPv6 address at which the ports of endpoints are; 127.0.0.1 where it isn't given",
        },
        CommandOption {
            name: "abort-on-close",
            value: OptionValue::Nothing,
            required: false,
            help: "A request ends once its client has ended its input, as if the client had reset the connection",
        },
        CommandOption {
            name: "shutdown-grace",
            value: OptionValue::UpTo(MOST_GRACE),
            required: false,
            help: "For how many seconds a graceful shutdown keeps clients that have sent nothing, 1 to 60; 1 where it isn't given",
        },
        CommandOption {
            name: "shutdown-timeout",
            value: OptionValue::UpTo(MOST_SECONDS),
            required: false,
            help: "For how many seconds a graceful shutdown waits for requests to come and responses to be taken, 1 to 3600; 60 where it isn't given",
        },
        CommandOption {
            name: "error-pages",
            value: OptionValue::Nothing,
            required: false,
            help: "A refusal has a short body with its status and reason: HTML if the client accepts it, else text",
        },
        CommandOption {
            name: "stream",
            value: OptionValue::Nothing,
            required: false,
            help: "A response is passed on to its client as it comes, whatever its length, and a request of more than --buffer bytes to its endpoint",
        },
        CommandOption {
            name: "buffer",
            value: OptionValue::Between(LEAST_BUFFER, MOST_BUFFER),
            required: false,
            help: "How many bytes of a request are held before it is passed on as it comes, 16384 to 1048576; 65536 where it isn't given; needs --stream",
        },
        CommandOption {
            name: "max-request-body",
            value: OptionValue::Between(LEAST_BODY, MOST_BODY),
            required: false,
            help: "The most bytes of the body of a request with --stream, 65536 to 1099511627776; no limit where it isn't given; needs --stream",
        },
        CommandOption {
            name: "max-response-body",
            value: OptionValue::Between(LEAST_BODY, MOST_BODY),
            required: false,
            help: "The most bytes of the body of a response with --stream, 65536 to 1099511627776; no limit where it isn't given; needs --stream",
        },
        CommandOption {
            name: "silence",
            value: OptionValue::UpTo(MOST_SECONDS),
            required: false,
            help: "For how many seconds an endpoint may be silent with --stream, or a tunnel with --upgrade, 1 to 3600; as many as a message may take where it isn't given",
        },
        CommandOption {
            name: "forwarded",
            value: OptionValue::Nothing,
            required: false,
            help: "Requests tell their endpoints where they come from: X-Forwarded-For and its kin, Forwarded, X-Request-Id",
        },
        CommandOption {
            name: "trust-forwarded",
            value: OptionValue::Nothing,
            required: false,
            help: "With --forwarded, what clients tell of that goes on, too: they are proxies",
        },
        CommandOption {
            name: "upgrade",
            value: OptionValue::Nothing,
            required: false,
            help: "A request that asks for another protocol, as a WebSocket does, is passed on so; after a 101 its connection is a tunnel",
        },
        CommandOption {
            name: "keep-alive",
            value: OptionValue::Nothing,
            required: false,
            help: "Connections of clients and to endpoints are kept for further requests",
        },
        CommandOption {
            name: "keep-alive-timeout",
            value: OptionValue::UpTo(MOST_SECONDS),
            required: false,
            help: "For how many seconds a client's connection is kept while no request comes, 1 to 3600; 75 where it isn't given; has no effect without --keep-alive",
        },
        CommandOption {
            name: "keep-alive-requests",
            value: OptionValue::UpTo(MOST_COUNT),
            required: false,
            help: "How many requests a client's connection carries at most, 1 to 1000000; 1000 where it isn't given; has no effect without --keep-alive",
        },
        CommandOption {
            name: "endpoint-keep-alive-timeout",
            value: OptionValue::UpTo(MOST_SECONDS),
            required: false,
            help: "For how many seconds a connection to an endpoint is kept while no request needs it, 1 to 3600; 60 where it isn't given; has no effect without --keep-alive",
        },
        CommandOption {
            name: "journal",
            value: OptionValue::Text("FILE"),
            required: false,
            help: "The database that keeps each order of operators before it is answered, and from which a start goes on; no such file where it isn't given",
        },
        CommandOption {
            name: "count",
            value: OptionValue::UpTo(MOST_COUNT),
            required: !flags.forever,
            help: "How many connections each worker takes before it ends, 1 to 1000000; has to be given, unless --forever is",
        },
        CommandOption {
            name: "forever",
            value: OptionValue::Nothing,
            required: flags.forever,
            help: "No limit in the place of --count: the workers end at a graceful shutdown",
        },
    ]
}
