//! What the arguments ask for.

ghost use Rattle.std.specs.Prelude.{◌≡◌, map, option_map, string_bytes, None};
ghost use Rattle.std.specs.Char.{is_ascii_digit};
ghost use Rattle.std.specs.List.{list_all};
ghost use Rattle.replay_script.specs.Word.{number_of};
ghost use Rattle.collector_command.specs.Task.{at_least, is_flag, is_option, is_whole, none_given, on_file, once, option_of, options_from, options_view, task_of, task_view, up_to, with_bytes, with_flag, with_text, with_value};

/// What `--help` prints.
pub const HELP: &str =
    "trace_collector collects OTLP traces of many tenants. It serves them, or replays a script of events.

usage: trace_collector replay SETTINGS
       trace_collector check SETTINGS
       trace_collector serve SETTINGS [--audit] [--verbose] [--connections N] [--senders N]
                       [--client-timeout MS] [--request-timeout MS] [--back-end-timeout MS]
                       [--body-memory BYTES] [--queue-bytes BYTES]
                       [--admin HOST:PORT [--admin-token-file FILE]]
       trace_collector --help | --version

  replay SETTINGS  runs the script on standard input, one command a line, under the settings in that
                   TOML file, and prints the outcome of each command
  serve SETTINGS   receives traces over HTTP and sends sampled ones to the tenants' back ends, until
                   standard input ends and everything is sent. Standard input takes commands:
                   `report NAME` prints that tenant's counters, `add PATH` adds the tenant of the
                   table [[tenant]] in that file, and `retire NAME` removes a tenant after its spans
                   are sent. At the end it prints the counters of all tenants
  check SETTINGS   prints the first fault of that TOML file, or the settings in force; names keys
                   that no setting has
  --help           prints this text
  --version        prints the version

Options of `serve`, after SETTINGS, in any order, each at most once:
  --audit                keeps a log of every event in memory, and prints `audit SHARD ENTRIES` for
                         each shard at the end
  --verbose              writes to standard error the addresses, ignored input lines, failing back
                         ends, the progress of the end, and the cause of a failure
  --connections N        serves N connections at a time, 1 to 65536; by default, the setting receivers
  --senders N            sends N batches at a time, 1 to 4096; by default, the setting senders
  --client-timeout MS    closes a client's connection that is idle for MS milliseconds, 1 to
                         4294967295; by default, never
  --request-timeout MS   closes a client's connection if a request is incomplete MS milliseconds after
                         its first byte, or after `100 Continue`, 1 to 4294967295; by default, never
  --back-end-timeout MS  an export attempt fails, and is retried, if the whole response takes longer
                         than MS milliseconds, 1 to 4294967295; by default, it waits
  --body-memory BYTES    responds with 503 to a request if its body and those of all other connections
                         exceed BYTES, 20971520 or more; by default, there is no limit
  --queue-bytes BYTES    drops a batch, and counts its spans in queue_full, if the tenant's batches
                         that wait for their first attempt would exceed BYTES, 1 or more. Batches of
                         a drain are not dropped. By default, only their number is limited
  --admin HOST:PORT      opens the admin port: GET /, /metrics, /healthz, /readyz, /tenants and
                         /tenants/NAME, POST /tenants and /drain, DELETE /tenants/NAME. Standard input
                         is then not read, and POST /drain ends the service
  --admin-token-file FILE
                         expects `Authorization: Bearer TOKEN` at the admin port, except at /,
                         /healthz and /readyz. FILE has one line of 16 or more letters, digits,
                         - . _ ~ + / with = at its end alone. Without it, HOST must be a loopback
                         address

The lines of a script:
  post NAME MOMENT HEX   the tenant gets a request body in protobuf, at a time in milliseconds;
                         prints `reply NAME STATUS HEX`
  turn SHARD MOMENT      a worker polls that shard for a job;
                         prints `job NAME TICKET HEX`, `worked NAME` or `idle SHARD`
  answer NAME MOMENT TICKET WORD STATUS RETRY HEX
                         the tenant's back end responds to the job of that ticket: a status of 100 to
                         999, the seconds of Retry-After and a body, or `failed - -`. WORD, below 2^32,
                         is the random number for the delay before the next attempt;
                         prints `done NAME` or `refused NAME 21`
  report NAME MOMENT     prints `report NAME` and the tenant's counters
  drain NAME MOMENT      the tenant accepts no more spans and sends all it holds; prints `done NAME`
  add HEX                adds the tenant of the table [[tenant]] in that settings document;
                         prints `added NAME NUMBER` or `refused add N`
  retire NAME MOMENT     removes a tenant that was drained and holds no span; prints `report NAME` and
                         its last counters, or `refused NAME 26`

Bytes are hexadecimal digits. `-` stands for no bytes and for absent seconds. Empty lines and lines
that begin with `#` are skipped.
Exit statuses: 0 success; 1 a fault of the settings, the script, the input or the output; 2 wrong
usage; 3 an allocation failure.";

/// The version that `--version` prints and metrics tell.
pub const VERSION: &str = "0.1.0";

/// So many connections can be asked for.
const MOST_CONNECTIONS: u32 = 65_536;

/// So many senders can be asked for.
const MOST_SENDERS: u32 = 4_096;

/// So many bytes can be asked for at least, which the longest body has.
const LEAST_BODY_MEMORY: u64 = 20_971_520;

/// A number has at most so many digits, so that it is below 2^64.
const MAX_DIGITS: usize = 19;

/// No option of `serve`.
const NONE_GIVEN: ServeOptions<'static> = ServeOptions {
    audit: false,
    verbose: false,
    connections: None,
    senders: None,
    client_timeout: None,
    request_timeout: None,
    back_end_timeout: None,
    body_memory: None,
    queue_bytes: None,
    admin: None,
    admin_token_file: None,
};

/// How the collector serves, beside its settings.
#[derive(Clone, Copy, Debug, PartialEq, Eq)]
pub struct ServeOptions<'a> {
    /// Its logs keep all.
    pub audit: bool,
    /// It tells of its course.
    pub verbose: bool,
    /// So many connections are served at a time, from 1 to 65,536.
    pub connections: Option<u32>,
    /// So many jobs are posted at a time, from 1 to 4,096.
    pub senders: Option<u32>,
    /// So many milliseconds, from 1, a client's connection may rest.
    pub client_timeout: Option<u32>,
    /// So many milliseconds, from 1, a client's request may take.
    pub request_timeout: Option<u32>,
    /// So many milliseconds, from 1, a whole attempt at a back end may take.
    pub back_end_timeout: Option<u32>,
    /// So many bytes, from 20,971,520, clients' bodies that are on their way may have together.
    pub body_memory: Option<u64>,
    /// So many bytes, from 1, the batches of a tenant may have together while they wait to be sent.
    pub queue_bytes: Option<u64>,
    /// The admin port has this address.
    pub admin: Option<&'a str>,
    /// The admin port asks for the token in this file.
    pub admin_token_file: Option<&'a str>,
}

/// What the program is to do.
#[derive(Clone, Copy, Debug, PartialEq, Eq)]
pub enum Task<'a> {
    /// The script on standard input is replayed under the settings in this file.
    Replay {
        settings: &'a str,
    },
    /// The collector serves under the settings in this file.
    Serve {
        settings: &'a str,
        options: ServeOptions<'a>,
    },
    /// The settings in this file are checked.
    Check {
        settings: &'a str,
    },
    /// The help is printed.
    Help,
    /// The version is printed.
    Version,
}

/// What these arguments ask for, without the program's name, or nothing that the program does.
pub fn asked_task(args: &[String]) -> Option<Task<'_>>
    ensures { option_map task_view result ≡ task_of (map string_bytes args.now) }
{
    match args {
        [] => None,
        [word] => option(word.as_str()),
        [command, path, words @ ..] => on_file(command.as_str(), path.as_str(), words),
    }
}

/// What a command asks for of the file of this path, with these words behind it.
fn on_file<'a>(command: &str, path: &'a str, words: &'a [String]) -> Option<Task<'a>>
    ensures { option_map task_view result ≡ on_file command.now path.now
        (map string_bytes words.now) }
{
    if command == "serve" {
        if is_option(path) {
            return None;
        }
        let options = serve_options(words)?;
        return Some(Task::Serve {
            settings: path,
            options,
        });
    }
    if !words.is_empty() {
        return None;
    }
    if command == "replay" {
        Some(Task::Replay { settings: path })
    } else if command == "check" {
        Some(Task::Check { settings: path })
    } else {
        None
    }
}

/// Whether an option stands where the path of a file to serve is to stand.
fn is_option(path: &str) -> bool
    ensures { result ≡ is_option path.now }
{
    matches!(path.as_bytes(), [b'-', b'-', ..])
}

/// What a word alone asks for.
fn option(word: &str) -> Option<Task<'_>>
    ensures { option_map task_view result ≡ option_of word.now }
{
    if word == "--help" {
        Some(Task::Help)
    } else if word == "--version" {
        Some(Task::Version)
    } else {
        None
    }
}

/// What is given with all options that these words spell, in any order, where it is whole.
fn serve_options<'a>(words: &'a [String]) -> Option<ServeOptions<'a>>
    ensures { option_map options_view result ≡ options_from none_given None
        (map string_bytes words.entry.now) }
{
    let mut given = NONE_GIVEN;
    let mut left = words;
    while let [word, behind @ ..] = left {
        if is_flag(word.as_str()) {
            given = with_flag(given, word.as_str())?;
            left = behind;
        } else {
            let [value, behind @ ..] = behind else {
                return None;
            };
            given = with_value(given, word.as_str(), value.as_str())?;
            left = behind;
        }
    }
    if is_whole(&given) { Some(given) } else { None }
}

/// Whether what is given lacks nothing: a file with a token needs an admin port.
fn is_whole(given: &ServeOptions<'_>) -> bool
    ensures { result ≡ is_whole (options_view given.now) }
{
    given.admin_token_file.is_none() || given.admin.is_some()
}

/// Whether it is an option that has no value.
fn is_flag(word: &str) -> bool
    ensures { result ≡ is_flag word.now }
{
    word == "--audit" || word == "--verbose"
}

/// What is given with such an option more, which may stand once.
fn with_flag<'a>(given: ServeOptions<'a>, word: &str) -> Option<ServeOptions<'a>>
    ensures { option_map options_view result ≡ with_flag (options_view given.entry) word.now }
{
    if word == "--audit" && !given.audit {
        Some(ServeOptions {
            audit: true,
            ..given
        })
    } else if word == "--verbose" && !given.verbose {
        Some(ServeOptions {
            verbose: true,
            ..given
        })
    } else {
        None
    }
}

/// What is given with another option more and its value, which may stand once too.
fn with_value<'a>(given: ServeOptions<'a>, name: &str, value: &'a str) -> Option<ServeOptions<'a>>
    ensures { option_map options_view result ≡ with_value (options_view given.entry) name.now
        value.entry.now }
{
    if name == "--connections" {
        let connections = Some(once(given.connections, up_to(MOST_CONNECTIONS, value))?);
        Some(ServeOptions {
            connections,
            ..given
        })
    } else if name == "--senders" {
        let senders = Some(once(given.senders, up_to(MOST_SENDERS, value))?);
        Some(ServeOptions { senders, ..given })
    } else if name == "--client-timeout" {
        let client_timeout = Some(once(given.client_timeout, up_to(u32::MAX, value))?);
        Some(ServeOptions {
            client_timeout,
            ..given
        })
    } else if name == "--request-timeout" {
        let request_timeout = Some(once(given.request_timeout, up_to(u32::MAX, value))?);
        Some(ServeOptions {
            request_timeout,
            ..given
        })
    } else if name == "--back-end-timeout" {
        let back_end_timeout = Some(once(given.back_end_timeout, up_to(u32::MAX, value))?);
        Some(ServeOptions {
            back_end_timeout,
            ..given
        })
    } else {
        with_bytes(given, name, value)
    }
}

/// What is given with another option more whose value is so many bytes, which may stand once too.
fn with_bytes<'a>(given: ServeOptions<'a>, name: &str, value: &'a str) -> Option<ServeOptions<'a>>
    ensures { option_map options_view result ≡ with_bytes (options_view given.entry) name.now
        value.entry.now }
{
    if name == "--body-memory" && given.body_memory.is_none() {
        let body_memory = Some(at_least(LEAST_BODY_MEMORY, value)?);
        Some(ServeOptions {
            body_memory,
            ..given
        })
    } else if name == "--queue-bytes" && given.queue_bytes.is_none() {
        let queue_bytes = Some(at_least(1, value)?);
        Some(ServeOptions {
            queue_bytes,
            ..given
        })
    } else {
        with_text(given, name, value)
    }
}

/// What is given with another option more whose value is any text, which may stand once too.
fn with_text<'a>(given: ServeOptions<'a>, name: &str, value: &'a str) -> Option<ServeOptions<'a>>
    ensures { option_map options_view result ≡ with_text (options_view given.entry) name.now
        value.entry.now }
{
    if name == "--admin" && given.admin.is_none() {
        Some(ServeOptions {
            admin: Some(value),
            ..given
        })
    } else if name == "--admin-token-file" && given.admin_token_file.is_none() {
        Some(ServeOptions {
            admin_token_file: Some(value),
            ..given
        })
    } else {
        None
    }
}

/// The value of an option that may stand once.
fn once(before: Option<u32>, value: Option<u32>) -> Option<u32>
    ensures { result ≡ once before value }
{
    match before {
        None => value,
        Some(_) => None,
    }
}

/// The number from 1 to `most` that a word writes.
fn up_to(most: u32, word: &str) -> Option<u32>
    ensures { result ≡ up_to most word.now }
{
    let number = number(word)?;
    if number < 1 || number > u64::from(most) {
        return None;
    }
    Some(number as u32)
}

/// The number of at least so many that a word writes.
fn at_least(least: u64, word: &str) -> Option<u64>
    ensures { result ≡ at_least least word.now }
{
    let number = number(word)?;
    if number < least {
        return None;
    }
    Some(number)
}

/// The number that a word writes in 1 to 19 decimal digits.
fn number(word: &str) -> Option<u64>
    ensures { result ≡ number_of word.now }
{
    if word.is_empty() || word.len() > MAX_DIGITS || !has_digits(word.as_bytes()) {
        return None;
    }
    word.parse().ok()
}

fn has_digits(word: &[u8]) -> bool
    ensures { result ≡ list_all is_ascii_digit word.now }
{
    word.iter().all(|byte| byte.is_ascii_digit())
}
