//! The words of the command line.
ghost use Rattle.std.specs.Prelude.{◌≡◌, ◌≢◌, map, string_bytes, IfOk, None, false};
ghost use Rattle.clap.specs.Faults.{fault_of};
ghost use Rattle.clap.specs.Kinds.{FailsBy};
ghost use Rattle.clap.specs.Matches.{found_of};
ghost use Rattle.clap.specs.Simple.{app_of, matches_of};
ghost use Rattle.clap.specs.Walk.{rows_of, rule_of};
ghost use Rattle.ov_top.specs.Parsing.{words_app, files_rule, journal_rule, files_given};
ghost use Rattle.ov_top.specs.Words.{AreFormed, order_of, step_order_of, audit_order_of, make_order_of, step_by, audit_by, make_by};

use clap::error::ErrorKind;
use clap::{Arg, ArgAction, ArgMatches, Command, Error};
use ov_base::{Memory, parse_number, parse_number_within};
use std::alloc::{AllocError, Global};
use std::marker::Model;

/// A word that names a file, which contracts see as its bytes.
#[derive(Debug, Drop)]
pub struct FileName {
    text: String,
}

impl Model for FileName {
    ghost use Rattle.std.specs.Prelude.{List, ℕ, string_bytes};

    ghost Value = { List ℕ };

    ghost view = { λ name. string_bytes name.text };
}

impl FileName {
    fn new(alloc: Global, word: &str) -> Result<FileName, Memory>
        ensures { IfOk result (λ name. name ≡ word.now) }
    {
        Ok(FileName {
            text: String::from_str(alloc, word)?,
        })
    }

    /// The word.
    pub fn as_str(&self) -> &str
        ensures { result.now ≡ self.now }
    {
        self.text.as_str()
    }
}

/// What the words of a command line ask for (docs/FORMATS.md, Words of the command line).
#[derive(Debug, Drop)]
pub enum Order {
    /// To follow a schedule, and to write the history in place of the report where `journal`.
    Step {
        journal: bool,
        topology: FileName,
        script: FileName,
        schedule: FileName,
    },
    /// To judge a journal.
    Audit {
        topology: FileName,
        script: FileName,
        journal: FileName,
    },
    /// To run the made script of this number.
    Make {
        number: u64,
        /// How many commands it has, from 2 to 4,000.
        commands: u32,
    },
}

/// The fewest commands of a made script.
const FEWEST_COMMANDS: u64 = 2;

/// The most commands of a made script.
const MOST_COMMANDS: u64 = 4000;

/// What the words ask for: the first one is the command, and the words behind it are read from left to right. Until a word `--` a word that
/// begins with `-` is refused, but for `-` itself and, behind `step`, one `--journal`; the first `--` is dropped; all others name files, of which `step`
/// and `audit` take three, or are the two numbers of `make`. None exactly where the words are not of that form. The only error is out of memory.
pub fn command_of(alloc: Global, words: &[String]) -> Result<Option<Order>, Memory>
    ensures exact { IfOk result (λ order. order ≡ order_of (map string_bytes words.now)) }
    ensures form { IfOk result (λ order. AreFormed order) }
{
    match words {
        [] => Ok(None),
        [command, others @ ..] => {
            if command.as_bytes() == b"step".as_slice() {
                step_of(alloc, others)
            } else if command.as_bytes() == b"audit".as_slice() {
                audit_of(alloc, others)
            } else if command.as_bytes() == b"make".as_slice() {
                make_of(alloc, others)
            } else {
                Ok(None)
            }
        }
    }
}

/// The order to follow a schedule, where the words name exactly three files.
fn step_of(alloc: Global, words: &[String]) -> Result<Option<Order>, Memory>
    ensures exact { IfOk result (λ order. order ≡ step_order_of (map string_bytes words.now)) }
    ensures form { IfOk result (λ order. AreFormed order) }
{
    match words_matches(alloc, true, words) {
        Ok(matches) => step_by_files(alloc, matches.get_flag("journal"), matches.get_raw("files")),
        Err(error) => refusal(error.kind()),
    }
}

/// The order to judge a journal, where the words name exactly three files.
fn audit_of(alloc: Global, words: &[String]) -> Result<Option<Order>, Memory>
    ensures exact { IfOk result (λ order. order ≡ audit_order_of (map string_bytes words.now)) }
    ensures form { IfOk result (λ order. AreFormed order) }
{
    match words_matches(alloc, false, words) {
        Ok(matches) => audit_by_files(alloc, matches.get_raw("files")),
        Err(error) => refusal(error.kind()),
    }
}

/// The order to make a script, where the words are exactly a number and how many commands it is to have.
fn make_of(alloc: Global, words: &[String]) -> Result<Option<Order>, Memory>
    ensures exact { IfOk result (λ order. order ≡ make_order_of (map string_bytes words.now)) }
    ensures form { IfOk result (λ order. AreFormed order) }
{
    match words_matches(alloc, false, words) {
        Ok(matches) => Ok(make_by_words(matches.get_raw("files"))),
        Err(error) => refusal(error.kind()),
    }
}

/// The order to follow a schedule by these files, and to write the history where `journal`.
fn step_by_files(
    alloc: Global,
    journal: bool,
    files: Option<&[&str]>,
) -> Result<Option<Order>, Memory>
    ensures exact { IfOk result (λ order. order ≡ step_by journal (files_given files.entry)) }
    ensures form { IfOk result (λ order. AreFormed order) }
{
    match files {
        Some([topology, script, schedule]) => Ok(Some(Order::Step {
            journal,
            topology: FileName::new(alloc, topology)?,
            script: FileName::new(alloc, script)?,
            schedule: FileName::new(alloc, schedule)?,
        })),
        _ => Ok(None),
    }
}

/// The order to judge a journal by these files.
fn audit_by_files(alloc: Global, files: Option<&[&str]>) -> Result<Option<Order>, Memory>
    ensures exact { IfOk result (λ order. order ≡ audit_by (files_given files.entry)) }
    ensures form { IfOk result (λ order. AreFormed order) }
{
    match files {
        Some([topology, script, journal]) => Ok(Some(Order::Audit {
            topology: FileName::new(alloc, topology)?,
            script: FileName::new(alloc, script)?,
            journal: FileName::new(alloc, journal)?,
        })),
        _ => Ok(None),
    }
}

/// The order to make a script by these words.
fn make_by_words(words: Option<&[&str]>) -> Option<Order>
    ensures exact { result ≡ make_by (files_given words.entry) }
    ensures form { AreFormed result }
{
    let Some([number, commands]) = words else {
        return None;
    };
    let number = parse_number(number.as_bytes())?;
    let commands = parse_number_within(FEWEST_COMMANDS, MOST_COMMANDS, commands.as_bytes())?;
    Some(Order::Make {
        number,
        commands: commands as u32,
    })
}

/// What clap's refusal of the words means: no order, but where memory ran out.
fn refusal(kind: ErrorKind) -> Result<Option<Order>, Memory>
    ensures none { IfOk result (λ order. (order ≡ None) × (kind ≢ ErrorKind.OutOfMemory)) }
    ensures form { IfOk result (λ order. AreFormed order) }
{
    match kind {
        ErrorKind::OutOfMemory => Err(Memory),
        _ => Ok(None),
    }
}

/// What clap makes of the words behind a command, among which `--journal` may stand where `allowed`.
fn words_matches<'a>(
    alloc: Global,
    allowed: bool,
    words: &'a [String],
) -> Result<ArgMatches<'a>, Error>
    ensures faults { FailsBy (fault_of (words_app allowed) (map string_bytes words.now)) result }
    ensures rows { IfOk result (λ m. rows_of (found_of m) ≡ matches_of (words_app allowed) (map string_bytes words.now)) }
{
    let mut command = words_command(alloc, allowed)?;
    command.try_get_matches_from_mut(words)
}

/// The command of clap that takes files, and `--journal` where it is `allowed`.
fn words_command<'a>(alloc: Global, allowed: bool) -> Result<Command<'a>, AllocError>
    ensures { IfOk result (λ c. app_of c ≡ words_app allowed) }
{
    let command = Command::new(alloc, "oceanvista")
        .no_binary_name(true)
        .disable_help_flag(true)
        .disable_version_flag(true)
        .arg(files_arg(alloc))?;
    if allowed {
        command.arg(journal_arg(alloc))
    } else {
        Ok(command)
    }
}

/// The argument that takes the files, as many as there are.
fn files_arg<'a>(alloc: Global) -> Arg<'a>
    ensures rule { rule_of result ≡ files_rule }
    ensures local { result.global ≡ false }
{
    Arg::new(alloc, "files").action(ArgAction::Append)
}

/// The flag `--journal`, which may stand once.
fn journal_arg<'a>(alloc: Global) -> Arg<'a>
    ensures rule { rule_of result ≡ journal_rule }
    ensures local { result.global ≡ false }
{
    Arg::new(alloc, "journal")
        .long("journal")
        .action(ArgAction::SetTrue)
}
