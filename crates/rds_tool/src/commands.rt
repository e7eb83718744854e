//! The commands of the program: a table of them and their options, and the `clap` command that it makes.
ghost use Rattle.std.specs.Prelude.{◌≡◌, false, get_or};
ghost use Rattle.clap.specs.Words.{App, new_app, rule_of};
ghost use Rattle.rds_tool.specs.{CommandLine.Makes, CommandLine.ReadsAs, CommandLine.rds_app, Inside.Commands.app_of_row, Inside.Commands.bare_app, Inside.Commands.rule_of_row, Inside.Commands.with_command as the_with_command, Inside.Commands.with_each};

use crate::help;
use clap::builder::ValueParser;
use clap::{Arg, ArgAction, Command};
use std::alloc::{AllocError, Global};

/// How an option is read, and its help.
#[derive(Clone, Copy)]
struct OptionRow {
    name: &'static str,
    action: ArgAction,
    /// How help names its value, if it takes one.
    value: &'static [&'static str],
    parser: ValueParser<'static>,
    default: &'static [&'static str],
    help: &'static str,
}

/// A command of the program.
#[derive(Clone, Copy)]
struct CommandRow {
    name: &'static str,
    about: &'static str,
    usage: &'static str,
    after: &'static str,
    options: &'static [OptionRow],
}

const FLAG: OptionRow = OptionRow {
    name: "",
    action: ArgAction::SetTrue,
    value: &[],
    parser: ValueParser::Bool,
    default: &[],
    help: "",
};

/// A number below 2^32.
const NUMBER: OptionRow = OptionRow {
    name: "",
    action: ArgAction::Set,
    value: &["N"],
    parser: ValueParser::Signed(0, 4_294_967_295),
    default: &[],
    help: "",
};

/// The row of a flag, or of a number with these defaults; other fields may come after them.
macro_rules! option {
    ($name:literal, $help:expr) => { OptionRow { name: $name, help: $help, ..FLAG } };
    ($name:literal, $help:expr, $default:expr $(, $field:ident: $value:expr)*) => {
        OptionRow { name: $name, help: $help, default: $default, $($field: $value,)* ..NUMBER }
    };
}

const HEX_INPUT: OptionRow = option!("hex", help::HEX_INPUT);

const BITS: OptionRow =
    option!("bits", help::BITS, &[], parser: ValueParser::Unsigned(0, 1_099_511_627_776));

const GAPS: OptionRow =
    option!("gaps", help::GAPS, &[], value: &["TEXT"], parser: ValueParser::String);

const BURST: OptionRow = option!("burst", help::BURST, &["2"]);

const REACH: OptionRow = option!("reach", help::REACH, &["3"]);

const LOSS: OptionRow = option!("loss", help::LOSS, &["10"]);

const SHARE: OptionRow = option!("share", help::SHARE, &[]);

const OF: OptionRow = option!("of", help::OF, &["64"]);

const WORKERS: OptionRow = option!("workers", help::WORKERS, &["4"]);

const PROGRESS: OptionRow = option!("progress", help::PROGRESS);

const SOFT: OptionRow = option!("soft", help::SOFT);

const MARGIN: OptionRow =
    option!("margin", help::MARGIN, &["32"], parser: ValueParser::Signed(1, 127));

/// The options of a list and of totals.
const REPORT: &[OptionRow] = &[
    HEX_INPUT,
    BITS,
    GAPS,
    BURST,
    REACH,
    LOSS,
    SHARE,
    OF,
    option!("pieces", help::PIECES, &["16"]),
    WORKERS,
    PROGRESS,
    SOFT,
    MARGIN,
];

const SCAN: CommandRow = CommandRow {
    name: "scan",
    about: help::SCAN,
    usage: help::SCAN_USAGE,
    after: help::SCAN_AFTER,
    options: &[HEX_INPUT, BITS, GAPS, WORKERS, PROGRESS],
};

const LIST: CommandRow = CommandRow {
    name: "list",
    about: help::LIST,
    usage: help::LIST_USAGE,
    after: help::LIST_AFTER,
    options: REPORT,
};

const FOLLOW: CommandRow = CommandRow {
    name: "follow",
    about: help::FOLLOW,
    usage: help::FOLLOW_USAGE,
    after: help::FOLLOW_AFTER,
    options: &[
        BITS,
        GAPS,
        BURST,
        REACH,
        LOSS,
        SHARE,
        OF,
        option!("workers", help::WORKERS, &["1"]),
        SOFT,
        MARGIN,
    ],
};

const TOTALS: CommandRow = CommandRow {
    name: "totals",
    about: help::TOTALS,
    usage: help::TOTALS_USAGE,
    after: help::TOTALS_AFTER,
    options: REPORT,
};

const ENCODE: CommandRow = CommandRow {
    name: "encode",
    about: help::ENCODE,
    usage: help::ENCODE_USAGE,
    after: help::ENCODE_AFTER,
    options: &[option!("hex", help::HEX_OUTPUT)],
};

// The rows of the table, each in a function of its own: a proof of all in one takes ten times as long.

fn scan_row() -> CommandRow
    ensures { (app_of_row result).top ≡ get_or rds_app.subs 0 rds_app.top }
{
    SCAN
}

fn list_row() -> CommandRow
    ensures { (app_of_row result).top ≡ get_or rds_app.subs 1 rds_app.top }
{
    LIST
}

fn follow_row() -> CommandRow
    ensures { (app_of_row result).top ≡ get_or rds_app.subs 2 rds_app.top }
{
    FOLLOW
}

fn totals_row() -> CommandRow
    ensures { (app_of_row result).top ≡ get_or rds_app.subs 3 rds_app.top }
{
    TOTALS
}

fn encode_row() -> CommandRow
    ensures { (app_of_row result).top ≡ get_or rds_app.subs 4 rds_app.top }
{
    ENCODE
}

/// The whole command line.
pub fn rds_command<'a>(alloc: Global) -> Result<Command<'a>, AllocError>
    ensures { Makes result rds_app }
{
    let rows = [
        scan_row(),
        list_row(),
        follow_row(),
        totals_row(),
        encode_row(),
    ];
    with_commands(alloc, top_command(alloc), rows.as_slice())
}

fn top_command<'a>(alloc: Global) -> Command<'a>
    ensures { ReadsAs result bare_app }
{
    bare_command(alloc, "rds", help::RDS, help::RDS_USAGE, help::RDS_AFTER)
        .version(help::VERSION)
        .subcommand_required(true)
}

fn bare_command<'a>(
    alloc: Global,
    name: &'a str,
    about: &'a str,
    usage: &'a str,
    after: &'a str,
) -> Command<'a>
    ensures { ReadsAs result (new_app name.entry.now) }
{
    Command::new(alloc, name)
        .about(about)
        .override_usage(usage)
        .after_help(after)
}

fn with_commands<'a>(
    alloc: Global,
    top: Command<'a>,
    rows: &[CommandRow],
) -> Result<Command<'a>, AllocError>
    ensures { (app : App) → ReadsAs top.entry app → Makes result (with_each the_with_command app rows.now) }
{
    let mut top = top;
    for row in rows {
        top = with_command(alloc, top, row)?;
    }
    Ok(top)
}

fn with_command<'a>(
    alloc: Global,
    top: Command<'a>,
    row: &CommandRow,
) -> Result<Command<'a>, AllocError>
    ensures { (app : App) → ReadsAs top.entry app → Makes result (the_with_command app row.now) }
{
    let command = command_of(alloc, row)?;
    top.subcommand(command)
}

fn command_of<'a>(alloc: Global, row: &CommandRow) -> Result<Command<'a>, AllocError>
    ensures { Makes result (app_of_row row.now) }
{
    let mut command = bare_command(alloc, row.name, row.about, row.usage, row.after);
    for option in row.options {
        command = command.arg(option_of(alloc, option))?;
    }
    Ok(command)
}

fn option_of<'a>(alloc: Global, row: &OptionRow) -> Arg<'a>
    ensures rule { rule_of result ≡ rule_of_row row.now }
    ensures local { result.global ≡ false }
{
    Arg::new(alloc, row.name)
        .long(row.name)
        .action(row.action)
        .value_names(row.value)
        .value_parser(row.parser)
        .default_values(row.default)
        .help(row.help)
}
