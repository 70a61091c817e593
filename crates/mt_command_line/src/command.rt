//! What the program takes.

ghost use Rattle.std.specs.Prelude.{◌≡◌, IfOk, false};
ghost use Rattle.clap.specs.Words.{app_of, rule_of};
ghost use Rattle.mt_command_line.specs.CommandLine.{port_rule, workers_rule, sessions_rule, store_rule, create_rule, checkpoint_rule, checkpoint_bytes_rule, settle_every_rule, verify_rule, connections_rule, idle_rule, tenants_rule, server};

use clap::{Arg, ArgAction, Command, value_parser};
use std::alloc::{AllocError, Global};

/// The program's version, which `--version` tells.
pub const VERSION: &str = "0.1.0";

// `--port`.
fn port_arg<'a>(alloc: Global) -> Arg<'a>
    ensures rule { rule_of result ≡ port_rule }
    ensures local { result.global ≡ false }
{
    Arg::new(alloc, "port")
        .long("port")
        .value_name("P")
        .action(ArgAction::Set)
        .value_parser(value_parser!(u16))
        .default_value("7411")
        .help("The port of 127.0.0.1 to listen on; 0 takes a free one")
}

// `--workers`.
fn workers_arg<'a>(alloc: Global) -> Arg<'a>
    ensures rule { rule_of result ≡ workers_rule }
    ensures local { result.global ≡ false }
{
    Arg::new(alloc, "workers")
        .long("workers")
        .value_name("N")
        .action(ArgAction::Set)
        .value_parser(value_parser!(u8).range(1..=64))
        .default_value("4")
        .help("How many connections are served at a time, 1 to 64")
}

// `--sessions`.
fn sessions_arg<'a>(alloc: Global) -> Arg<'a>
    ensures rule { rule_of result ≡ sessions_rule }
    ensures local { result.global ≡ false }
{
    Arg::new(alloc, "sessions")
        .long("sessions")
        .value_name("S")
        .action(ArgAction::Set)
        .value_parser(value_parser!(u32))
        .default_value("0")
        .help("How many connections to accept before it ends; 0: no end")
}

// `--store`.
fn store_arg<'a>(alloc: Global) -> Arg<'a>
    ensures rule { rule_of result ≡ store_rule }
    ensures local { result.global ≡ false }
{
    Arg::new(alloc, "store")
        .long("store")
        .value_name("DIR")
        .action(ArgAction::Set)
        .help("The folder of the logs, which are recovered first; without it none are kept")
}

// `--create`.
fn create_arg<'a>(alloc: Global) -> Arg<'a>
    ensures rule { rule_of result ≡ create_rule }
    ensures local { result.global ≡ false }
{
    Arg::new(alloc, "create")
        .long("create")
        .action(ArgAction::SetTrue)
        .help("Makes the logs of the folder anew; what they held is lost")
}

// `--checkpoint`.
fn checkpoint_arg<'a>(alloc: Global) -> Arg<'a>
    ensures rule { rule_of result ≡ checkpoint_rule }
    ensures local { result.global ≡ false }
{
    Arg::new(alloc, "checkpoint")
        .long("checkpoint")
        .value_name("K")
        .action(ArgAction::Set)
        .value_parser(value_parser!(u32))
        .help("Writes a checkpoint after each Kth settled answer; 0, or without it: none")
}

// `--checkpoint-bytes`.
fn checkpoint_bytes_arg<'a>(alloc: Global) -> Arg<'a>
    ensures rule { rule_of result ≡ checkpoint_bytes_rule }
    ensures local { result.global ≡ false }
{
    Arg::new(alloc, "checkpoint-bytes")
        .long("checkpoint-bytes")
        .value_name("B")
        .action(ArgAction::Set)
        .value_parser(value_parser!(u64))
        .help(
            "Writes one also each time that the logs have grown by B bytes; 0, or without it: never",
        )
}

// `--settle-every`.
fn settle_every_arg<'a>(alloc: Global) -> Arg<'a>
    ensures rule { rule_of result ≡ settle_every_rule }
    ensures local { result.global ≡ false }
{
    Arg::new(alloc, "settle-every")
        .long("settle-every")
        .value_name("M")
        .action(ArgAction::Set)
        .value_parser(value_parser!(u32))
        .help("Settles each M milliseconds, if anything was answered; 0, or without it: never")
}

// `--verify`.
fn verify_arg<'a>(alloc: Global) -> Arg<'a>
    ensures rule { rule_of result ≡ verify_rule }
    ensures local { result.global ≡ false }
{
    Arg::new(alloc, "verify")
        .long("verify")
        .value_name("DIR")
        .action(ArgAction::Set)
        .help(
            "Serves nothing: reads the folder's store as a start would, writes nothing, and says what it holds",
        )
}

// `--connections`.
fn connections_arg<'a>(alloc: Global) -> Arg<'a>
    ensures rule { rule_of result ≡ connections_rule }
    ensures local { result.global ≡ false }
{
    Arg::new(alloc, "connections")
        .long("connections")
        .value_name("C")
        .action(ArgAction::Set)
        .value_parser(value_parser!(u32).range(1..=65_536))
        .default_value("1")
        .help("How many connections each worker serves at a time, 1 to 65536")
}

// `--idle`.
fn idle_arg<'a>(alloc: Global) -> Arg<'a>
    ensures rule { rule_of result ≡ idle_rule }
    ensures local { result.global ≡ false }
{
    Arg::new(alloc, "idle")
        .long("idle")
        .value_name("S")
        .action(ArgAction::Set)
        .value_parser(value_parser!(u32).range(0..=4_294_967))
        .default_value("0")
        .help("Ends a connection after S silent seconds, if C is 2 or more; 0: never")
}

// The words that name tenants.
fn tenants_arg<'a>(alloc: Global) -> Arg<'a>
    ensures rule { rule_of result ≡ tenants_rule }
    ensures local { result.global ≡ false }
{
    Arg::new(alloc, "tenants")
        .value_name("T:Q")
        .required(true)
        .action(ArgAction::Append)
        .num_args(1..)
        .help("A tenant's number and its quota, 1 to 1048576 pairs; each tenant once")
}

/// The command that reads the words.
pub(crate) fn command_of<'a>(alloc: Global) -> Result<Command<'a>, AllocError>
    ensures { IfOk result (λ c. app_of c ≡ server) }
{
    Command::new(alloc, "mt_server")
        .bin_name("mt_server")?
        .version(VERSION)
        .about("Serves the maps of many tenants over 127.0.0.1")
        .arg(port_arg(alloc))?
        .arg(workers_arg(alloc))?
        .arg(sessions_arg(alloc))?
        .arg(store_arg(alloc))?
        .arg(create_arg(alloc))?
        .arg(checkpoint_arg(alloc))?
        .arg(checkpoint_bytes_arg(alloc))?
        .arg(settle_every_arg(alloc))?
        .arg(verify_arg(alloc))?
        .arg(connections_arg(alloc))?
        .arg(idle_arg(alloc))?
        .arg(tenants_arg(alloc))
}
