//! The files of a job.

ghost use Rattle.std.specs.Prelude.{◌≡◌, IfOk, unwrap_or};
ghost use Rattle.std.specs.Option.{option_map};
ghost use Rattle.l6db.specs.Opening.{given_job};

use crate::arguments::Request;
use crate::fault::DbFault;
use l6_device::{Host, Part, Patience, head_parts_of, parts_of, read_part};
use std::alloc::{AllocError, Global};
use std::fs::File;
use std::marker::Model;

/// The parts of a job.
#[derive(Drop)]
pub(crate) struct Job {
    /// The deck.
    pub(crate) deck: Vec<u8>,
    /// The input of its run.
    pub(crate) input: Vec<u8>,
    /// The commands to obey first.
    pub(crate) commands: Vec<u8>,
}

impl Model for Job {
    ghost use Rattle.l6db.specs.Opening as opening;

    ghost Value = { opening.GivenJob };

    ghost view = { λ j. record {
      deck = j.deck.items;
      input = j.input.items;
      commands = j.commands.items;
    } };
}

/// The job that is asked for. Files that are named take precedence over the parts of the job. Of each
/// file no more is read than a part may have.
///
/// # Errors
///
/// A file can't be read, or is too long, or memory ran out.
pub(crate) fn job_of(rt: &HostRuntime, request: &Request<'_>) -> Result<Job, DbFault> {
    let whole = part_of(rt, request.deck, Part::Job)?;
    let input = part_if_named(rt, request.input, Part::Input)?;
    let commands = part_if_named(rt, request.commands, Part::Commands)?;
    Ok(job_from(rt.alloc(), whole.as_slice(), input, commands)?)
}

/// The job of this text, in which the input and the commands are replaced that are given.
///
/// # Errors
///
/// Memory ran out.
fn job_from(
    alloc: Global,
    whole: &[u8],
    input: Option<Vec<u8>>,
    commands: Option<Vec<u8>>,
) -> Result<Job, AllocError>
    ensures { IfOk result (λ job. job ≡ given_job whole.now
        (option_map (λ bytes. bytes.items) input) (option_map (λ bytes. bytes.items) commands)) }
{
    let parts = parts_of(whole);
    let head = head_parts_of(parts.head);
    Ok(Job {
        deck: bytes_or(alloc, None, head.deck)?,
        input: bytes_or(alloc, input, parts.input)?,
        commands: bytes_or(alloc, commands, head.commands)?,
    })
}

/// The bytes that are given, or those of the job where none are.
fn bytes_or(alloc: Global, given: Option<Vec<u8>>, own: &[u8]) -> Result<Vec<u8>, AllocError>
    ensures { IfOk result (λ bytes. bytes.items
        ≡ unwrap_or (option_map (λ bytes. bytes.items) given) own.now) }
{
    if let Some(bytes) = given {
        return Ok(bytes);
    }
    let mut bytes = Vec::new(alloc);
    bytes.extend_from_slice(own)?;
    Ok(bytes)
}

/// What the file at a path holds, if there is a path, at most the limit of the part.
fn part_if_named(
    rt: &HostRuntime,
    path: Option<&str>,
    part: Part,
) -> Result<Option<Vec<u8>>, DbFault> {
    match path {
        Some(path) => Ok(Some(part_of(rt, path, part)?)),
        None => Ok(None),
    }
}

/// The lines of a file of commands.
///
/// # Errors
///
/// The file can't be read, or is too long, or memory ran out.
pub(crate) fn commands_of(rt: &HostRuntime, path: &str) -> Result<Vec<u8>, DbFault> {
    let commands = part_of(rt, path, Part::Commands)?;
    Part::Commands.check(commands.as_slice())?;
    Ok(commands)
}

/// What a file holds, or, for `-`, standard input, at most the limit of the part.
fn part_of(rt: &HostRuntime, path: &str, part: Part) -> Result<Vec<u8>, DbFault> {
    let mut patience = Patience::new();
    if path == "-" {
        let mut reader = Host::new(rt.stdin());
        return Ok(read_part(rt.alloc(), &mut reader, part, &mut patience)?);
    }
    let file = match File::open(rt, path) {
        Ok(file) => file,
        Err(error) => return Err(DbFault::of_file(rt.alloc(), part, path, &error)?),
    };
    let mut reader = Host::new(file);
    Ok(read_part(rt.alloc(), &mut reader, part, &mut patience)?)
}
