// Does what its arguments ask for, and prints what comes of it (docs/FORMAT.md, section 19). What that is `subcommand`
// says: here the arguments and the file are read and the answer is written.
#![tactic(auto)]

ghost use Rattle.std.specs.Prelude.{◌≡◌, ◌+◌, ◌++◌, IfOk, length, map};
ghost use Rattle.std.specs.List.{concat};
ghost use Rattle.std.specs.Vec.{vec_items};
ghost use Rattle.subcommand.specs.Arguments.{asked, asked_by};
ghost use Rattle.subcommand.specs.Message.{message_text};
ghost use Rattle.subcommand.specs.Printed.{table_limit};

use std::alloc::AllocError;
use std::env::FillError;
use std::io;
use std::io::Write;
use std::process::ExitCode;
use std::rt::Env;
use subcommand::answers::{Answer, OUT_ROOM, TABLE_LIMIT};
use subcommand::message::{Digits, Message};
use subcommand::{ARGUMENT_LIMIT, Subcommand};

// The status where memory is lacking or the output cannot be written, and where whoever read the output has closed it:
// a shell gives the second to a program that the signal of a closed pipe ends.
const FAILED: u8 = 2;

const PIPE_CLOSED: u8 = 141;

// The arguments after the program's name; none where one is longer than an argument may be.
fn read_arguments(rt: &HostRuntime) -> Result<Option<Vec<Vec<u8>>>, AllocError> {
    let mut args = Vec::new(rt.alloc());
    for i in 1..usize::MAX {
        let mut buffer = [0; ARGUMENT_LIMIT];
        match rt.arg(i, &mut buffer) {
            Ok(len) => args.push(buffer[..len].to_vec(rt.alloc())?)?,
            Err(FillError::TooLong) => return Ok(None),
            Err(FillError::NotPresent) => break,
        }
    }
    Ok(Some(args))
}

// What the arguments ask for; none where they are wrong.
fn parse<'a>(rt: &HostRuntime, args: &'a [Vec<u8>]) -> Result<Option<Subcommand<'a>>, AllocError>
    ensures { IfOk result (λ s. asked_by s ≡ asked (map (λ a. vec_items a) args.now)) }
{
    let mut lent: Vec<&[u8]> = Vec::new(rt.alloc());
    for arg in args {
        lent.push(arg.as_slice())?;
    }
    Ok(subcommand::parse(&lent))
}

// Buffers for a table's file, with a byte more by which a longer one is told, and for what is written.
fn table_buffer() -> [u8; TABLE_LIMIT + 1]
    ensures { length result ≡ table_limit + 1 }
{
    [0; TABLE_LIMIT + 1]
}

fn out_buffer() -> [u8; OUT_ROOM] {
    [0; OUT_ROOM]
}

// Puts some pieces of a message at the end of a text.
fn push_pieces(text: &mut Vec<u8>, pieces: &[&[u8]]) -> Result<(), AllocError>
    ensures { IfOk result (λ _. vec_items text.new ≡ vec_items text.old ++ concat (map (λ p. p.now) pieces.now)) }
{
    for piece in pieces {
        text.extend_from_slice(piece)?;
    }
    Ok(())
}

// A message as one text.
fn join(rt: &HostRuntime, message: &Message) -> Result<Vec<u8>, AllocError>
    ensures { IfOk result (λ text. vec_items text ≡ message_text message.now) }
{
    let mut text = Vec::new(rt.alloc());
    push_pieces(&mut text, &message.note)?;
    push_pieces(&mut text, &message.refusal)?;
    push_pieces(&mut text, &message.words)?;
    text.extend_from_slice(message.end)?;
    Ok(text)
}

// Reads the file that is named, says what there is to say and writes the answer. The status.
fn run(rt: &HostRuntime, asked: Option<Subcommand>) -> Result<u8, AllocError> {
    let mut buffer = table_buffer();
    let file = asked.and_then(|named| console::load(rt, named.table(), &mut buffer));
    let mut out = out_buffer();
    let mut digits = Digits::new();
    let Answer {
        len,
        message,
        status,
    } = subcommand::answers::respond(asked, file, &mut out, &mut digits);
    let text = join(rt, &message)?;
    let _ = rt.stderr().write_all(&text);
    if let Err(error) = console::write_text(rt, &out, len) {
        if error.kind() == io::ErrorKind::BrokenPipe {
            return Ok(PIPE_CLOSED);
        }
        let _ = eprint!(rt; "coentrift: cannot write the output\n");
        return Ok(FAILED);
    }
    Ok(status)
}

// All of it, unless there is no memory for the arguments or the message.
fn start(rt: &HostRuntime) -> Result<u8, AllocError> {
    let Some(args) = read_arguments(rt)? else {
        return run(rt, None);
    };
    let asked = parse(rt, &args)?;
    run(rt, asked)
}

fn main(rt: HostRuntime) -> ExitCode {
    let Ok(status) = start(&rt) else {
        let _ = eprint!(rt; "coentrift: out of memory\n");
        return ExitCode::from(FAILED);
    };
    ExitCode::from(status)
}
