// From the bytes of a line to its command.
ghost use Rattle.std.specs.Prelude.{option_map};
ghost use Rattle.commands.specs.Judgements.{Says};
ghost use Rattle.commands.specs.Lines.{command_asked};
ghost use Rattle.commands.specs.Meanings.{field_meant, command_meant, meant};
ghost use Rattle.commands.specs.Names.{command_named};

use crate::arguments::{no_arguments, number_or};
use crate::book::book_choice;
use crate::call::card_call;
use crate::complaint::Complaint;
use crate::cut::{behind, said, split_word};
use crate::error::LineError;
use crate::escape::unescape;
use crate::line::Command;
use crate::name::{CommandWord, find};
use std::alloc::Global;

// The command `field`: the name of a form, and bytes.
fn field(heap: Global, tail: &[u8]) -> Result<Command, LineError>
    ensures { Says command_asked result (field_meant tail.now) }
{
    let (name, args) = split_word(behind(tail));
    let kind = find(name).ok_or(Complaint::UnknownCommand)?;
    let bytes = unescape(heap, behind(args))?;
    Ok(Command::Field { kind, bytes })
}

// The command of that word with that tail.
fn command_of(heap: Global, word: &[u8], tail: &[u8]) -> Result<Command, LineError>
    ensures { Says command_asked result (command_meant (command_named word.now) tail.now) }
{
    match find(word).ok_or(Complaint::UnknownCommand)? {
        CommandWord::Call(word) => Ok(Command::Call(card_call(heap, word, tail)?)),
        CommandWord::Field => field(heap, tail),
        CommandWord::Read => Ok(Command::Read(unescape(heap, behind(tail))?)),
        CommandWord::Look => Ok(Command::Look(unescape(heap, behind(tail))?)),
        CommandWord::Book => Ok(Command::Book(book_choice(heap, tail)?)),
        CommandWord::Begin => {
            let room = number_or(tail, 4096, 4096)? as usize;
            Ok(Command::Begin { room })
        }
        CommandWord::Add => Ok(Command::Add(unescape(heap, behind(tail))?)),
        CommandWord::Seal => {
            no_arguments(tail)?;
            Ok(Command::Seal)
        }
    }
}

// What a line asks for, which is given without the bytes that end it; nothing where it is silent.
// An empty line and one that begins with `#` are silent. Any other is a command word and, behind a space, its arguments.
pub fn parse(heap: Global, line: &[u8]) -> Result<Option<Command>, LineError>
    ensures { Says (option_map command_asked) result (meant line.now) }
{
    let Some((word, tail)) = said(line) else {
        return Ok(None);
    };
    Ok(Some(command_of(heap, word, tail)?))
}
