// What a card writes: its canonical string and its symbols.
ghost use Rattle.std.specs.Prelude.{◌≡◌, IfOk, length};
ghost use Rattle.std.specs.Fn.{FnOnceReturnsAtMut};
ghost use Rattle.cards.specs.Cards.{tally};
ghost use Rattle.cards.specs.Strings.{canonical, symbols};
ghost use Rattle.desk.specs.Writings.{Written, StringIn, SymbolIn, IsSymbol};

use cards::card::Card;
use cards::fault::PrintFault;
use commands::error::Failure;
use std::alloc::{AllocError, Global};
use symbols::fault::WriterFault;

// What is written over the first bytes of a buffer of `room` bytes.
fn written<E, F: FnOnce(&mut [u8]) -> Result<usize, E>>(
    heap: Global,
    room: usize,
    write: F,
) -> Result<Vec<u8>, Failure<E>>
    requires { F.IsAlwaysCallable write }
    ensures { Written (FnOnceReturnsAtMut F.FnOnce write) room result }
{
    let mut buffer = vec![in heap; 0; room]?;
    let n = write(buffer.as_mut_slice()).map_err(Failure::Refused)?;
    buffer.truncate(n);
    Ok(buffer)
}

// The canonical string of a card, if a buffer of `room` bytes has room for it.
pub fn string_in(heap: Global, card: &Card, room: usize) -> Result<Vec<u8>, Failure<WriterFault>>
    ensures { StringIn (canonical (tally card.now)) room result }
{
    written(heap, room, |buffer| card.canonical(buffer))
}

// The canonical string of a card.
pub fn string_of(heap: Global, card: &Card) -> Result<Vec<u8>, AllocError>
    ensures { IfOk result (λ string. string.items ≡ canonical (tally card.now)) }
{
    let room = card.canonical(&mut []).unwrap_or_else(|fault| fault.needed);
    match string_in(heap, card, room) {
        Ok(string) => Ok(string),
        Err(Failure::Memory(lack)) => Err(lack),
        Err(Failure::Refused(_)) => unreachable(),
    }
}

// The values of a card's symbol of the number `k`, from 0 on, if a buffer of `room` bytes has room for them.
pub fn symbol_in(
    heap: Global,
    card: &Card,
    k: usize,
    room: usize,
) -> Result<Vec<u8>, Failure<PrintFault>>
    ensures { SymbolIn k (symbols (tally card.now)) room result }
{
    written(heap, room, |buffer| card.print(k, buffer))
}

// The values of a card's symbol of the number `k`, from 0 on, if there is one.
// Kept: apart from `string_of`, since only a symbol can be missing; one function over both would be no plainer.
pub fn symbol_of(heap: Global, card: &Card, k: usize) -> Result<Option<Vec<u8>>, AllocError>
    ensures { IfOk result (λ got. IsSymbol k (symbols (tally card.now)) got) }
{
    let room = match card.print(k, &mut []) {
        Ok(n) => n,
        Err(PrintFault::Short(fault)) => fault.needed,
        Err(PrintFault::NoSymbol { .. }) => return Ok(None),
    };
    match symbol_in(heap, card, k, room) {
        Ok(values) => Ok(Some(values)),
        Err(Failure::Memory(lack)) => Err(lack),
        Err(Failure::Refused(_)) => unreachable(),
    }
}
