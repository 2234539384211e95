// Calls of a card, by their word and their arguments.
ghost use Rattle.commands.specs.Calls.{call_asked};
ghost use Rattle.commands.specs.Judgements.{Says};
ghost use Rattle.commands.specs.Meanings.{call_meant};

use crate::arguments::{all_numbers, no_arguments, only_number};
use crate::cut::behind;
use crate::error::LineError;
use crate::escape::unescape;
use crate::name::CallWord;
use calls::call::Call;
use std::alloc::Global;

// The call of that word with that tail.
pub(crate) fn card_call(
    heap: Global,
    word: CallWord,
    tail: &[u8],
) -> Result<Call<Vec<u8>>, LineError>
    ensures { Says call_asked result (call_meant word tail.now) }
{
    match word {
        CallWord::Turn => Ok(Call::Turn(only_number(tail)?)),
        CallWord::Scan => Ok(Call::Scan(unescape(heap, behind(tail))?)),
        CallWord::Take => Ok(Call::Take(all_numbers(heap, tail)?)),
        CallWord::Strike => Ok(Call::Strike(unescape(heap, behind(tail))?)),
        CallWord::Wipe => {
            no_arguments(tail)?;
            Ok(Call::Wipe)
        }
    }
}
