// Lists of calls on cards, and the law of the halls over all of them.
#![tactic(auto)]

ghost use Rattle.std.specs.Prelude.{◌≡◌};
ghost use Rattle.history.specs.Laws.{HallsStand};

pub mod call;
pub mod replay;
pub mod settle;

// Bears the law: under every book, cards are filed alike exactly where they mean the same, a card's symbols
// make it up again in any order, and what it says is read back under every other book that has its entries.
pub fn halls_stand() -> u8
    ensures law { HallsStand }
    ensures none { result ≡ 0 }
{
    0u8
}
