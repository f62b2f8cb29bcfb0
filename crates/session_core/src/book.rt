//! Calls on the book of accounts.

ghost use Rattle.std.specs.Prelude.{◌≡◌, ◌<◌, [], ◌∷◌, length, IsTrue, IfErr, IfOk, OnErr, OnOk};
ghost use Rattle.caster_accounts.specs.History.{may_leave};
ghost use Rattle.turn_log.specs.Faults.{IsFault};
ghost use Rattle.turn_log.specs.Heard.{Heard};
ghost use Rattle.session_core.specs.Entries.{answer_of};
ghost use Rattle.source_session.specs.Places.{Stays};

use caster_accounts::{Book, BookAnswer, BookCall};
use turn_log::{Played, TurnFault, Turns};

/// What became of an entry.
#[derive(Clone, Copy)]
pub enum EnterAnswer {
    /// The session is open.
    Entered,
    /// The account is full: `busy` sessions of it are open, and `cap` is the most that may be.
    Full { busy: u32, cap: u32 },
}

/// Enters an account: one turn at the book.
pub(crate) fn enter<B: Turns<Book>>(
    book: &mut B,
    me: u32,
    account: u32,
) -> Result<EnterAnswer, TurnFault>
    requires speaks { IsTrue (B.speaks book.old me) }
    requires known { account < length (B.shape book.old) }
    ensures stay { Stays B.Turns book.old book.new }
    ensures heard { IfOk result (λ entry.
        Heard (B.alone book.old) (⟦<Book as Played>⟧.answer (B.shape book.old))
        (B.seen book.old) (B.seen book.new) me
        ((BookCall.Enter account, answer_of entry) ∷ [])) }
    ensures inside { IfOk result (λ entry. entry ≡ EnterAnswer.Entered
        → IsTrue (may_leave (B.shape book.old) (B.seen book.new) me account)) }
    ensures err { OnErr result (B.seen book.new ≡ B.seen book.old) }
    ensures fault { IfErr result (IsFault (B.may_lack book.old) (B.worn book.new)) }
{
    match book.turn(me, BookCall::Enter(account), &mut ())? {
        BookAnswer::Entered => Ok(EnterAnswer::Entered),
        BookAnswer::Full { busy, cap } => Ok(EnterAnswer::Full { busy, cap }),
        BookAnswer::Left => unreachable!(),
    }
}

/// Leaves an account that was entered, with what its session was sent and lost: one turn.
pub(crate) fn leave<B: Turns<Book>>(
    book: &mut B,
    me: u32,
    account: u32,
    sent: u64,
    overrun: u64,
) -> Result<(), TurnFault>
    requires speaks { IsTrue (B.speaks book.old me) }
    requires inside { IsTrue (may_leave (B.shape book.old) (B.seen book.old) me account) }
    ensures stay { Stays B.Turns book.old book.new }
    ensures heard { OnOk result
        (Heard (B.alone book.old) (⟦<Book as Played>⟧.answer (B.shape book.old))
        (B.seen book.old) (B.seen book.new) me
        ((BookCall.Leave account sent overrun, BookAnswer.Left) ∷ [])) }
    ensures err { OnErr result (B.seen book.new ≡ B.seen book.old) }
    ensures fault { IfErr result (IsFault (B.may_lack book.old) (B.worn book.new)) }
{
    let call = BookCall::Leave {
        account,
        sent,
        overrun,
    };
    book.turn(me, call, &mut ())?;
    Ok(())
}
