ghost use Rattle.std.specs.Prelude.{◌≡◌, ℕ, ◌<◌, List, [], length, IfOk};

use crate::account::{Account, Sum};
use crate::call::{BookAnswer, BookCall};
use std::alloc::{AllocError, Global};
use std::collections::LinkedList;
use turn_log::Played;

/// The book of accounts. An account is named by its place in the list of caps.
///
/// It is `Played`: sessions call it by `BookCall`, with the room `()`. Its shape is the list of
/// caps: how many sessions of each account may be open at once. A call takes no memory, and its
/// time does not depend on how many accounts or calls there are.
#[derive(Debug, Drop, PartialEq, Eq)]
pub struct Book {
    accounts: Vec<Account>,
    all: Sum,
}

// A book is its accounts and the sum of all, and nothing beside them. An account and a sum are
// `Copy`, so they own no list.
const _: () = prove!(size_of::<Book>() == size_of::<(Vec<Account>, Sum)>());

impl Book {
    ghost use Rattle.caster_accounts.specs.Sums.{total, total_of_all};

    /// A book of accounts with these caps, on which no call was made.
    pub fn new(alloc: Global, caps: &[u32]) -> Result<Book, AllocError>
        ensures shape { IfOk result (λ book. ⟦<Book as Played>⟧.shape book ≡ caps.now) }
        ensures stands { IfOk result (λ book. ⟦<Book as Played>⟧.stands book []) }
    {
        let mut accounts = Vec::new(alloc);
        for cap in caps {
            accounts.push(Account::new(*cap))?;
        }
        Ok(Book {
            accounts,
            all: Sum::default(),
        })
    }

    /// What the sessions of an account that ended add up to.
    pub fn total(&self, account: u32) -> Sum
        requires { account < length (⟦<Book as Played>⟧.shape self.now) }
        ensures { (h : List (ℕ × BookCall)) → ⟦<Book as Played>⟧.stands self.now h
            → result ≡ total account h }
    {
        self.accounts[account as usize].sum
    }

    /// What the sessions of all accounts that ended add up to.
    pub fn total_of_all(&self) -> Sum
        ensures { (h : List (ℕ × BookCall)) → ⟦<Book as Played>⟧.stands self.now h
            → result ≡ total_of_all h }
    {
        self.all
    }
}

impl Played for Book {
    ghost use Rattle.caster_accounts.specs.History as history;
    ghost use Rattle.caster_accounts.specs.Kept.{Keeps, caps_of};
    ghost use Rattle.caster_accounts.specs.KeptOnce.{kept_once};
    ghost use Rattle.caster_accounts.specs.StillFits.{still_fits_one};

    type Call = BookCall;

    type Answer = BookAnswer;

    type Room = ();

    type Shape = LinkedList<u32>;

    ghost shape = { caps_of };

    ghost stands = { Keeps };

    ghost stands_once = { kept_once };

    ghost fits = { history.fits };

    ghost answer = { λ caps h me call. history.answer caps h call };

    ghost filled = { λ caps h me call room. room };

    fn play(&mut self, me: u32, call: BookCall, room: &mut ()) -> BookAnswer {
        match call {
            BookCall::Enter(account) => self.accounts[account as usize].enter(),
            BookCall::Leave {
                account,
                sent,
                overrun,
            } => {
                self.accounts[account as usize].leave(sent, overrun);
                self.all.add(sent, overrun);
                BookAnswer::Left
            }
        }
    }

    ghost still_fits = { still_fits_one };
}
