// Accounts, up to so many. Their room is taken at the start, so that no line can fail for want of memory.
ghost use Rattle.std.specs.Prelude.{◌≡◌, ◌<◌, ◌≤◌, [], ◌∷◌, ◌++◌, length, vec_items, vec_capacity, nat_le, IfOk};
ghost use Rattle.script.specs.There.{there};

use commands::line::Account;
use std::alloc::{AllocError, Global};

// At most MAX accounts.
#[derive(Drop)]
pub struct Roll<const MAX: usize> {
    accounts: Vec<Account>,
    ghost room: { MAX ≤ vec_capacity accounts },
}

impl<const MAX: usize> Roll<MAX> {
    // Nobody yet.
    pub fn new(heap: Global) -> Result<Roll<MAX>, AllocError>
        ensures { IfOk result (λ r. vec_items r.accounts ≡ []) }
    {
        let accounts = Vec::with_capacity(heap, MAX)?;
        Ok(Roll { accounts })
    }

    // Whether there is no more room.
    pub fn is_full(&self) -> bool
        ensures { result ≡ nat_le MAX (length (vec_items self.now.accounts)) }
    {
        self.accounts.len() >= MAX
    }

    // Whether one of the accounts has that number.
    pub fn has(&self, number: u16) -> bool
        ensures { result ≡ there number (vec_items self.now.accounts) }
    {
        self.accounts.iter().any(|a| a.number == number)
    }

    // Adds an account.
    pub fn add(&mut self, account: Account)
        requires { length (vec_items self.old.accounts) < MAX }
        ensures { vec_items self.new.accounts ≡ vec_items self.old.accounts ++ account ∷ [] }
    {
        self.accounts.push_reserved(account);
    }
}
