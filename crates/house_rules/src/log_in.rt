// The decision on a login.
ghost use Rattle.house_rules.specs.House.{LogsIn, home, login_judged};
ghost use Rattle.parts.specs.Condition.{first_fault};
ghost use Rattle.parts.specs.declared.account.Entry.{Entry};
ghost use Rattle.std.specs.Prelude.{◌≡◌, Bool, List};

use super::accounts::Accounts;
use super::fresh::DRAWN;
use super::give::Given;
use super::house::House;
use super::known::{is_closed, is_unknown, own_key};
use super::reply::Granted;
use parts::{Drawn, Fault, Login, check, lowest};

impl House {
    // What is wrong with a login.
    // An asking has these rows too, but others between them: one list would hide the order of the faults.
    fn judge_login<A: Accounts, D: Drawn>(
        &self,
        accounts: &A,
        drawn: &D,
        reader: u16,
        login: Login,
    ) -> Option<Fault>
        ensures { result ≡ first_fault (login_judged self.now.side (A.listed accounts.now) (D.left drawn.now) reader login) }
    {
        lowest(&[
            check(Fault::Unknown, is_unknown(accounts, reader)),
            check(Fault::AccountClosed, is_closed(accounts, reader)),
            check(Fault::NotLately, !self.side.clock().is_lately(login.tick)),
            check(Fault::NoDrawnBytes, drawn.count() < DRAWN),
            check(Fault::NotNow, self.side.waits()),
        ])
    }

    // Decides on a login of a reader, whatever the memory is: a login is not remembered, and a device that does not
    // write does not refuse it.
    pub fn log_in<A: Accounts, D: Drawn>(
        &self,
        accounts: &A,
        drawn: &mut D,
        reader: u16,
        login: Login,
    ) -> Result<Granted, Fault>
        ensures { (es : List Entry) (j w : Bool) → LogsIn
            (home self.now (A.listed accounts.now) es j w (D.left drawn.old))
            reader login result
            (home self.now (A.listed accounts.now) es j w (D.left drawn.new)) }
    {
        if let Some(fault) = self.judge_login(accounts, drawn, reader, login) {
            return Err(fault);
        }
        let given = Given {
            service: 0,
            reader,
            number: login.number,
            asked: login.tick,
            own: self.key,
            under: own_key(accounts, reader),
        };
        Ok(self.give(drawn, given))
    }
}
