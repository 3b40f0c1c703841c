// Readers and services of the town, their accounts, and the thefts of their keys.
use super::draw::stream;
use super::say;
use super::town::{Post, Shop, Town};
use super::want::short;
use box_side::ReaderBox;
use commands::line::{Account, Side};
use held::Supply;
use house_rules::Changed;
use parts::{Fault, Key};
use printed::Text;
use service_rules::Side as Keeper;
use std::alloc::AllocError;
use torn::Torn;

const MAX_READERS: usize = 16;

const MAX_SERVICES: usize = 8;

impl Town {
    // Has a reader or a service this number?
    fn is_taken(&self, number: u16) -> bool {
        self.posts.contains_key(&number) || self.shops.contains_key(&number)
    }

    // What came of a change of accounts; none where the house crashed at its write, or refused it.
    fn changed(
        &mut self,
        out: &mut Text,
        changed: Result<Changed, Fault>,
    ) -> Result<Option<Changed>, AllocError> {
        if self.house.accounts.cut.is_some() {
            self.restart_house(out)?;
            return Ok(None);
        }
        match changed {
            Ok(changed) => Ok(Some(changed)),
            Err(fault) => {
                say::fault(out, Side::House, fault)?;
                Ok(None)
            }
        }
    }

    // Tells the house to open an account; is it open then?
    fn open(&mut self, out: &mut Text, account: Account) -> Result<bool, AllocError> {
        let changed = self.house.open(account.number, account.key);
        Ok(self.changed(out, changed)?.is_some())
    }

    // A box that holds nothing, with these drawn bytes.
    pub(crate) fn empty_box(
        &self,
        number: u16,
        key: Key,
        drawn: Supply,
    ) -> Result<ReaderBox<Supply>, AllocError> {
        ReaderBox::start(self.heap, number, self.tick, key, drawn).map_err(|_| AllocError)
    }

    // A service that remembers nothing.
    fn empty_shop(&self, number: u16, key: Key) -> Result<Shop, AllocError> {
        let memory = Torn::new(self.heap)?;
        let side = Keeper::start(number, self.rules.lag, self.tick, &memory).map_err(
            |_| AllocError,
        )?;
        let drawn = stream(self.heap, &self.rules.seed, number)?;
        Ok(Shop {
            side,
            key,
            memory,
            drawn,
        })
    }

    // A reader with its box.
    pub(crate) fn add_reader(
        &mut self,
        out: &mut Text,
        account: Account,
    ) -> Result<(), AllocError> {
        let Account { number, key } = account;
        if self.posts.len() >= MAX_READERS || self.is_taken(number) {
            return say::line_fault(out);
        }
        if !self.open(out, account)? {
            return Ok(());
        }
        let drawn = stream(self.heap, &self.rules.seed, number)?;
        let reader_box = self.empty_box(number, key, drawn)?;
        let _ = self.posts.insert(number, Post { key, reader_box })?;
        self.judge.add(number, key)?;
        say::numbers(out, b"reader", &[u64::from(number)])
    }

    // A service.
    pub(crate) fn add_service(
        &mut self,
        out: &mut Text,
        account: Account,
    ) -> Result<(), AllocError> {
        let Account { number, key } = account;
        if self.shops.len() >= MAX_SERVICES || self.is_taken(number) {
            return say::line_fault(out);
        }
        if !self.open(out, account)? {
            return Ok(());
        }
        let shop = self.empty_shop(number, key)?;
        let _ = self.shops.insert(number, shop)?;
        self.judge.add(number, key)?;
        say::numbers(out, b"service", &[u64::from(number)])
    }

    // Tells the house to close an account.
    pub(crate) fn close(&mut self, out: &mut Text, n: u64) -> Result<(), AllocError> {
        let changed = self.house.close(short(n));
        match self.changed(out, changed)? {
            Some(Changed::Done) => say::numbers(out, b"closed", &[n]),
            Some(Changed::Same) => say::numbers(out, b"same", &[n]),
            None => Ok(()),
        }
    }

    // The own key of somebody in the town, 0 being the house.
    fn own_key(&self, number: u16) -> Option<Key> {
        if number == 0 {
            return Some(self.house.house.key);
        }
        if let Some(post) = self.posts.get(&number) {
            return Some(post.key);
        }
        let shop = self.shops.get(&number)?;
        Some(shop.key)
    }

    // Outsiders have an own key from now on.
    pub(crate) fn steal(&mut self, out: &mut Text, n: u64) -> Result<(), AllocError> {
        let number = short(n);
        let Some(key) = self.own_key(number) else {
            return say::line_fault(out);
        };
        self.judge.note_theft(number)?;
        say::key(out, n, &key)
    }
}
