// What a town does at each line of its script.
ghost use Rattle.std.specs.Prelude.{◌≡◌, OnOk};
ghost use Rattle.play.specs.Play.{Hears, Obeyed};
ghost use Rattle.play.specs.Say.{line_fault, total_line};
ghost use Rattle.printed.specs.Printed.{shown};

use super::say;
use super::town::Town;
use box_side::ReaderBox;
use commands::line::{Line, Side};
use commands::lines::read;
use held::{Cut, Supply};
use printed::Text;
use std::alloc::AllocError;
use std::mem;

const END_OF_TIME: u64 = 1 << 63;

impl Town {
    // Obeys a line that was read.
    pub fn obey(&mut self, out: &mut Text, line: Line<'_>) -> Result<(), AllocError>
        ensures { OnOk result (Obeyed self.old (shown out.old) line.entry self.new (shown out.new)) }
    {
        match line {
            Line::Blank => Ok(()),
            Line::Town(_) => say::line_fault(out),
            Line::Reader(account) => self.add_reader(out, account),
            Line::Service(account) => self.add_service(out, account),
            Line::Tick(to) => self.pass(out, to),
            Line::Want(want) => self.want(out, want),
            Line::Close(n) => self.close(out, n),
            Line::Hold(k) => {
                self.held = k;
                Ok(())
            }
            Line::Repeat { word, side } => self.repeat(out, word, side),
            Line::Join(join) => self.join(out, join),
            Line::Steal(n) => self.steal(out, n),
            Line::Lock(lock) => self.lock(out, lock),
            Line::Unlock(opening) => self.unlock(out, opening),
            Line::Bytes(hex) => self.bytes(out, hex),
            Line::Fall(side) => self.fall(out, side),
            Line::Cut { side, left } => self.cut(out, side, left),
            Line::Device { side, writes } => self.device(out, side, writes),
        }
    }

    // Hears a line as it stands in a script: obeys what it says, or refuses what can't be read.
    pub fn hear(&mut self, out: &mut Text, line: &[u8]) -> Result<(), AllocError>
        ensures { OnOk result (Hears self.old (shown out.old) line.now self.new (shown out.new)) }
    {
        match read(line) {
            Some(said) => self.obey(out, said),
            None => self.refuse(out),
        }
    }

    // A line that can't be read.
    pub fn refuse(&self, text: &mut Text) -> Result<(), AllocError>
        ensures { OnOk result (shown text.new ≡ line_fault (shown text.old)) }
    {
        say::line_fault(text)
    }

    // The last line: how many deeds there were, and what the judge said of them.
    pub fn total(&self, out: &mut Text) -> Result<(), AllocError>
        ensures { OnOk result (shown out.new ≡ total_line (shown out.old) self.now.total) }
    {
        let total = self.total;
        say::numbers(
            out,
            b"total",
            &[total.deeds, total.asked, total.stolen, total.unasked],
        )
    }

    // Everybody is told the tick, which does not go back and stays below 2^63.
    fn pass(&mut self, out: &mut Text, to: u64) -> Result<(), AllocError> {
        if to < self.tick || to >= END_OF_TIME {
            return say::line_fault(out);
        }
        self.tick = to;
        let _ = self.house.tick(to);
        for shop in self.shops.values_mut() {
            let _ = shop.tick(to);
        }
        for post in self.posts.values_mut() {
            let _ = post.reader_box.tick(to);
        }
        say::numbers(out, b"tick", &[to])
    }

    // A side crashes and starts again.
    fn fall(&mut self, out: &mut Text, side: Side) -> Result<(), AllocError> {
        match side {
            Side::House => self.restart_house(out),
            Side::Service(n) => self.restart_service(out, n),
            Side::Reader(n) => self.restart_box(out, n),
        }
    }

    // A box starts again, with nothing under way; its drawn bytes go on.
    fn restart_box(&mut self, out: &mut Text, n: u16) -> Result<(), AllocError> {
        let Some(post) = self.posts.get_mut(&n) else {
            return say::line_fault(out);
        };
        let none = Supply::new(self.heap);
        let drawn = mem::replace(&mut post.reader_box.drawn, none);
        post.reader_box = ReaderBox::start(self.heap, n, self.tick, post.key, drawn).map_err(
            |_| AllocError,
        )?;
        say::started(out, Side::Reader(n), false)
    }

    // A side's next write is cut so.
    fn cut(&mut self, out: &mut Text, side: Side, left: Cut<()>) -> Result<(), AllocError> {
        match side {
            Side::House => {
                self.house.memory.next = Some(left);
                self.house.accounts.next = Some(left);
                Ok(())
            }
            Side::Service(n) => match self.shops.get_mut(&n) {
                None => say::line_fault(out),
                Some(shop) => {
                    shop.memory.next = Some(left);
                    Ok(())
                }
            },
            Side::Reader(_) => say::line_fault(out),
        }
    }

    // A side's device writes from now on, or does not.
    fn device(&mut self, out: &mut Text, side: Side, writes: bool) -> Result<(), AllocError> {
        match side {
            Side::House => {
                self.house.memory.writes = writes;
                self.house.accounts.writes = writes;
                Ok(())
            }
            Side::Service(n) => match self.shops.get_mut(&n) {
                None => say::line_fault(out),
                Some(shop) => {
                    shop.memory.writes = writes;
                    Ok(())
                }
            },
            Side::Reader(_) => say::line_fault(out),
        }
    }
}
