// A device whose next write can be cut, as a crash does.
ghost use Rattle.std.specs.Prelude.{◌≡◌, true, not, ◌&&◌, is_ok, is_some, None};
ghost use Rattle.torn.specs.Device.{cut_by, cut_of, next_by};

use held::Cut;
use parts::NotWritten;

// What is held; whether the device writes; how the next write is to be cut, if it is; how the last write was cut, until all
// is read again.
// Three fields: a device that does not write may have a cut ahead of it or behind it.
#[derive(Drop)]
pub struct Device<H, W> {
    pub held: H,
    pub writes: bool,
    pub next: Option<Cut<()>>,
    pub cut: Option<Cut<W>>,
}

// What a cut leaves of this write.
fn cut_of<W: Copy>(left: Cut<()>, what: W) -> Cut<W>
    ensures { result ≡ cut_of left what }
{
    match left {
        Cut::Old => Cut::Old,
        Cut::New(()) => Cut::New(what),
        Cut::Junk => Cut::Junk,
    }
}

impl<H: Drop, W: Copy> Device<H, W> {
    // A device that writes, with no cut ahead.
    pub(crate) fn whole(held: H) -> Device<H, W>
        ensures held { result.held ≡ held }
        ensures writes { result.writes ≡ true }
        ensures next { result.next ≡ None }
        ensures cut { result.cut ≡ None }
    {
        Device {
            held,
            writes: true,
            next: None,
            cut: None,
        }
    }

    // Does this write go on? If it is to be cut, what that leaves of it is remembered.
    pub(crate) fn begin(&mut self, what: W) -> Result<(), NotWritten>
        ensures wrote { is_ok result ≡ (self.new.writes && not (is_some self.new.cut)) }
        ensures cut { self.new.cut ≡ cut_by self.old what }
        ensures next { self.new.next ≡ next_by self.old }
        ensures held { self.new.held ≡ self.old.held }
        ensures writes { self.new.writes ≡ self.old.writes }
    {
        if !self.writes || self.cut.is_some() {
            return Err(NotWritten);
        }
        match self.next.take() {
            None => Ok(()),
            Some(left) => {
                self.cut = Some(cut_of(left, what));
                Err(NotWritten)
            }
        }
    }
}
