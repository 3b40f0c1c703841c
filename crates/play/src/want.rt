// A reader's line.
use super::bring::{Mail, tell};
use super::say;
use super::town::Town;
use box_side::{Show, Told};
use commands::line::Want;
use judge_rules::Done;
use parts::What;
use printed::Text;
use std::alloc::AllocError;
use words::hex_bytes;

// A number that two bytes hold; one that is too high stays too high.
pub(crate) fn short(n: u64) -> u16 {
    u16::try_from(n).unwrap_or(u16::MAX)
}

impl Town {
    // A line at a reader's box.
    pub(crate) fn want(&mut self, out: &mut Text, want: Want<'_>) -> Result<(), AllocError> {
        let reader = short(want.reader);
        if !self.posts.contains_key(&reader) {
            return say::line_fault(out);
        }
        let bytes = hex_bytes(self.heap, want.what)?;
        let mail = self.want_at(out, reader, want, What::new(&bytes))?;
        self.deliver(out, mail)
    }

    // What the box makes of the line; one that it does not refuse is noted by the judge.
    fn want_at(
        &mut self,
        out: &mut Text,
        reader: u16,
        want: Want<'_>,
        what: What,
    ) -> Result<Option<Mail>, AllocError> {
        let service = short(want.service);
        let Some(post) = self.posts.get_mut(&reader) else {
            return Ok(None);
        };
        let told = post.reader_box.want(self.heap, service, want.ticket, what);
        if let Ok(
            Told {
                show: Show::LogsIn | Show::Asks(_),
                ..
            },
        ) = &told
        {
            let wanted = Done {
                service,
                reader,
                what,
                at: self.tick,
            };
            let _ = self.judge.note_line(wanted)?;
        }
        tell(out, reader, told)
    }
}
