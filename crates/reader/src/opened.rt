// The opened round: that of a file, or one that differs from it by a candidate's row or by a candidate's place on a merit list.
ghost use Rattle.reader.specs.Opened.{OpenedFile, opened_prop};

use crate::change::Change;
use questions::head::Head;

// An accepted file with its head and the place where each record behind the head starts, a change, and the bytes of the new row where the change is
// one to a row. The file has a lifetime of its own, since what is read from it stays when the table of starts goes.
#[derive(Clone, Copy)]
pub struct Opened<'f, 'a> {
    pub file: &'f [u8],
    pub head: Head,
    pub change: Change,
    pub row: &'a [u8],
    pub starts: &'a [u32],
    pub ghost hand: { OpenedFile file.now head change row.now starts.now } by { opened_prop file.now head change row.now starts.now },
}
