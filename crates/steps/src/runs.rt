// In runs of bytes and comments.
ghost use Rattle.std.specs.Prelude.{◌≡◌};
ghost use Rattle.readings.specs.Arrows.{in_run, follow};

use crate::single::only;
use readings::reading::{Quoted, Reading, Run};
use words::bytes::{is_blank, is_identifier_continue};

pub(crate) fn in_run(run: Run, b: u8) -> Reading
    ensures { result ≡ follow (in_run run) b }
{
    match (run, b) {
        (Run::Blanks, _) => only(is_blank(b), Reading::Run(Run::Blanks)),
        (Run::X, b'\'') => Reading::Quoted(Quoted::Blob),
        (Run::Word | Run::X, _) => only(is_identifier_continue(b), Reading::Run(Run::Word)),
        (Run::Stray, _) => only(!is_blank(b), Reading::Run(Run::Stray)),
        (Run::Line, b'\n') | (Run::BlockStar, b'/') => Reading::Whole,
        (Run::Line, _) => Reading::Run(Run::Line),
        (Run::Block | Run::BlockStar, b'*') => Reading::Run(Run::BlockStar),
        (Run::Block | Run::BlockStar, _) => Reading::Run(Run::Block),
    }
}
