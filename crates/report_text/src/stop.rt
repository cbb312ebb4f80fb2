// The stop line of a report.
ghost use Rattle.std.specs.Prelude.{◌≡◌, [], ◌≤◌, length, Some};
ghost use Rattle.printing.specs.Lines.{or_stopped};
ghost use Rattle.printing.specs.Faults.{told_fault};
ghost use Rattle.printing.specs.Put.{PutIn};
ghost use Rattle.report_text.specs.Put.{page_room};
ghost use Rattle.report_text.specs.Files.{name_text};

use crate::begin::{Name, Stopped};
use printing::stop::put_line;

fn name_text(name: Name) -> &'static [u8]
    ensures { result.now ≡ name_text name }
{
    match name {
        Name::List => b"list",
        Name::Operands => b"operands",
        Name::Schedule => b"schedule",
        Name::Areas => b"areas",
    }
}

pub(crate) fn put_stop(out: &mut [u8], stopped: Stopped) -> usize
    requires { page_room ≤ length out.old }
    ensures { PutIn page_room out.old out.new 0 result (or_stopped (told_fault (Some stopped.fault)) (name_text stopped.name) []) }
{
    put_line(out, 0, name_text(stopped.name), Some(stopped.fault))
}
