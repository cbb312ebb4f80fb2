// What a report begins with: the list and the operands read, and the first fault of all (01, "The report program").
ghost use Rattle.std.specs.Prelude.{◌≡◌, length, option_copied};
ghost use Rattle.std.specs.Result.{result_map_both};
ghost use Rattle.words.specs.Instructions.{cell_limit, list_limit};
ghost use Rattle.words.specs.Check.{list_check};
ghost use Rattle.theory_report.specs.Report.{verdict_fault};
ghost use Rattle.report_text.specs.Files.{fault_of, opened, named, ListTaken, CellsTaken, BeginsWith};

use crate::Files;
use list_file::reader::read;
use operands_file::read_operands;
use printing::Fault;
use words::refusal::Refusal;
use words::{Areas, CELL_LIMIT, check_list_against};

const FILE_LIMIT: usize = 65536;

// What a stop line names.
#[derive(Clone, Copy)]
pub enum Name {
    List,
    Operands,
    Schedule,
    Areas,
}

// The first fault, and what its line names.
#[derive(Clone, Copy)]
pub struct Stopped {
    pub name: Name,
    pub fault: Fault,
}

// Where a report begins without a fault: how many words and operand cells were read.
#[derive(Clone, Copy)]
pub struct Begun {
    pub words: usize,
    pub operands: usize,
}

// Missing, then 11.
fn opened(file: Option<&[u8]>) -> Result<&[u8], Fault>
    ensures { result_map_both (λ bytes. bytes.now) (λ fault. fault) result ≡ opened (option_copied file.entry) }
{
    let bytes = file.ok_or(Fault::Missing)?;
    if FILE_LIMIT < bytes.len() {
        return Err(Fault::from(Refusal::Room.at(FILE_LIMIT)));
    }
    Ok(bytes)
}

// How many words a list has, or what its reader says.
fn read_list(file: Option<&[u8]>, words: &mut [u32]) -> Result<usize, Fault>
    requires { length words.old ≡ list_limit }
    ensures { ListTaken (option_copied file.entry) words.new result }
{
    let bytes = opened(file)?;
    let list = read(bytes, words)?;
    Ok(list.count)
}

// How many numbers the operands are, or what their reader says.
fn read_cells(file: Option<&[u8]>, cells: &mut [f64]) -> Result<usize, Fault>
    requires { length cells.old ≡ cell_limit }
    ensures { CellsTaken (option_copied file.entry) cells.new result }
{
    let bytes = opened(file)?;
    let operands = read_operands(bytes, cells)?;
    Ok(operands.count)
}

// The list against so many operand cells and 256 result cells.
fn check_areas(words: &[u32], operands: usize) -> Result<(), Fault>
    ensures { fault_of result ≡ verdict_fault (list_check (record { operands = operands; results = cell_limit }) words.now) }
{
    let results = CELL_LIMIT;
    check_list_against(words, Areas { operands, results })?;
    Ok(())
}

// A fault gets what its line names.
fn named<A>(answer: Result<A, Fault>, name: Name) -> Result<A, Stopped>
    ensures { result ≡ named answer name }
{
    answer.map_err(|fault| Stopped { name, fault })
}

// The files in 01's order, then the list against its areas.
pub(crate) fn begin(files: Files, words: &mut [u32], cells: &mut [f64]) -> Result<Begun, Stopped>
    requires { (length words.old ≡ list_limit) × (length cells.old ≡ cell_limit) }
    ensures { BeginsWith (option_copied files.entry.list) (option_copied files.entry.operands) (option_copied files.entry.schedule) words.new cells.new result }
{
    let count = named(read_list(files.list, words), Name::List)?;
    let operands = named(read_cells(files.operands, cells), Name::Operands)?;
    named(opened(files.schedule), Name::Schedule)?;
    named(check_areas(&words[..count], operands), Name::Areas)?;
    Ok(Begun {
        words: count,
        operands,
    })
}
