// The table of a dossier, read line by line. Words and numbers come from `reading`, and no byte is seen here.
#![tactic(auto)]

ghost use Rattle.std.specs.Prelude.{◌≡◌, ◌<◌, ◌%◌, IfOk};
ghost use Rattle.alc.specs.Rows.{refusal};
ghost use Rattle.alc.specs.Entries.{shown};
ghost use Rattle.alc.specs.Shown.{row_number};
ghost use Rattle.lines.specs.Walk.{claims_from};
ghost use Rattle.parts.specs.Parts.{entry_in, entry_rows, TableRead};

use alc::{Entry, Kind, Refusal, Table};
use lines::{IN_TABLE, Line, Next};
use parts::{Listed, Stopped, ranged};

// The line of the table that a line of the text is.
fn made_entry(l: Line) -> Entry
    ensures { shown result ≡ entry_in l }
{
    Entry {
        kind: Kind::from(l.word),
        x: (l.n0 % 256) as u8,
        y: (l.n1 % 256) as u8,
    }
}

// The line of the table that a line of the text is, behind those of the table, or the first row that it does not pass.
fn next_entry(table: &Table, l: Line) -> Result<Entry, Refusal>
    requires { l.word < claims_from }
    ensures row { row_number result ≡ refusal (entry_rows table.now l) }
    ensures entry { IfOk result (λ e. shown e ≡ entry_in l) }
{
    let n = table.len();
    if n >= 256 {
        return Err(Refusal::TooMany);
    }
    if !ranged(l, n, 0) {
        return Err(Refusal::OutOfRange);
    }
    let entry = made_entry(l);
    if table.has(entry) {
        return Err(Refusal::Repeated);
    }
    Ok(entry)
}

// Reads the table, up to the first line that is not of it.
pub fn read_table(text: &[u8]) -> Result<Listed, Stopped<Listed>>
    ensures { TableRead text.now result }
{
    let mut table = Table::new();
    let mut at = 0;
    loop {
        let line = table.len() + 1;
        match reading::read(text, at, IN_TABLE) {
            Next::Found(l, next) => {
                if l.word >= lines::IS {
                    return Ok(Listed { table, at });
                }
                match next_entry(&table, l) {
                    Ok(entry) => table.push(entry),
                    Err(refusal) => return Err(Stopped::new(refusal, line, Listed { table, at })),
                }
                at = next;
            }
            Next::Bad => return Err(Stopped::new(Refusal::Malformed, line, Listed { table, at })),
            Next::End => return Ok(Listed { table, at }),
        }
    }
}
