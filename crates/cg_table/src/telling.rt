//! What a program of rows writes of its tables.

use crate::rows::{Row, rows, written_out};
use cg_base::Memory;
use std::alloc::Global;
use std::fs::{File, Files};
use std::io;
use std::io::Write;
use std::process::ExitCode;

/// Says a row that has another answer.
fn tell_row<F: Fn(Global, &str) -> Result<String, Memory>>(
    alloc: Global,
    told: &mut String,
    row: &Row,
    answer: &F,
) -> Result<(), Memory>
    requires { F.IsAlwaysCallable answer.now }
{
    let given = written_out(alloc, row.given.as_str())?;
    let wanted = written_out(alloc, row.wanted.as_str())?;
    let gives = answer(alloc, given.as_str())?;
    if gives != wanted {
        let name = &row.name;
        writeln!(told, "{name}: gives\n{gives}\nand not\n{wanted}")?;
    }
    Ok(())
}

fn read_text<R: Files>(rt: &R, alloc: Global, file: &str) -> io::Result<String> {
    io::read_to_string(alloc, File::open(rt, file)?)
}

/// The tables of a program, which are files where it runs, and what is told of those that were tried.
#[derive(Drop)]
pub struct Tables<'a, R> {
    rt: &'a R,
    alloc: Global,
    told: String,
}

impl<'a, R: Files> Tables<'a, R> {
    /// No table was tried yet.
    pub fn new(rt: &'a R, alloc: Global) -> Tables<'a, R> {
        Tables {
            rt,
            alloc,
            told: String::new(alloc),
        }
    }

    /// Tells how many rows the table in this file has, and each row whose answer is not the one that is wanted.
    ///
    /// Where the file is not read, what fails is told.
    pub fn tell<F: Fn(Global, &str) -> Result<String, Memory>>(
        &mut self,
        file: &str,
        answer: F,
    ) -> Result<(), Memory>
        requires { F.IsAlwaysCallable answer }
    {
        let table = match read_text(self.rt, self.alloc, file) {
            Ok(table) => table,
            Err(fault) => {
                writeln!(&mut self.told, "{file}: {fault}")?;
                return Ok(());
            }
        };
        let rows = rows(self.alloc, table.as_str())?;
        let count = rows.len();
        writeln!(&mut self.told, "{file}: {count} rows")?;
        for row in &rows {
            tell_row(self.alloc, &mut self.told, row, &answer)?;
        }
        Ok(())
    }

    /// All that was told.
    pub fn told(self) -> String {
        self.told
    }
}

/// Writes what was told, and answers the status of the program: success, or failure where memory was not found or a write fails.
pub fn ended<O: Write + Drop>(told: Result<String, Memory>, mut out: O) -> ExitCode {
    let Ok(told) = told else {
        return ExitCode::FAILURE;
    };
    match out.write_all(told.as_bytes()) {
        Ok(()) => ExitCode::SUCCESS,
        Err(_) => ExitCode::FAILURE,
    }
}
