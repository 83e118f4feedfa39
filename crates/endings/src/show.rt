//! What a run shows.
ghost use Rattle.std.specs.Prelude.{◌≡◌, [], ◌∷◌, codes, IfOk};
ghost use Rattle.boundary.specs.Traces.{texts};
ghost use Rattle.endings.specs.Show.{bare_shown, linked_shown, method_names, shown_by};

use base::NoMemory;
use name_laws::written_name;
use resolved_program::Program;
use std::alloc::Global;

/// What a command shows of a run.
#[derive(Clone, Copy)]
pub enum Show {
    /// What the program puts out.
    Output,
    /// The lines of its trace, with those of the cycles or without.
    Trace { cycles: bool },
}

/// The same, with the names of the program's methods by number.
#[derive(Drop)]
pub enum NamedShow {
    Output,
    Trace { cycles: bool, names: Vec<Vec<u8>> },
}

/// The name of the one method of a bare image.
fn boot_name(alloc: Global) -> Result<Vec<Vec<u8>>, NoMemory>
    ensures { IfOk result (λ names. texts names.items ≡ codes "boot" ∷ []) }
{
    let mut names = Vec::new(alloc);
    names.push(b"boot".to_vec(alloc)?)?;
    Ok(names)
}

/// What is shown of the run of a bare image.
pub fn bare_show(alloc: Global, show: Show) -> Result<NamedShow, NoMemory>
    ensures { IfOk result (λ named. shown_by named ≡ bare_shown show) }
{
    match show {
        Show::Output => Ok(NamedShow::Output),
        Show::Trace { cycles } => match boot_name(alloc) {
            Ok(names) => Ok(NamedShow::Trace { cycles, names }),
            Err(NoMemory) => Err(NoMemory),
        },
    }
}

/// The names of a program's methods, by number.
fn method_names(alloc: Global, program: &Program) -> Result<Vec<Vec<u8>>, NoMemory>
    ensures { IfOk result (λ names. texts names.items ≡ method_names program.now) }
{
    let mut names = Vec::new(alloc);
    for number in 0..program.method_count() {
        names.push(written_name(alloc, program, number)?)?;
    }
    Ok(names)
}

/// What is shown of the run of a program of class files.
pub fn linked_show(alloc: Global, show: Show, program: &Program) -> Result<NamedShow, NoMemory>
    ensures { IfOk result (λ named. shown_by named ≡ linked_shown program.now show) }
{
    match show {
        Show::Output => Ok(NamedShow::Output),
        Show::Trace { cycles } => match method_names(alloc, program) {
            Ok(names) => Ok(NamedShow::Trace { cycles, names }),
            Err(NoMemory) => Err(NoMemory),
        },
    }
}
