//! The methods one after another: their text, and where they head loops.
ghost use Rattle.std.specs.Prelude.{◌≡◌, ℕ, List, length, Contains, Some, OnOk, IfOk, slice_get};
ghost use Rattle.std.specs.List.Sorted.{IsStrictlyIncreasing};
ghost use Rattle.method_flow.specs.Flow.{Coded, IsFlowOf};
ghost use Rattle.name_laws.specs.Written.{written_name};
ghost use Rattle.program_tables.specs.Resolved.{resolved};
ghost use Rattle.loop_finder.specs.Headers.{AreMethodHeaders};
ghost use Rattle.source_headers.specs.Found.{AreRising};
ghost use Rattle.source_headers.specs.Gathered.{AddsLines, AddsMethod, AddsPlaces, AreFiles, AreGathered};
ghost use Rattle.source_headers.specs.Known.{IsWith};
ghost use Rattle.source_places.specs.Methods.Sources.{file_of};
ghost use Rattle.source_headers.specs.Told.{headed_lines, headed_places};

use crate::found::from_place;
use crate::known::Known;
use crate::methods::{Method, MethodLoops, loops_of, put_method};
use base::NoMemory;
use bound_causes::Shape;
use bound_texts::sources::SourceBounds;
use class_pool::ClassFile;
use loop_finder::ProgramLoops;
use loop_rules::FoundLoop;
use method_flow::FlowProgram;
use resolved_program::Program;
use source_places::methods::{all_lines, file_of, lines_at};
use std::alloc::Global;

/// The text of methods, the methods whose loops have one entry each with the places where they head loops, and the files of the
/// program with the lines where loops are headed, and with those of methods whose loops have several entries.
#[derive(Drop)]
pub struct Gathered {
    pub text: Vec<u8>,
    pub methods: Known,
    pub files: Known,
}

/// Adds the file of a class, where it is told.
fn add_file(alloc: Global, files: &mut Known, class: &ClassFile) -> Result<(), NoMemory>
    ensures names { OnOk result (IsWith files.old.names files.new.names (λ file. file_of class.now ≡ Some file)) }
    ensures sites { OnOk result (IsWith files.old.sites files.new.sites (λ _. ⊥)) }
{
    match file_of(alloc, class)? {
        Some(file) => files.add(alloc, &file, &[]),
        None => Ok(()),
    }
}

/// The files of a program.
fn files_of(alloc: Global, program: &Program) -> Result<Known, NoMemory>
    ensures names { IfOk result (λ files. AreFiles program.now files.names) }
    ensures sites { IfOk result (λ files. (s : List ℕ × ℕ) → ¬ Contains files.sites s) }
{
    let mut files = Known::new(alloc);
    for number in 0..program.class_count() {
        add_file(alloc, &mut files, program.class(number))?;
    }
    Ok(files)
}

/// The lines at which a method of this shape heads loops, or all where these have several entries.
fn headed_lines(alloc: Global, lines: &[Option<u16>], shape: &Shape) -> Result<Vec<u32>, NoMemory>
    ensures { IfOk result (λ found. found.items ≡ headed_lines lines.now shape.now) }
{
    match shape {
        Shape::Irreducible(_) => all_lines(alloc, lines),
        Shape::Reducible(places) => lines_at(alloc, lines, places),
    }
}

/// Adds the lines at which a method heads loops, or all where these have several entries.
fn add_lines(alloc: Global, files: &mut Known, loops: &MethodLoops) -> Result<(), NoMemory>
    ensures { OnOk result (AddsLines files.old files.new loops.now.source loops.now.shape) }
{
    match &loops.source {
        Some(source) => {
            let lines = headed_lines(alloc, &source.lines, &loops.shape)?;
            files.add(alloc, &source.file, &lines)
        }
        None => Ok(()),
    }
}

/// Adds a method with the places where it heads loops, where these have one entry each.
fn add_places(
    alloc: Global,
    methods: &mut Known,
    name: &[u8],
    shape: &Shape,
) -> Result<(), NoMemory>
    ensures { OnOk result (AddsPlaces methods.old methods.new name.now shape.now) }
{
    match shape {
        Shape::Irreducible(_) => Ok(()),
        Shape::Reducible(places) => methods.add(alloc, name, places),
    }
}

impl Gathered {
    /// Adds a method by its loops.
    fn add(
        &mut self,
        alloc: Global,
        notes: &SourceBounds,
        found: &[FoundLoop],
        method: Method<'_>,
        loops: &MethodLoops,
    ) -> Result<(), NoMemory>
        requires places { IsStrictlyIncreasing (headed_places loops.now.shape) }
        requires found { AreRising found.now }
        ensures { OnOk result (AddsMethod self.old self.new notes.now found.now method.entry.number method.entry.name.now loops.now) }
    {
        put_method(&mut self.text, notes, method, loops, found)?;
        add_places(alloc, &mut self.methods, method.name, &loops.shape)?;
        add_lines(alloc, &mut self.files, loops)
    }
}

/// Adds the methods with code.
fn add_methods(
    alloc: Global,
    program: &Program,
    flow: &FlowProgram,
    notes: &SourceBounds,
    loops: &ProgramLoops,
    gathered: &mut Gathered,
) -> Result<(), NoMemory>
    requires flow { IsFlowOf (resolved program.now) flow.now }
    requires names { (m : ℕ) (k : Coded) → slice_get flow.now.methods m ≡ Some k → k.name ≡ written_name program.now m }
    requires found { AreRising loops.now.counted.items }
    requires headers { AreMethodHeaders (resolved program.now) (length flow.now.methods) loops.now.headers.items }
    requires none { AreGathered program.now notes.now loops.now.counted.items 0 gathered.old }
    ensures { OnOk result (AreGathered program.now notes.now loops.now.counted.items (length flow.now.methods) gathered.new) }
{
    let mut left: &[FoundLoop] = &loops.counted;
    for number in 0..flow.method_count() {
        left = from_place(left, number, 0);
        if number == flow.boot() {
            continue;
        }
        let told = loops_of(alloc, program, &loops.headers[number as usize], number)?;
        let name = flow.method(number).name();
        gathered.add(alloc, notes, left, Method { number, name }, &told)?;
    }
    Ok(())
}

/// What is gathered of a program.
pub(crate) fn gather(
    alloc: Global,
    program: &Program,
    flow: &FlowProgram,
    notes: &SourceBounds,
    loops: &ProgramLoops,
) -> Result<Gathered, NoMemory>
    requires flow { IsFlowOf (resolved program.now) flow.now }
    requires names { (m : ℕ) (k : Coded) → slice_get flow.now.methods m ≡ Some k → k.name ≡ written_name program.now m }
    requires found { AreRising loops.now.counted.items }
    requires headers { AreMethodHeaders (resolved program.now) (length flow.now.methods) loops.now.headers.items }
    ensures { IfOk result (AreGathered program.now notes.now loops.now.counted.items (length flow.now.methods)) }
{
    let files = files_of(alloc, program)?;
    let mut gathered = Gathered {
        text: Vec::new(alloc),
        methods: Known::new(alloc),
        files,
    };
    add_methods(alloc, program, flow, notes, loops, &mut gathered)?;
    Ok(gathered)
}
