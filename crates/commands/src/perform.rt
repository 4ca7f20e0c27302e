//! The whole program, over named files, a reader and two writers.

ghost use Rattle.std.specs.Prelude.{OnOk};
ghost use Rattle.std.specs.Io.KnownBytes.{Appends};

use crate::campaigns::perform_campaign;
use crate::explore::perform_explore;
use crate::fault::RunFault;
use crate::files::Files;
use crate::limits::DEFAULT_LIMITS;
use crate::needing::write_missing;
use crate::parts::{RunParts, read_parts, spec_of};
use crate::picturing::perform_picture;
use crate::reading::{read_input, read_inputs, read_source, read_spec, read_text};
use crate::refusal::Refusal;
use crate::running::{is_cycle, perform_eval, perform_run, perform_trace};
use crate::screen::{lines_for, write_refusal};
use crate::shrink::perform_shrink;
use crate::tables::perform_tables;
use crate::terminal::{Terminal, TerminalPrompt, source_files};
use atom_spec::{Spec, SpecificationLine};
use command_line::{
    AsmWords, CheckWords, Command, NeedsWords, RunWords, VERSION, command_of, shown_words_text,
    words_text,
};
use debugger_script::{NoPrompt, Prompt};
use debugging::debug;
use inputs::{Input, class_of};
use listing::{ClassFile, list};
use std::alloc::Global;
use std::rt::Clock;
use std::sync::Wait;
use std::thread::Threads;
use trace::{ByteIn, ByteOut};
use trace_check::{Details, check};

/// Executes the commands of `debug`.
fn debug_parts<'w, I: ByteIn, W: ByteOut, P: Prompt>(
    alloc: Global,
    words: &RunWords<'w>,
    parts: RunParts,
    input: &mut I,
    output: &mut W,
    prompt: &mut P,
) -> Result<u8, Refusal<'w>> {
    let RunParts {
        chooser,
        spec: _,
        inputs,
    } = parts;
    let limits = DEFAULT_LIMITS;
    let entry = &words.program.entry;
    let inputs = inputs.as_slice();
    match debug(
        alloc, inputs, limits, entry, chooser, words.most, input, output, prompt,
    ) {
        Ok(()) => Ok(0),
        Err(stop) => Err(Refusal::of_debug(&words.program.names, stop)),
    }
}

/// Performs `debug`: executes the commands that are read. Its words name no specification.
fn perform_debug<'w, F: Files, I: ByteIn, W: ByteOut, E: ByteOut>(
    alloc: Global,
    words: &RunWords<'w>,
    files: &mut F,
    input: &mut I,
    output: &mut W,
    errors: &mut E,
    terminal: Terminal,
) -> Result<u8, Refusal<'w>> {
    let parts = read_parts(alloc, words, files)?;
    if terminal.has_prompts() {
        let sources = source_files(alloc, parts.inputs.as_slice());
        let mut prompt = TerminalPrompt::new(alloc, errors, words.schedule, sources.as_slice());
        debug_parts(alloc, words, parts, input, output, &mut prompt)
    } else {
        debug_parts(alloc, words, parts, input, output, &mut NoPrompt)
    }
}

/// Prints whether the trace of a text is atomic.
fn check_text<'w, W: ByteOut>(
    alloc: Global,
    words: &CheckWords<'w>,
    spec: Spec,
    text: &str,
    output: &mut W,
) -> Result<u8, Refusal<'w>> {
    let details = Details {
        serial: words.serial,
        explains: words.explains,
    };
    match check(alloc, spec, text, details, output) {
        Ok(verdict) => Ok(u8::from(is_cycle(&verdict))),
        Err(fault) => Err(Refusal::of_check(words.trace, fault)),
    }
}

/// Performs `check`: prints whether a trace is atomic.
fn perform_check<'w, F: Files, W: ByteOut>(
    alloc: Global,
    words: &CheckWords<'w>,
    files: &mut F,
    output: &mut W,
) -> Result<u8, Refusal<'w>> {
    let spec = read_spec(alloc, files, words.spec)?;
    let text = read_text(files, words.trace)?;
    check_text(alloc, words, spec, text.as_str(), output)
}

/// Returns the class of a FILE.
fn class_in<'w>(alloc: Global, file: &'w str, input: &Input) -> Result<ClassFile, Refusal<'w>> {
    match class_of(alloc, input) {
        Ok(class) => Ok(class),
        Err(fault) => Err(Refusal::Input { file, fault }),
    }
}

/// Performs `asm`: writes the class file of a source. An earlier refusal leaves OUT unchanged.
fn perform_asm<'w, F: Files>(
    alloc: Global,
    words: AsmWords<'w>,
    files: &mut F,
) -> Result<u8, Refusal<'w>> {
    let source = read_source(files, words.input)?;
    let class = class_in(alloc, words.input, &source)?;
    let bytes = class_file::write(alloc, &class)?;
    match files.write(words.output, bytes.as_slice()) {
        Ok(()) => Ok(0),
        Err(fault) => Err(Refusal::of_file(words.output, fault)),
    }
}

/// Performs `list`: prints the listing of a class.
fn perform_list<'w, F: Files, W: ByteOut>(
    alloc: Global,
    file: &'w str,
    files: &mut F,
    output: &mut W,
    terminal: Terminal,
) -> Result<u8, Refusal<'w>> {
    let input = read_input(files, file)?;
    let class = class_in(alloc, file, &input)?;
    match list(alloc, &class) {
        Ok(text) => {
            let lines = lines_for(alloc, terminal.output, text)?;
            print(output, lines.as_str())
        }
        Err(fault) => Err(Refusal::List { file, fault }),
    }
}

/// Returns the lines of a specification, or none if there is no specification.
fn lines_in(spec: &Option<Spec>) -> &[SpecificationLine] {
    match spec {
        Some(spec) => spec.lines(),
        None => &[],
    }
}

/// Performs `needs`: prints what is missing. The specification is read first, then the FILEs.
fn perform_needs<'w, F: Files, W: ByteOut>(
    alloc: Global,
    words: &NeedsWords<'w>,
    files: &mut F,
    output: &mut W,
) -> Result<u8, Refusal<'w>> {
    let spec = spec_of(alloc, files, words.spec)?;
    let inputs = read_inputs(alloc, files, words.names.files.as_slice())?;
    match write_missing(alloc, inputs.as_slice(), lines_in(&spec), output) {
        Ok(is_whole) => Ok(u8::from(!is_whole)),
        Err(fault) => Err(Refusal::of_run(&words.names, fault)),
    }
}

/// Prints why words are no command line, for `help P04`.
fn explain<'w, W: ByteOut>(
    alloc: Global,
    words: &[String],
    output: &mut W,
    terminal: Terminal,
) -> Result<u8, Refusal<'w>> {
    let text = if terminal.output {
        shown_words_text(alloc, words)?
    } else {
        words_text(alloc, words)?
    };
    print(output, text.as_str())
}

/// Prints a text.
fn print<'w, W: ByteOut>(output: &mut W, text: &str) -> Result<u8, Refusal<'w>>
    ensures { OnOk result (Appends (W.written output.old) (W.written output.new) text.now) }
{
    output.write_all(text.as_bytes())?;
    Ok(0)
}

/// Executes the command of the words.
fn command<
    'w,
    R: Clock + Eprint + Threads + Wait + Sync,
    F: Files,
    I: ByteIn,
    W: ByteOut,
    E: ByteOut,
>(
    rt: &R,
    alloc: Global,
    words: &'w [String],
    files: &mut F,
    input: &mut I,
    output: &mut W,
    errors: &mut E,
    terminal: Terminal,
) -> Result<u8, Refusal<'w>> {
    match command_of(alloc, words)? {
        Command::Eval(words) => perform_eval(alloc, &words, files, output, errors),
        Command::Run(words) => perform_run(alloc, &words, files, output, errors),
        Command::Trace(words) => perform_trace(alloc, &words, files, output),
        Command::Debug(words) => {
            perform_debug(alloc, &words, files, input, output, errors, terminal)
        }
        Command::Campaign(words) => {
            perform_campaign(rt, alloc, words, files, output, errors, terminal)
        }
        Command::Explore(words) => {
            perform_explore(rt, alloc, words, files, output, errors, terminal)
        }
        Command::Shrink(words) => { perform_shrink(alloc, words, files, output, errors, terminal) }
        Command::Check(words) => perform_check(alloc, &words, files, output),
        Command::Picture(words) => perform_picture(alloc, &words, files, output),
        Command::Asm(words) => perform_asm(alloc, words, files),
        Command::List(file) => perform_list(alloc, file, files, output, terminal),
        Command::Tables(words) => perform_tables(alloc, &words, files, output),
        Command::Needs(words) => perform_needs(alloc, &words, files, output),
        Command::Help(text) => print(output, text),
        Command::Explain(words) => explain(alloc, words, output, terminal),
        Command::Version => print(output, VERSION),
    }
}

/// Prints the line of a refusal and returns the exit status. If the line can't be printed whole, the status is that of
/// a failed device.
fn refuse<E: ByteOut>(
    alloc: Global,
    refusal: &Refusal<'_>,
    errors: &mut E,
    terminal: Terminal,
) -> u8 {
    let written = match format!(in alloc; "{refusal}") {
        Ok(text) => write_refusal(alloc, terminal.errors, text.as_str(), errors),
        Err(error) => Err(error.into()),
    };
    match written {
        Ok(()) => refusal.status(),
        Err(RunFault::Output) => 3,
        Err(_) => {
            let _written = errors.write_all(b"jvmx: Memory\n");
            3
        }
    }
}

/// Shows why words are no command line, after the line that refuses them. Ignores a failure to show it.
fn explain_words<E: ByteOut>(alloc: Global, words: &[String], errors: &mut E) {
    if let Ok(text) = shown_words_text(alloc, words) {
        let _shown = errors.write_all(text.as_bytes());
    }
}

/// Runs the program on the words after its name, and returns the exit status. It is 0 for success. It is 1 if a run
/// didn't finish, an exception is uncaught, a cycle was found or something is missing. It is 2 if words or inputs are
/// refused. It is 3 if a file can't be read or written, memory ran out or a device failed.
pub fn perform<
    R: AllocGlobal + Clock + Eprint + Threads + Wait + Sync,
    F: Files,
    I: ByteIn,
    W: ByteOut,
    E: ByteOut,
>(rt: &R, words: &[String], files: &mut F, input: &mut I, output: &mut W, errors: &mut E) -> u8 {
    perform_at(rt, Terminal::NONE, words, files, input, output, errors)
}

/// Runs the program as `perform` does. A person at a terminal sees more on standard error: prompts and hints of
/// `debug`, the progress and a summary of `campaign`, and why words are refused. What a terminal shows of names in
/// words and classes has no control characters.
pub fn perform_at<
    R: AllocGlobal + Clock + Eprint + Threads + Wait + Sync,
    F: Files,
    I: ByteIn,
    W: ByteOut,
    E: ByteOut,
>(
    rt: &R,
    terminal: Terminal,
    words: &[String],
    files: &mut F,
    input: &mut I,
    output: &mut W,
    errors: &mut E,
) -> u8 {
    let alloc = rt.alloc();
    match command(rt, alloc, words, files, input, output, errors, terminal) {
        Ok(status) => status,
        Err(refusal) => {
            let status = refuse(alloc, &refusal, errors, terminal);
            if terminal.errors && matches!(refusal, Refusal::Words) {
                explain_words(alloc, words, errors);
            }
            status
        }
    }
}
