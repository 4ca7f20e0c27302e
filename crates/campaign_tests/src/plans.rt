//! Programs and plans for the tests.

use atom_spec::Spec;
use campaign::{Choosing, Plan};
use inputs::Input;
use judge::program_of;
use machine::{Entry, Limits};
use program::Program;
use shared_data::items::Items;
use std::alloc::Global;
use std::test::Fail;
use turn_limit::TurnLimit;

/// A program that prints a line, in seven turns of thread 0.
pub const HELLO: &str = "
.class public Main
.super java/lang/Object
.method public static main([Ljava/lang/String;)V
  .limit stack 2
  getstatic java/lang/System/out Ljava/io/PrintStream;
  ldc \"Hello World!\"
  invokevirtual java/io/PrintStream/println(Ljava/lang/String;)V
  return
.end method
";

/// A program that starts a thread, which writes a static field, and joins it. It has a cycle of transactions if `main`
/// is atomic.
pub const FORKS: &str = "
.class public Main
.super java/lang/Thread
.field static x I
.method public <init>()V
  aload_0
  invokenonvirtual java/lang/Thread/<init>()V
  return
.end method
.method public run()V
  .limit stack 1
  iconst_1
  putstatic Main/x I
  return
.end method
.method public static main([Ljava/lang/String;)V
  .limit stack 2
  .limit locals 2
  new Main
  dup
  invokespecial Main/<init>()V
  astore_1
  aload_1
  invokevirtual Main/start()V
  aload_1
  invokevirtual Main/join()V
  return
.end method
";

/// The limits of each job.
const LIMITS: Limits = Limits {
    objects: 100,
    elements: 100,
    threads: 4,
    frames: 16,
};

/// Links the program of a source. If the source has a fault, the test fails.
fn program(alloc: Global, source: &str) -> Result<Program, Fail> {
    let inputs = [Input::Source(String::from_str(alloc, source)?)];
    Ok(program_of(alloc, &inputs)?)
}

/// Returns a plan of this number of jobs, each starting at `Main.main`.
fn plan(alloc: Global, spec: &str, jobs: u64, stop: bool) -> Result<Plan, Fail> {
    let class = [77, 97, 105, 110];
    let Some(most) = TurnLimit::new(1_000) else {
        return Err(Fail::new("a plan fits no program"));
    };
    Ok(Plan {
        entry: Entry::Main {
            class: Items::from_vec(Vec::from_slice(alloc, &class)?),
        },
        limits: LIMITS,
        jobs,
        first: 0,
        seed: 0,
        choosing: Choosing::Random,
        most,
        spec: Spec::read(alloc, spec)?,
        stop,
    })
}

/// Returns a program and a plan of it.
pub fn campaign_of(
    alloc: Global,
    source: &str,
    spec: &str,
    jobs: u64,
    stop: bool,
) -> Result<(Program, Plan), Fail> {
    let plan = plan(alloc, spec, jobs, stop)?;
    match program(alloc, source) {
        Ok(program) => Ok((program, plan)),
        Err(fail) => {
            drop(plan);
            Err(fail)
        }
    }
}
