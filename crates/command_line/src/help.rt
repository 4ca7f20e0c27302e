//! The texts of help and of the version. No line has more than 80 columns.

/// The text of `jvmx --help`.
pub const HELP: &str = "\
jvmx: runs Java class files and sources in Jasmin, one turn of one thread at a
time, and reports whether methods were atomic in a run

Usage: jvmx COMMAND WORDS

  eval           runs a static method on numbers and prints what it gives
  run            runs a program and prints what it writes; with --spec, reports
                 whether methods were atomic in that run
  trace          runs a program and prints what its threads did
  debug          goes forward and back along the turns of a run
  campaign       runs a program under many schedules and reports in which runs
                 methods were atomic
  explore        runs a program under all schedules with few departures from a
                 default and reports the first run that fails
  shrink         leaves out departures of a schedule whose run fails, as long as
                 it fails in the same way
  check          reads what threads did and reports whether methods were atomic
  picture        draws a trace: threads, transactions, and the cycle
  asm            writes the class file of a source
  list           prints a class file as a source
  tables         joins the parts of a campaign or of an exploration
  needs          prints what class files use that isn't there
  help           prints this text; help COMMAND, how that command is used;
                 help CODE, what the code of a refusal means; help P04 -- WORDS,
                 why these words are refused
  -h, --help     prints this text; after a command, how that command is used
  -V, --version  prints the program's name and version

Exit status: 0; 1 where a run didn't finish, an exception wasn't caught, methods
weren't atomic, explore or shrink stopped early or needs found something; 2
where words or inputs are refused; 3 where memory ran out or a file, standard
output or standard error failed.

A refusal is one line on standard error, jvmx: FILE: CODE NAME. jvmx help CODE
says what the code means and what usually causes it, and jvmx help P04 -- WORDS
which of the words is wrong.

Example: jvmx eval --entry 'G.gcd.(II)I' --args 48,36 examples/G.j
";

/// The text of `jvmx eval --help`.
pub const EVAL_HELP: &str = "\
jvmx eval: runs a static method on numbers and prints what it gives

Usage: jvmx eval --entry C.m.D [--args N,N] FILE...

  --entry C.m.D  the method (required): its class, its name and its descriptor,
                 as the class file has them, parted by dots. A 16-bit unit
                 outside 33 to 126, and the backslash, is written \\u and four
                 lower case hexadecimal digits
                 examples: --entry 'G.gcd.(II)I', --entry 'a/b/C.f.()V'
  --args N,N     its arguments: decimal numbers from -2147483648 to 2147483647,
                 or from -9223372036854775808 to 9223372036854775807 for a
                 parameter of type long, parted by commas (default: none). A
                 negative first one is joined to the option
                 examples: --args 48,36, --args=-7,2
  FILE...        the classes of the program, each of at most 67108864 bytes (at
                 least one): a source in Jasmin where the name ends in .j, else
                 a class file

Options and FILEs stand in any order. --args=48,36 is --args 48,36, and after --
all words are FILEs.

The method runs as thread 0, which takes all turns, at most 1000000: threads
that it starts take none. jvmx run lets them run. A run has at most 1000000
objects, 10000000 elements of arrays, 64 threads and 1024 frames a thread.

All instructions run but those of float and double: a thread stops before one of
these, and where no thread can go on, the status is Stalled.

Standard output: the result and a line end, an int or a long in decimal, a
reference as null or R:n. Where there is no result, standard error: uncaught T C
for each thread T that ended with an exception, of class C; then status S turns
N, with S one of Finished, Running, Stalled, Deadlocked.

Exit status: 0 where the status is Finished and no exception is uncaught, else
1; 2 and 3 as jvmx --help says. jvmx help CODE explains the code of a refusal.

Example: jvmx eval --entry 'G.gcd.(II)I' --args 48,36 examples/G.j
prints 12
";

/// The text of `jvmx run --help`.
pub const RUN_HELP: &str = "\
jvmx run: runs a program and prints what it writes

Usage: jvmx run --entry E [--args N,N] [--sched S] [--max N] [--spec F]
                [--explain] FILE...

  --entry E   where the program begins (required). Without a dot it is a class,
              whose method main([Ljava/lang/String;)V runs on no strings; else a
              static method C.m.D, as jvmx help eval says
              examples: --entry a/b/C, --entry 'G.gcd.(II)I'
  --args N,N  the arguments of a static method, as jvmx help eval says; main has
              none
  --sched S   which thread takes each turn (default: rr:1)
              list:0,0,1  these threads, one turn each, and then none; the turn
                          of a thread that isn't enabled changes nothing
              rr:Q        the enabled threads by rising number and round, each
                          for Q turns; Q is from 1 to 1000000
              seed:S:K    the enabled thread that a random number picks; S, the
                          generator's state, and K, its stream, are below
                          18446744073709551616
              stay:N=T,.. thread T at turn N, counted from 0; N rises, and is
                          below 18446744073709551616. At all other turns the
                          last thread while it is enabled, else the next enabled
                          one by rising number and round; thread 0 begins. Where
                          T isn't enabled, its turn changes nothing, and none
                          follows
              pct:S:K:D:N the enabled thread of the highest priority. Random
                          numbers, by S and K as of seed:, are D - 1 turns below
                          N, and the threads' priorities. After the I-th of
                          these turns its thread has priority I - 1, below all
                          random ones. D is from 1 to 64, N from 1 to 4294967296
              @FILE       the schedule that this file holds, on one line
              examples: --sched list:0,0,1, --sched rr:2, --sched seed:42:54,
              --sched stay:3=1,7=0, --sched pct:0:1:3:1000
  --max N     how many turns may be taken: decimal digits, at most 100000000
              (default: 1000000)
  --spec F    which methods are to be atomic, as jvmx help check says: reports
              whether they were
  --explain   prints more on standard error, as said below
  FILE...     the classes of the program, as jvmx help eval says

Options and FILEs stand in any order. --max=9 is --max 9, and after -- all words
are FILEs.

Threads have numbers from 0, in the order of their starts; the entry runs as
thread 0. A thread is enabled where it can go on: it hasn't ended, waits for no
other thread and no notification, and isn't before an instruction that doesn't
run. The run ends where no thread is enabled, the schedule is at its end, or
--max turns were taken. jvmx help eval has its other limits, and what runs.

Standard output: the bytes that the program writes. Standard error: uncaught T C
for each thread T that ended with an exception, of class C; then status S turns
N, with S one of Finished, Running, Stalled, Deadlocked; with --spec, then the
line that jvmx check prints. C is written as names are in --entry.

With --explain, a cycle's line is followed by one for each of its transactions:
its thread, its outermost atomic method (or the method it was in, if none is
atomic), its first and its last event. Then come its edges: A before B, and an
event of each that conflict, with their lines of the trace. 'at turn K' is the
turn that gave an event: in jvmx debug, goto K-1 is just before it. A line for
each of these events says where it is in the program, and one for each line of
the specification that matches no method says so. For each uncaught exception a
line says where it was thrown. If the status is Deadlocked or Stalled, a line
for each thread that can't continue says where it stops; then one for each
thread has the outcome of its next turn, and where it is. A place is C.m.D @N,
with the line of the source if the class file has it, (F.java:12), and with what
its instruction needs that isn't there, as jvmx needs has it. At most 64
transactions and edges are explained. The turns are taken twice or more, and the
whole trace is kept in memory.

Exit status: 0 where the status is Finished, no exception is uncaught and, with
--spec, no cycle was found, else 1; 2 and 3 as jvmx --help says.
jvmx help CODE explains the code of a refusal.

Example: jvmx run --entry LostUpdate --sched rr:1 examples/threads/LostUpdate.j
prints 1, though each of two threads adds 1
";

/// The text of `jvmx trace --help`.
pub const TRACE_HELP: &str = "\
jvmx trace: runs a program and prints what its threads did

Usage: jvmx trace --entry E [--args N,N] [--sched S] [--max N] [--choices]
                  FILE...

Options and FILEs are those of jvmx run, as jvmx help run says, but for --spec.
What the program writes isn't printed.

  --choices  prints the threads that took the turns, as a schedule list:0,0,1,
             in place of the trace. In a file F it is --sched @F

Standard output: the trace, a line for each thing that a thread did, in order:

  rd T V       thread T read the variable V
  wr T V       it wrote V
  acq T R      it took the monitor of object R
  rel T R      it gave that monitor up
  fork T U     it started thread U
  join T U     it saw that thread U had ended
  enter T M    it called the method M
  exit T M     it left M, by a return or by an exception

M is C.m.D, a class, a method's name and its descriptor. V is C.x.D for a static
field, R.C.x.D for a field of object R, and R[i] for an element of array R, with
C the class that declares the field. Names are written as in --entry. Methods
and fields of built-in classes have no lines. A monitor that a thread owns
already is neither taken nor released. A call of wait has two lines: rel as the
thread begins to wait, and acq as it takes the monitor again. Calls of notify
and notifyAll have none.

Exit status: 0 where the status is Finished and no exception is uncaught, else
1; 2 and 3 as jvmx --help says. jvmx help CODE explains the code of a refusal.

Example: jvmx trace --entry LostUpdate examples/threads/LostUpdate.j
";

/// The text of `jvmx debug --help`.
pub const DEBUG_HELP: &str = "\
jvmx debug: goes forward and back along the turns of a run

Usage: jvmx debug --entry E [--args N,N] [--sched S] [--max N] FILE...

Options and FILEs are those of jvmx run, as jvmx help run says, but for --spec.
The schedule chooses a thread for each turn of a whole run, at most --max. The
session begins before the first turn. It reads commands from standard input, a
line each, and prints the answer to one before it reads the next. What the
program writes isn't printed.

  step N          goes forward by N turns, at most to the end
  back N          goes back by N turns, at most to 0
  goto N          goes to position N: after the first N turns
  continue        goes to the next turn of a thread that is at a breakpoint
  rcontinue       goes back to the last such turn before the position
  pick T          drops the turns after the position and takes one of thread T
  break C.m.D I   adds a breakpoint at instruction I of a method, from 0
  delete K        removes breakpoint K
  threads         shows the outcome of each thread's next turn, and where it is
  frames T        shows the frames of thread T: local variables and operands
  object R        shows the object of reference R, its owner and its waiters
  class C         shows how far the class is initialised, and its static fields
  trace           shows what the threads did so far, as jvmx trace prints it
  output          shows what the program wrote so far: how many bytes, and these

step, back, goto, continue, rcontinue and pick answer 'at P of N STATUS, thread
T OUTCOME': the position, the number of turns, the machine's status, and the
outcome of the last turn before the position. A line that can't be carried out
is answered by 'fault CODE NAME' and changes nothing. jvmx help CODE explains
it. The end of standard input, at a terminal Ctrl-D, ends the session. At a
terminal standard error shows where the thread of the next turn is, with the
line of the source if the class file has it, and a prompt with the position.

Exit status: 0, whatever the session shows; 2 and 3 as jvmx --help says.

Example: echo 'step 8
threads
back 1
threads' | jvmx debug --entry LostUpdate examples/threads/LostUpdate.j
";

/// The text of `jvmx campaign --help`.
pub const CAMPAIGN_HELP: &str = "\
jvmx campaign: runs a program under many schedules and reports in which runs
methods were atomic

Usage: jvmx campaign --entry E [--args N,N] --spec F --jobs N [--first K]
                     [--seed N] [--pct D] [--workers N] [--max N] [--stop]
                     [--summary] FILE...

  --entry E    where the program begins (required), as jvmx help run says
  --args N,N   the arguments of a static method, as jvmx help eval says
  --spec F     which methods are to be atomic (required), as jvmx help check
               says
  --jobs N     how many times the program runs, at most 1000000 (required). Job
               K runs it under the schedule seed:SEED:K, as jvmx help run says
  --first K    the number of the first job (default: 0). jvmx tables joins the
               tables of several parts of a campaign
  --seed N     SEED, below 18446744073709551616 (default: 0)
  --pct D      job K runs under pct:SEED:K:D:N, as jvmx help run says, with D
               from 1 to 64: by random priorities of the threads, which change
               after D - 1 of N turns. N is the number of turns of the run under
               stay:, up to --max, and at least 1. Not for threads that loop
               until another one does something: they may loop up to --max
  --workers N  how many jobs run at the same time, from 1 to 64 (default: 4).
               What is printed doesn't depend on it
  --max N      how many turns each job may take, at most 100000000 (default:
               1000000)
  --stop       ends the table with the first job that has a cycle
  --summary    prints the summary also where standard error is no terminal
  FILE...      the classes of the program, as jvmx help eval says

Options and FILEs stand in any order. --jobs=9 is --jobs 9, and after -- all
words are FILEs.

Standard output: the table, a line for each job and then one for all of them,
  job K atomic status S turns N events M
  job K cycle at E status S turns N events M
  jobs N atomic A cycle C
with S one of Finished, Running, Stalled, Deadlocked. The first E of the M
events are the fewest with a cycle. jvmx help check says what atomic means, and
what events are.

UNCAUGHT EXCEPTIONS ARE NOT REPORTED, neither by the table nor by the exit
status: a job in which a thread died of one may well be Finished. To find them,
call jvmx run --sched seed:0:K for each K, and look at its exit status; or let
the program loop for ever where a check of its own fails, so that the status is
Running.

Standard error, at a terminal: while jobs run, how many are done. Then the
summary: the lines of the specification that match no method; for the first job
with a cycle, and for the first of each status but Finished, how many have one,
and the commands that run it again and debug it.

Exit status: 0 where all jobs of the table are atomic and Finished, else 1; 2
and 3 as jvmx --help says. jvmx help CODE explains the code of a refusal.

Example: jvmx campaign --entry LostUpdate --spec examples/threads/atomic.spec \\
  --jobs 100 examples/threads/LostUpdate.j
";

/// The text of `jvmx explore --help`.
pub const EXPLORE_HELP: &str = "\
jvmx explore: runs a program under all schedules with few departures from a
default and reports the first run that fails

Usage: jvmx explore --entry E [--args N,N] [--spec F] [--departures D]
                    [--within P]... [--part I/N] [--runs N] [--max N]
                    [--workers W] [--all] [--summary] FILE...

  --entry E       where the program begins (required), as jvmx help run says
  --args N,N      the arguments of a static method, as jvmx help eval says
  --spec F        which methods are to be atomic, as jvmx help check says
                  (default: no run is judged)
  --departures D  how many departures a run may have, at most 16 (default: 2)
  --within P      leaves threads only in methods that P matches, a pattern as
                  jvmx help check says. With several, in methods that one of
                  them matches (default: threads are left in all methods)
  --part I/N      runs one of N parts, at most 1000000, of which the first is 0.
                  jvmx tables joins what they print
  --runs N        how many runs there may be, from 1 to 1000000000 (default:
                  1000000)
  --max N         how many turns each run may take, at most 100000000 (default:
                  100000)
  --workers W     how many runs there are at the same time, from 1 to 64
                  (default: 4). What is printed doesn't depend on it
  --all           goes on to further levels after one with a run that fails
  --summary       prints the summary also where standard error is no terminal
  FILE...         the classes of the program, as jvmx help eval says

Options and FILEs stand in any order. --runs=9 is --runs 9, and after -- all
words are FILEs.

The default goes on with the thread that took the last turn while it is enabled,
else with the next enabled one by rising number and round; thread 0 begins. A
departure is a choice that differs: jvmx help run describes stay:, a schedule by
its departures. Level K has the runs with K departures, and the levels are run
one after another, 0, 1, .. D. A thread is left only where it can't go on, or
where its next turn isn't local. A local turn touches its thread's own frame
alone, or is a call or a return without a monitor. That loses nothing: for each
run that ends, one of these has its events and its end, with no more departures.

A run fails if it has a cycle under F, if a thread ended by an uncaught
exception, if it is Deadlocked or Stalled, or if it is Running after --max
turns.

Standard output: a line for each level, and then one of the last three lines,
  departures K runs N cycle N uncaught N deadlocked N stalled N running N
  failing S cycle at E status X turns N events M
  covered D
  stopped
The line of a level counts its runs, and those that fail in each way. A run that
fails in several ways counts under each. The line of a level that --runs cuts
short ends with of M, where M is the number of all its runs.

failing: a run failed. Of the lowest level with such a run this is the first, by
the positions and threads of its departures. S is its schedule, as --sched of
jvmx run takes it, and X one of Finished, Running, Stalled, Deadlocked. The
first E of the M events are the fewest with a cycle. Without a cycle, atomic
stands for cycle at E. If a thread ended by an exception, the line ends with
uncaught T C, for the first such thread T and the class C. The level is run to
its end. It is the last, unless --all is there.

covered D: no run failed, and all levels to D are whole. Then no run that ends
and has at most D departures fails, wherever it leaves threads: this is proved.
Nothing is said of runs that never end.

With --within a thread that is enabled is left only if P matches the method of
its top frame. No P matches a thread before its first call, or in a step of a
class's initialisation outside of methods. There are fewer runs, so further
levels come within reach. The last line is then covered D within P, with all P
in the order of the words, parted by spaces. It says less: of the runs that end
and have at most D departures, none fails that leaves threads only there. A run
that leaves one elsewhere isn't covered and may fail. So failing is then the
first of the runs that leave threads only there.

stopped: no run failed, and --runs came before the end of level D.

With --part the runs of level 1 are dealt out to the parts one by one, and those
further down go to the part of the run from which they depart. Part 0 has level
0. The parts have each run once, so they may run on many machines, and --runs is
what each of them may run. The last line ends with part I/N, and says what it
says of the part's runs. All parts together cover what is covered without.

Standard error, at a terminal: the summary, which has the lines of the
specification that match no method, and the commands that run the failing run
again and debug it.

Exit status: 0 where the last line is covered, 1 where it is failing or stopped;
2 and 3 as jvmx --help says. jvmx help CODE explains the code of a refusal.

Example: jvmx explore --entry LostUpdate --spec examples/threads/atomic.spec \\
  examples/threads/LostUpdate.j
";

/// The text of `jvmx shrink --help`.
pub const SHRINK_HELP: &str = "\
jvmx shrink: leaves out departures of a schedule whose run fails, as long as it
fails in the same way

Usage: jvmx shrink --entry E [--args N,N] --sched S [--spec F] [--max N]
                   [--runs N] [--summary] FILE...

  --entry E   where the program begins (required), as jvmx help run says
  --args N,N  the arguments of a static method, as jvmx help eval says
  --sched S   the schedule whose run fails (required), as jvmx help run says
  --spec F    which methods are to be atomic, as jvmx help check says (default:
              no run is judged)
  --max N     how many turns each run may take, at most 100000000 (default:
              100000)
  --runs N    how many runs the search may make, from 1 to 1000000000 (default:
              10000)
  --summary   prints the summary also where standard error is no terminal
  FILE...     the classes of the program, as jvmx help eval says

Options and FILEs stand in any order. --runs=9 is --runs 9, and after -- all
words are FILEs.

The departures of S are its choices that differ from the default, which jvmx
help explore describes. Where S ends before the program does, the run goes on by
the default. A choice of a thread that isn't enabled is a departure too, and
ends the run.

A run fails if it has a cycle under F, if a thread ended by an uncaught
exception, if it is Deadlocked or Stalled, or if it is Running after --max
turns. If the run of the departures of S fails in several of these ways, the
first of them counts. The search leaves out all departures, halves of them,
quarters, and so on, and then single ones, wherever the run without them fails
in this way too.

Standard output: a line, and a second one where --runs came before the end of
the search,
  failing S cycle at E status X turns N events M
  stopped
The line has the schedule with the departures that are left and how its run
ends, in the words of jvmx explore. Without a second line, no single departure
can be left out: this is proved. Several at once may be.

Standard error, at a terminal: the summary, which has the lines of the
specification that match no method, and the commands that run the failing run
again and debug it.

Exit status: 0 where no single departure can be left out, 1 where the last line
is stopped; 2, with P06, where the run doesn't fail; 2 and 3 as jvmx --help
says. jvmx help CODE explains the code of a refusal.

Example: jvmx shrink --entry LostUpdate --sched rr:1 \\
  --spec examples/threads/atomic.spec examples/threads/LostUpdate.j
";

/// The text of `jvmx check --help`.
pub const CHECK_HELP: &str = "\
jvmx check: reads what threads did and reports whether methods were atomic

Usage: jvmx check --spec F [--serial] [--explain] TRACE

  --spec F  which methods are to be atomic (required): lines atomic P or plain
            P, with P one of
            *      all methods
            C.*    the methods that class C declares
            C.m    those of C whose name is m
            C.m.D  the method of C with name m and descriptor D
            The last line that speaks of a method decides; without one it is
            plain. <clinit> and methods of built-in classes always are. Empty
            lines and lines that begin with # are skipped. Names are written as
            in --entry (jvmx help eval)
  --serial  where the trace is atomic, also prints its events in a serial order
  --explain where there is a cycle, also prints its transactions and the events
            that conflict, as jvmx help run says; turns aren't known
  TRACE     the trace, as jvmx trace prints it (jvmx help trace has its lines)

Options and TRACE stand in any order. --spec=F is --spec F, and after -- a word
is TRACE. Each file is in UTF-8 and has at most 67108864 bytes.

Events are all lines but enter and exit, numbered from 1. What a thread does
from the entry of an atomic method to its exit is one transaction, with all that
it calls; any other event is one alone. Two events conflict where they are of
one thread, on one monitor, on one variable that one of them writes, or where
one starts or joins the other's thread. A trace is atomic where no transactions
stand in a cycle, each with an event before one of the next that it conflicts
with. Then its transactions could have run one at a time, to the same effect.

Standard output: one line,
  atomic events N transactions M
  cycle at E events N transactions M: A B ..
where N events are in M transactions, the first E events are the fewest with a
cycle, and A, B .. are the transactions of one, numbered by their first events;
A is that of event E. With --serial, after an atomic verdict, a line an event:
its number, a space, and its line of the trace.

Exit status: 0 where the trace is atomic, 1 where a cycle was found; 2 and 3 as
jvmx --help says. jvmx help CODE explains the code of a refusal.

Example: jvmx check --spec examples/threads/atomic.spec --serial /tmp/trace
";

/// The text of `jvmx picture --help`.
pub const PICTURE_HELP: &str = "\
jvmx picture: draws a trace: threads, transactions, and the cycle

Usage: jvmx picture --spec F [--dot] TRACE

  --spec F  which methods are to be atomic (required), as jvmx help check says
  --dot     prints the graph of transactions, as Graphviz reads it
  TRACE     the trace, as jvmx trace prints it

Standard output: SVG, with a column for each thread, time downwards, and each
event with its number and its line of the trace. A box is a transaction, with
its number and its outermost atomic method. A grey arrow leads to an event from
the last one of another thread that it conflicts with, unless one leads from
there to an earlier event of its thread. A red box is a transaction of the
cycle, and a red arrow one of its edges.

At most 200 events are drawn: of more, those of the transactions that the first
64 edges of the cycle join, and of still more first the events of these edges;
or the first events if there is no cycle. With --dot there is a node for each of
the transactions, and an edge for each two with events that conflict.

Exit status: 0, also where there is a cycle; 2 and 3 as jvmx --help says.
jvmx help CODE explains the code of a refusal.

Example: jvmx picture --spec examples/threads/atomic.spec /tmp/trace >/tmp/a.svg
";

/// The text of `jvmx asm --help`.
pub const ASM_HELP: &str = "\
jvmx asm: writes the class file of a source in Jasmin

Usage: jvmx asm IN OUT

  IN   the source, in UTF-8, of at most 67108864 bytes, whatever its name
  OUT  the class file, version 49.0, that is written. Its name isn't that of IN

A refusal leaves OUT as it is: the class is written to a fresh file beside it,
whose name can't be guessed, and that takes the place of OUT. It has the mode
of OUT, but the bits that set user and group only if OUT has the owner and the
group of a new file. Other names of OUT, its hard links, keep the old file. A
symbolic link stays, and the file that it names is replaced, or made if it
isn't there. A device or a pipe gets the class as it is.

Exit status: 0; 2 and 3 as jvmx --help says. jvmx help CODE explains the
code of a refusal: J01 to J12 of a source's line, A01 to A08 of its class.

Example: jvmx asm examples/G.j G.class
";

/// The text of `jvmx list --help`.
pub const LIST_HELP: &str = "\
jvmx list: prints a class file as a source in Jasmin

Usage: jvmx list FILE

  FILE  the class, of at most 67108864 bytes: a source in Jasmin where the name
        ends in .j, else a class file

Standard output: a source that means what the class means, one statement a
line, instruction n under the label Ln where something leads to it. Attributes
that don't run, as line numbers, aren't listed.

Exit status: 0; 2 and 3 as jvmx --help says. jvmx help CODE explains the
code of a refusal: L01 and L02 say why a class can't be written as a source.

Example: jvmx list examples/G.class
";

/// The text of `jvmx tables --help`.
pub const TABLES_HELP: &str = "\
jvmx tables: joins the parts of a campaign or of an exploration

Usage: jvmx tables FILE...

  FILE...  tables, as jvmx campaign prints them, or texts, as jvmx explore --part
           prints them, each of at most 67108864 bytes (at least one). They stand
           in any order. The first says which of the two all are

Standard output, of tables: the table of all jobs, as jvmx campaign prints it.
The jobs are those from 0 on, each in one FILE: a job that no FILE has before
the last is refused, T02, and one that two FILEs have, T03. A FILE that isn't
whole is refused, T01.

A campaign is cut into parts by --first K and --jobs N; the parts may run on
many machines. With --stop only the last part with jobs may end early.

Standard output, of texts: what all parts found, as jvmx explore prints it. The
line of a level counts the runs of all parts. There is one for each level that
all parts have. The last line is
- failing, with the first run that fails, if a part found one at these levels;
- else covered, if each part of all N is there and says covered;
- else stopped: a part is missing, or it stopped.
Two FILEs of the same part are refused, T04, and those of other parts or words,
T05. A FILE that isn't whole is refused, T01.

Exit status: 0 where all jobs are atomic and Finished, or the last line is
covered, else 1; 2 and 3 as jvmx --help says. jvmx help CODE explains the code
of a refusal.

Example: jvmx tables /tmp/part0 /tmp/part1
";

/// The text of `jvmx needs --help`.
pub const NEEDS_HELP: &str = "\
jvmx needs: prints what class files use that isn't there

Usage: jvmx needs [--spec F] FILE...

  --spec F  a specification, as jvmx help check says: names those of its lines
            that match no method of the FILEs
  FILE...   the classes of the program, as jvmx help eval says

Options and FILEs stand in any order. --spec=F is --spec F, and after -- all
words are FILEs.

Standard output: a line for each instruction that can't run, in the order of the
FILEs, of their methods and of the instructions,
  C.m.D @N NoClassDefFoundError C
  C.m.D @N NoSuchMethodError C.m.D
  C.m.D @N NoSuchFieldError C.x.D
  C.m.D @N IncompatibleClassChangeError C.m.D
  C.m.D @N OutOfProfile
for instruction N of the method that the line begins with, from 0, with the line
of the source after it if the class file has it, (F.java:12): no FILE has
the class and it isn't built in; the class has no such member; the member is or
isn't static, or the class is or isn't an interface, against what the
instruction asks for; jvmx doesn't have the instruction, as those of float and
double. OutOfProfile is followed by what the instruction names, if it names
something. A line ends with why a compiler may have put the instruction there:
  (+ on strings)             write print twice
  (assert)                   write if and throw
  (boxing)                   write int or another primitive type
  (enum)                     write ints
  (float or double)          write int or long
  (a class of another file)  name the FILE of that class too
Then a line for each line of the specification that matches no method,
  spec atomic C.m matches no method

The program isn't run. If a superclass or a superinterface isn't there, which is
K02 where the program is run, only the lines of these are printed,
  C NoClassDefFoundError D
for class C, which names D.

Exit status: 0 where nothing is printed, else 1; 2 and 3 as jvmx --help says.
jvmx help CODE explains the code of a refusal.

Example: jvmx needs --spec examples/threads/atomic.spec \\
  examples/threads/LostUpdate.j
";

/// The text of `jvmx --version`.
pub const VERSION: &str = "jvmx 0.1.0\n";
