//! The refusals of words, files, schedules, specifications and traces. No line has more than 80 columns.

/// The codes of these refusals, each with the text of `jvmx help CODE`.
pub(crate) const WORDS: [(&str, &str); 14] = [
    (
        "P01",
        "\
P01 FileTooLarge

The file has more than 67,108,864 bytes. Hand in the class files themselves, not
an archive. A trace of a long run may be as large: judge such a run by jvmx run
--spec, which needs no trace file.
",
    ),
    (
        "P02",
        "\
P02 File

The file isn't there, is a folder, or may not be read. Look at its name and at
its rights. - is a name like others: for a trace from a pipe write /dev/stdin.
",
    ),
    (
        "P03",
        "\
P03 NotUtf8

A source, a specification or a trace isn't UTF-8: it was saved in another
encoding, or it is a class file under a name that ends in .j. Save it as UTF-8.
",
    ),
    (
        "P04",
        "\
P04 Words

The words are no command line: an unknown command or option, an option twice or
without its value, no FILE, an entry that isn't C.m.D, an argument that is out
of its parameter's range or no number, a --max above 100,000,000, a --pct of
campaign or a --departures, --runs or --workers of explore or shrink out of its
range, an OUT of asm with the name of its IN. A main class is no entry of eval,
and has no --args. Put quotes round the entry: the shell reads its parentheses.
Write a class a.b.C as a/b/C, and a negative first argument as --args=-7,2. jvmx
help eval, jvmx help run, jvmx help explore and jvmx help check have the rest.
",
    ),
    (
        "P05",
        "\
P05 Output

Standard output, or standard error, couldn't be written: the disc is full, or
the reader of a pipe is gone. A beginning of the output may have been written.
Make room, and run again.
",
    ),
    (
        "P06",
        "\
P06 NotFailing

The run that shrink is to make small doesn't fail: it has no cycle under the
specification, no exception is uncaught, and it isn't Deadlocked or Stalled, or
Running after --max turns. Without --spec no run is judged. The run goes on by
the default where the schedule ends, and ends at a choice of a thread that isn't
enabled. Look at it by jvmx run, or search for a run that fails by jvmx explore
or jvmx campaign.
",
    ),
    (
        "H01",
        "\
H01 Syntax

The word after --sched is no schedule: it is list: and threads parted by commas,
maybe none; rr:Q with Q from 1 to 1,000,000; seed:S:K with S and K below 2 to
the 64; stay: and turns N=T parted by commas, maybe none, with rising N below 2
to the 64 and threads T; or pct:S:K:D:N with S and K below 2 to the 64, D from 1
to 64 and N from 1 to 4,294,967,296. Numbers are decimal digits. White space, a
comma at the end and capitals aren't taken. K and K + 9,223,372,036,854,775,808
give the same schedule. A list of some 65,500 threads or more is too long a word
for Linux: the shell says Argument list too long. Write it to a file F, as one
line, and --sched @F.
",
    ),
    (
        "E01",
        "\
E01 Syntax line N

Line N of the specification is neither empty, nor begins with #, nor is atomic
or plain, one space, and *, C.*, C.m or C.m.D. Write a class a.b.C as a/b/C, and
put nothing after the pattern, no carriage return either. Of a pattern P of
--within, which the line names in place of a file, N is 1: P is none of these.
",
    ),
    (
        "E02",
        "\
E02 Memory

There was no memory for the specification. Free memory, and run again.
",
    ),
    (
        "X01",
        "\
X01 Syntax line N

Line N of the trace is no item, or the file ends without a line end. jvmx help
trace shows the lines. Single spaces separate the parts, and numbers have no
leading zeros. jvmx trace writes such a file: it was edited, cut, or saved with
carriage returns.
",
    ),
    (
        "X02",
        "\
X02 Memory

There was no memory for the trace. Free memory, and run again.
",
    ),
    (
        "F01",
        "\
F01 Unmatched line N

The exit of line N is of another method than the one that its thread entered
last and hasn't left: the trace was cut at its front, or its lines come from
several runs. An X01 further down comes first.
",
    ),
    (
        "F02",
        "\
F02 TooMany

The trace has more than 100,000,000 events. No file of at most 67,108,864 bytes
has: only a program of yours that calls the checker meets it.
",
    ),
    (
        "F03",
        "\
F03 Memory

There was no memory for the trace's transactions. Free memory, and run again.
",
    ),
];
